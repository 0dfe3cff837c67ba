//! What is true of what is kept of style sheets, as the contracts of functions that do nothing.

ghost use Rattle.std.specs.Prelude.{◌≡◌, true};
ghost use Rattle.std.specs.List.{list_all};
ghost use Rattle.base_model.specs.Text.{Characters};
ghost use Rattle.syntax_model.specs.Rules.{SheetEdition};
ghost use Rattle.sheet_model.specs.Declared.{style_declared};
ghost use Rattle.sheet_model.specs.StyleRules.{style_rules_in};
ghost use Rattle.sheet_set.specs.Writable.{declared_writable, rule_writable};

/// Each value that is kept of a sheet as tokens, of a custom property or with `var()`, is writable.
pub fn rules_are_writable()
    ensures { (edition : SheetEdition) (text : Characters)
        → list_all rule_writable (style_rules_in edition text) ≡ true }
{}

/// So is each that is kept of a `style` attribute.
pub fn style_attributes_are_writable()
    ensures { (text : Characters) → list_all declared_writable (style_declared text) ≡ true }
{}
