//! What a declaration declares.

ghost use Rattle.std.specs.Prelude.{◌≡◌, ◌++◌, IfOk, OnOk, flat_map, option_map, option_to_list};
ghost use Rattle.css_rules.specs.View.{declaration_of};
ghost use Rattle.sheet_model.specs.Declared.{custom_declared, custom_given_in, declared_in};
ghost use Rattle.sheet_model.specs.Shorthands.{single};
ghost use Rattle.shorthands.specs.View.{declared_of, given_of};

use crate::keep::keep;
use crate::longhands::add_property_name;
use css_rules::RawDecl;
use css_tokens::{CustomName, CustomValue, Token, is_custom_name};
use shorthands::{Declared, Given, PropertyName, Target};
use std::alloc::Global;
use stylo_base::NoMemory;
use value_parser::wide_keyword;

/// Adds what a declaration declares: a custom property, where its name is one of these
/// (css-variables-1, section 2), else a property of the table, or those that a shorthand stands for
/// (css-cascade-5, section 3). Nothing where its name is of none, or its value is not taken.
pub(crate) fn add_declared(
    alloc: Global,
    kept: &mut Vec<Declared>,
    declaration: &RawDecl,
) -> Result<(), NoMemory>
    ensures { OnOk result (flat_map declared_of kept.new.items
        ≡ flat_map declared_of kept.old.items ++ declared_in (declaration_of declaration.now)) }
{
    if is_custom_name(declaration.name.as_str()) {
        return add_custom(alloc, kept, declaration);
    }
    match PropertyName::named(declaration.name.as_str()) {
        Some(property_name) => add_property_name(alloc, kept, declaration, property_name),
        None => Ok(()),
    }
}

/// Adds what a declaration of a custom property declares. Case counts in the name, which is kept as it
/// is.
fn add_custom(
    alloc: Global,
    kept: &mut Vec<Declared>,
    declaration: &RawDecl,
) -> Result<(), NoMemory>
    ensures { OnOk result (flat_map declared_of kept.new.items ≡ flat_map declared_of kept.old.items
        ++ option_to_list (custom_declared (declaration_of declaration.now))) }
{
    let Some(given) = custom_given(alloc, declaration.value.as_slice())? else {
        return Ok(());
    };
    let name = CustomName::of_text(alloc, declaration.name.copy(alloc)?)?;
    keep(kept, declaration, Target::Custom(name), given)
}

/// What the tokens give a custom property: a CSS-wide keyword, or themselves where they are valid
/// (css-variables-1, section 2).
fn custom_given(alloc: Global, tokens: &[Token]) -> Result<Option<Given>, NoMemory>
    ensures { IfOk result (λ given. option_map (given_of (single 0)) given ≡ custom_given_in tokens.now) }
{
    if let Some(wide) = wide_keyword(tokens) {
        return Ok(Some(Given::Wide(wide)));
    }
    match CustomValue::read(alloc, tokens)? {
        Some(value) => Ok(Some(Given::Holding(value))),
        None => Ok(None),
    }
}
