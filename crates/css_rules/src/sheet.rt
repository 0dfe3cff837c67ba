//! The rules of a sheet.

ghost use Rattle.std.specs.Prelude.{◌≡◌, IfOk};
ghost use Rattle.std.specs.Str.{chars};
ghost use Rattle.syntax_model.specs.SheetRules.{sheet_rules_in};
ghost use Rattle.css_rules.specs.View.{edition_of, no_edition, rules_of};

use crate::{Rule, RuleReader, SheetEdition};
use std::alloc::Global;
use stylo_base::NoMemory;

/// The rules of a text that is of no sheet: its anonymous layers are of a sheet with the number 0.
pub fn sheet_rules(alloc: Global, text: &str) -> Result<Vec<Rule>, NoMemory>
    ensures { IfOk result (λ rules. rules_of rules.items ≡ sheet_rules_in no_edition (chars text.now)) }
{
    let edition = SheetEdition {
        sheet: 0,
        edition: 0,
    };
    edition_rules(alloc, edition, text)
}

/// The rules of a sheet's text and the layers that it declares, in its order. A qualified rule is kept where it has a
/// block, and its prelude has brackets nested at most 64 deep; an `@layer` is dropped whole where one of its names is
/// no name, or has more than 64 parts with those of the layers that it is in.
pub fn edition_rules(
    alloc: Global,
    edition: SheetEdition,
    text: &str,
) -> Result<Vec<Rule>, NoMemory>
    ensures { IfOk result (λ rules. rules_of rules.items
        ≡ sheet_rules_in (edition_of edition) (chars text.now)) }
{
    let mut reader = RuleReader::new(alloc, edition, text)?;
    unread_rules(alloc, &mut reader)
}

/// The rules that are left to read, in their order.
fn unread_rules(alloc: Global, reader: &mut RuleReader) -> Result<Vec<Rule>, NoMemory>
    ensures { IfOk result (λ rules. rules_of rules.items ≡ reader.old.left) }
{
    let mut rules = Vec::new(alloc);
    while let Some(rule) = reader.next_rule(alloc)? {
        rules.push(rule)?;
    }
    Ok(rules)
}
