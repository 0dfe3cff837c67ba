//! Sheets as they are read, where all are.

ghost use Rattle.std.specs.Prelude.{◌≡◌, ◌++◌, ◌<◌, ◌^◌, IfOk, OnOk, vec_len};
ghost use Rattle.sheet_set.specs.Kept.{kept_seen};
ghost use Rattle.sheet_set.specs.Rules.{AreSame, rules_with, sheet_made, taking_part};

use crate::{KeptSheet, SheetInput, SheetRule};
use css_rules::SheetEdition;
use selector_types::Selector;
use std::alloc::Global;
use stylo_base::NoMemory;

/// A sheet under a number and an edition, as it is kept. If it is enabled, its rules are added to those of all sheets.
pub(crate) fn taken_in(
    alloc: Global,
    at: SheetEdition,
    sheet: SheetInput,
    rules: &mut Vec<SheetRule>,
    selectors: &mut Vec<Vec<Selector>>,
) -> Result<KeptSheet, NoMemory>
    requires { vec_len rules.old ≡ vec_len selectors.old }
    ensures sheet { IfOk result (λ kept. kept_seen kept
        ≡ sheet_made at.sheet sheet.origin sheet.enabled sheet.text at.edition) }
    ensures rules { IfOk result (λ kept. AreSame (rules_with rules.new.items selectors.new.items)
        (rules_with rules.old.items selectors.old.items ++ taking_part (kept_seen kept))) }
    ensures paired { OnOk result (vec_len rules.new ≡ vec_len selectors.new) }
{
    let is_on = sheet.enabled;
    let mut kept = KeptSheet::read(alloc, at, sheet)?;
    if is_on {
        let end = rules.len();
        rules.reserve(kept.count())?;
        selectors.reserve(kept.count())?;
        kept.bring_in(rules, selectors, end);
    }
    Ok(kept)
}

/// The same of a sheet that is kept already, with a copy of its text.
pub(crate) fn taken_again(
    alloc: Global,
    sheet: &KeptSheet,
    rules: &mut Vec<SheetRule>,
    selectors: &mut Vec<Vec<Selector>>,
) -> Result<KeptSheet, NoMemory>
    requires { vec_len rules.old ≡ vec_len selectors.old }
    ensures sheet { IfOk result (λ kept. kept_seen kept ≡ kept_seen sheet.now) }
    ensures rules { IfOk result (λ kept. AreSame (rules_with rules.new.items selectors.new.items)
        (rules_with rules.old.items selectors.old.items ++ taking_part (kept_seen kept))) }
    ensures paired { OnOk result (vec_len rules.new ≡ vec_len selectors.new) }
{
    let at = SheetEdition {
        sheet: sheet.number(),
        edition: sheet.edition(),
    };
    let input = SheetInput {
        origin: sheet.origin(),
        enabled: sheet.is_enabled(),
        text: sheet.text().copy(alloc)?,
    };
    taken_in(alloc, at, input, rules, selectors)
}
