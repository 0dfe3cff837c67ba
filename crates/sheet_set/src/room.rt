//! The room that a step of an edit needs in the lists of all sheets.

ghost use Rattle.std.specs.Prelude.{◌≡◌, ◌≤◌, OnOk, if◌then◌else◌, length, vec_len};
ghost use Rattle.sheet_set.specs.Kept.{taking};
ghost use Rattle.sheet_set.specs.Room.{HasPlaces, HasRoom, IsAtPlace, rules_more};

use crate::sheet_step::SheetStep;
use crate::{KeptSheet, SheetRule};
use selector_types::Selector;
use stylo_base::NoMemory;

/// Makes room for a step. What is in the lists stays.
pub(crate) fn make_room(
    sheets: &mut Vec<KeptSheet>,
    rules: &mut Vec<SheetRule>,
    selectors: &mut Vec<Vec<Selector>>,
    ranks: &mut Vec<u32>,
    positions: &mut Vec<u32>,
    step: &SheetStep,
) -> Result<(), NoMemory>
    requires at { IsAtPlace sheets.old.items step.now }
    requires paired { vec_len rules.old ≡ vec_len selectors.old }
    requires ranked { vec_len rules.old ≡ vec_len ranks.old }
    requires placed { vec_len rules.old ≡ vec_len positions.old }
    requires taking { length (taking sheets.old.items) ≤ vec_len rules.old }
    ensures sheets { sheets.new.items ≡ sheets.old.items }
    ensures rules { rules.new.items ≡ rules.old.items }
    ensures selectors { selectors.new.items ≡ selectors.old.items }
    ensures ranks { ranks.new.items ≡ ranks.old.items }
    ensures positions { positions.new.items ≡ positions.old.items }
    ensures room { OnOk result (HasRoom sheets.new rules.new selectors.new ranks.new step.now) }
    ensures places { OnOk result (HasPlaces sheets.new.items positions.new step.now) }
{
    let more = rules_more(sheets, step);
    sheets.reserve(1)?;
    rules.reserve(more)?;
    selectors.reserve(more)?;
    ranks.reserve(more)?;
    positions.reserve(more)?;
    Ok(())
}

/// How many rules come with a step.
fn rules_more(sheets: &[KeptSheet], step: &SheetStep) -> usize
    requires { IsAtPlace sheets.now step.now }
    ensures { result ≡ rules_more sheets.now step.now }
{
    match step {
        SheetStep::Stay => 0,
        SheetStep::Come { sheet, on, .. } => if *on { sheet.count() } else { 0 },
        SheetStep::Go { .. } => 0,
        SheetStep::Put { sheet, .. } => sheet.count(),
        SheetStep::Turn { place, .. } => waiting_count(&sheets[*place]),
    }
}

/// How many rules of a sheet wait until it takes part.
fn waiting_count(sheet: &KeptSheet) -> usize
    ensures { result ≡ (if sheet.now.enabled then 0 else sheet.now.count) }
{
    if sheet.is_enabled() { 0 } else { sheet.count() }
}
