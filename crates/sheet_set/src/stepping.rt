//! A step of an edit made, for which there is room. Nothing here takes memory.

ghost use Rattle.std.specs.Prelude.{◌≡◌, ◌≤◌, false, map};
ghost use Rattle.base_model.specs.Limits.{number_limit};
ghost use Rattle.sheet_set.specs.Kept.{kept_seen};
ghost use Rattle.sheet_set.specs.Planned.{at_place, in_place, put_over, stepped, stepped_last, turned_over};
ghost use Rattle.sheet_set.specs.Standing.{AreKept};
ghost use Rattle.sheet_set.specs.Room.{CanLeave, HasMore, HasRoom, waiting_at};

use crate::kept_sheet::RuleRoom;
use crate::moving::{come, leave};
use crate::sheet_step::SheetStep;
use crate::{KeptSheet, SheetRule};
use layer_order::Layers;
use selector_types::Selector;

/// Makes a step.
pub(crate) fn make(
    sheets: &mut Vec<KeptSheet>,
    last: &mut u32,
    rules: &mut Vec<SheetRule>,
    selectors: &mut Vec<Vec<Selector>>,
    ranks: &mut Vec<u32>,
    layers: &Layers,
    step: SheetStep,
)
    requires kept { AreKept sheets.old.items rules.old.items selectors.old.items layers.now ranks.old.items }
    requires room { HasRoom sheets.old rules.old selectors.old ranks.old step }
    requires last { stepped_last step last.old ≤ number_limit }
    ensures kept { AreKept sheets.new.items rules.new.items selectors.new.items layers.now ranks.new.items }
    ensures list { map kept_seen sheets.new.items ≡ stepped step (map kept_seen sheets.old.items) }
    ensures last { last.new ≡ stepped_last step last.old }
{
    match step {
        SheetStep::Stay => {}
        SheetStep::Come { place, sheet, on } => {
            come(sheets, rules, selectors, ranks, layers, place, sheet, on);
            *last += 1;
        }
        SheetStep::Go { place, room } => {
            let _gone = leave(sheets, rules, selectors, ranks, layers, place, room);
        }
        SheetStep::Put { place, sheet, room } => {
            replace(sheets, rules, selectors, ranks, layers, place, sheet, room);
        }
        SheetStep::Turn { place, room } => {
            turn(sheets, rules, selectors, ranks, layers, place, room);
        }
    }
}

/// Puts a disabled sheet in the place of another one, under whose switch it takes part or not.
fn replace(
    sheets: &mut Vec<KeptSheet>,
    rules: &mut Vec<SheetRule>,
    selectors: &mut Vec<Vec<Selector>>,
    ranks: &mut Vec<u32>,
    layers: &Layers,
    place: usize,
    sheet: KeptSheet,
    room: RuleRoom,
)
    requires kept { AreKept sheets.old.items rules.old.items selectors.old.items layers.now ranks.old.items }
    requires leaves { CanLeave sheets.old.items place room }
    requires off { sheet.enabled ≡ false }
    requires more { HasMore rules.old selectors.old ranks.old sheet.count }
    ensures kept { AreKept sheets.new.items rules.new.items selectors.new.items layers.now ranks.new.items }
    ensures list { map kept_seen sheets.new.items ≡ in_place place
        (map (put_over (kept_seen sheet)) (at_place place (map kept_seen sheets.old.items)))
        (map kept_seen sheets.old.items) }
{
    let on = sheets[place].is_enabled();
    let _old = leave(sheets, rules, selectors, ranks, layers, place, room);
    come(sheets, rules, selectors, ranks, layers, place, sheet, on);
}

/// Lets the sheet at a place take part if it did not, and the other way round.
fn turn(
    sheets: &mut Vec<KeptSheet>,
    rules: &mut Vec<SheetRule>,
    selectors: &mut Vec<Vec<Selector>>,
    ranks: &mut Vec<u32>,
    layers: &Layers,
    place: usize,
    room: RuleRoom,
)
    requires kept { AreKept sheets.old.items rules.old.items selectors.old.items layers.now ranks.old.items }
    requires leaves { CanLeave sheets.old.items place room }
    requires more { HasMore rules.old selectors.old ranks.old (waiting_at place sheets.old.items) }
    ensures kept { AreKept sheets.new.items rules.new.items selectors.new.items layers.now ranks.new.items }
    ensures list { map kept_seen sheets.new.items ≡ in_place place
        (map turned_over (at_place place (map kept_seen sheets.old.items))) (map kept_seen sheets.old.items) }
{
    let on = sheets[place].is_enabled();
    let sheet = leave(sheets, rules, selectors, ranks, layers, place, room);
    come(sheets, rules, selectors, ranks, layers, place, sheet, !on);
}
