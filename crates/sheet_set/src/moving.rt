//! Sheets that leave the list of all or come into it, with their rules. Nothing here takes memory.

ghost use Rattle.std.specs.Prelude.{◌≡◌, ◌≤◌, ◌<◌, ◌+◌, ◌++◌, ◌∷◌, ◌^◌, [], if◌then◌else◌, false, drop, length, map, take, vec_capacity, vec_len};
ghost use Rattle.edit_model.specs.SheetApply.{with_enabled};
ghost use Rattle.sheet_set.specs.Kept.{kept_seen, taking};
ghost use Rattle.sheet_set.specs.Ranks.{rank_seen};
ghost use Rattle.sheet_set.specs.Standing.{AreKept, count_at};

use crate::kept_sheet::RuleRoom;
use crate::list_parts::drop_part;
use crate::{KeptSheet, SheetRule};
use layer_order::Layers;
use selector_types::Selector;

/// How many rules of these sheets take part.
pub(crate) fn taking_count(sheets: &[KeptSheet]) -> usize
    requires { length (taking sheets.now) < 2 ^ 64 }
    ensures { result ≡ length (taking sheets.now) }
{
    let mut count = 0;
    for sheet in sheets {
        if sheet.is_enabled() {
            count += sheet.count();
        }
    }
    count
}

/// Takes the sheet at a place out of the list. If it is enabled, its rules leave those of all, and it is disabled then:
/// `room` is where they go.
pub(crate) fn leave(
    sheets: &mut Vec<KeptSheet>,
    rules: &mut Vec<SheetRule>,
    selectors: &mut Vec<Vec<Selector>>,
    ranks: &mut Vec<u32>,
    _layers: &Layers,
    place: usize,
    room: RuleRoom,
) -> KeptSheet
    requires kept { AreKept sheets.old.items rules.old.items selectors.old.items _layers.now ranks.old.items }
    requires within { place < length sheets.old.items }
    requires room { count_at place sheets.old.items ≤ vec_capacity room.rules }
    requires selectors_room { count_at place sheets.old.items ≤ vec_capacity room.selectors }
    ensures kept { AreKept sheets.new.items rules.new.items selectors.new.items _layers.now ranks.new.items }
    ensures list { sheets.new.items ≡ take place sheets.old.items ++ drop (place + 1) sheets.old.items }
    ensures it { kept_seen result ∷ []
        ≡ map (with_enabled false) (map kept_seen (take 1 (drop place sheets.old.items))) }
    ensures count { result.count ≡ count_at place sheets.old.items }
    ensures sheets_capacity { vec_capacity sheets.new ≡ vec_capacity sheets.old }
    ensures capacity { vec_capacity rules.new ≡ vec_capacity rules.old }
    ensures selectors_capacity { vec_capacity selectors.new ≡ vec_capacity selectors.old }
    ensures ranks_capacity { vec_capacity ranks.new ≡ vec_capacity ranks.old }
    ensures fewer { vec_len rules.new ≤ vec_len rules.old }
{
    let at = taking_count(&sheets[..place]);
    let mut sheet = sheets.remove(place);
    if sheet.is_enabled() {
        sheet.take_out(rules, selectors, at, room);
        drop_part(ranks, at, sheet.count());
    }
    sheet
}

/// Puts a disabled sheet into the list at a place, and lets it take part if that is asked for. There is room.
pub(crate) fn come(
    sheets: &mut Vec<KeptSheet>,
    rules: &mut Vec<SheetRule>,
    selectors: &mut Vec<Vec<Selector>>,
    ranks: &mut Vec<u32>,
    layers: &Layers,
    place: usize,
    sheet: KeptSheet,
    on: bool,
)
    requires kept { AreKept sheets.old.items rules.old.items selectors.old.items layers.now ranks.old.items }
    requires within { place ≤ length sheets.old.items }
    requires off { sheet.enabled ≡ false }
    requires sheets_room { vec_len sheets.old < vec_capacity sheets.old }
    requires room { vec_len rules.old + (if on then sheet.count else 0) ≤ vec_capacity rules.old }
    requires selectors_room { vec_len rules.old + (if on then sheet.count else 0) ≤ vec_capacity selectors.old }
    requires ranks_room { vec_len rules.old + (if on then sheet.count else 0) ≤ vec_capacity ranks.old }
    ensures kept { AreKept sheets.new.items rules.new.items selectors.new.items layers.now ranks.new.items }
    ensures list { map kept_seen sheets.new.items ≡ take place (map kept_seen sheets.old.items)
        ++ with_enabled on (kept_seen sheet) ∷ drop place (map kept_seen sheets.old.items) }
{
    let at = taking_count(&sheets[..place]);
    let mut sheet = sheet;
    if on {
        put_ranks(ranks, layers, sheet.own_rules(), at);
        sheet.bring_in(rules, selectors, at);
    }
    let _done = sheets.insert(place, sheet);
}

/// Puts the ranks of rules among those of others, at an index. There is room.
fn put_ranks(ranks: &mut Vec<u32>, layers: &Layers, rules: &[SheetRule], at: usize)
    requires within { at ≤ length ranks.old.items }
    requires room { vec_len ranks.old + length rules.now ≤ vec_capacity ranks.old }
    ensures { ranks.new.items ≡ take at ranks.old.items
        ++ (map (rank_seen layers.now) rules.now ++ drop at ranks.old.items) }
{
    for rule in rules {
        ranks.push_reserved(layers.rank(rule.origin(), rule.layer()));
    }
    ranks[at..].rotate_right(rules.len());
}
