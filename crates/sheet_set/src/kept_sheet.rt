//! A sheet as it is kept.

ghost use Rattle.std.specs.Prelude.{◌≡◌, ◌≤◌, ◌+◌, ◌++◌, if◌then◌else◌, true, false, IfOk, drop, length, take, vec_capacity, vec_len};
ghost use Rattle.layer_order.specs.View.{declarations, origin_of};
ghost use Rattle.sheet_model.specs.Sources.{sheet_layers};
ghost use Rattle.sheet_set.specs.Rules.{AreSame, count_in, rules_at, rules_with, sheet_made, sheet_read, waiting};

use crate::list_parts::{move_part, put_part};
use crate::rule_collector::RuleCollector;
use crate::{SheetInput, SheetRule};
use css_rules::SheetEdition;
use layer_order::{LayerName, Origin};
use selector_types::Selector;
use std::alloc::Global;
use stylo_base::{NoMemory, Text};

/// A style sheet with its number and text, and the layers that its text declares. The rules of an enabled one are
/// among those of all sheets; a disabled one has its own, which wait until they take part.
#[derive(Drop)]
pub struct KeptSheet {
    number: u32,
    origin: Origin,
    enabled: bool,
    text: Text,
    /// How often its text was replaced.
    edition: u32,
    layers: Vec<(Origin, LayerName)>,
    /// How many rules its text has.
    count: usize,
    rules: Vec<SheetRule>,
    selectors: Vec<Vec<Selector>>,
    ghost paired: { vec_len rules ≡ vec_len selectors },
    ghost held: { vec_len rules ≡ (if enabled then 0 else count) },
    ghost own: { AreSame (rules_with rules.items selectors.items)
        (waiting (sheet_made number origin enabled text edition)) },
    ghost declared: { declarations layers.items ≡ sheet_layers (sheet_made number origin enabled text edition) },
    ghost counted: { count ≡ count_in (sheet_made number origin enabled text edition) },
}

impl KeptSheet {
    ghost use Rattle.edit_model.specs.SheetApply.{with_enabled};
    ghost use Rattle.sheet_set.specs.Kept.{kept_seen, own_kept};

    /// A sheet under a number and an edition, with the rules and layers of its text. It is not enabled yet, whatever
    /// is said of it.
    pub(crate) fn read(
        alloc: Global,
        at: SheetEdition,
        sheet: SheetInput,
    ) -> Result<KeptSheet, NoMemory>
        ensures { IfOk result (λ kept. kept_seen kept ≡ sheet_read at sheet) }
    {
        let mut read = RuleCollector::new(alloc);
        read.add_sheet(alloc, at, &sheet)?;
        let RuleCollector {
            rules,
            selectors,
            layers,
        } = read;
        Ok(KeptSheet {
            number: at.sheet,
            origin: sheet.origin,
            enabled: false,
            text: sheet.text,
            edition: at.edition,
            layers,
            count: rules.len(),
            rules,
            selectors,
        })
    }

    /// Lets it take part: its rules go among those of all sheets, at an index. There is room.
    pub(crate) fn bring_in(
        &mut self,
        rules: &mut Vec<SheetRule>,
        selectors: &mut Vec<Vec<Selector>>,
        at: usize,
    )
        requires off { self.old.enabled ≡ false }
        requires within { at ≤ length rules.old.items }
        requires paired { vec_len rules.old ≡ vec_len selectors.old }
        requires room { vec_len rules.old + self.old.count ≤ vec_capacity rules.old }
        requires selectors_room { vec_len rules.old + self.old.count ≤ vec_capacity selectors.old }
        ensures sheet { kept_seen self.new ≡ with_enabled true (kept_seen self.old) }
        ensures rules { rules_with rules.new.items selectors.new.items
            ≡ take at (rules_with rules.old.items selectors.old.items) ++ (own_kept self.old
            ++ drop at (rules_with rules.old.items selectors.old.items)) }
        ensures paired { vec_len rules.new ≡ vec_len selectors.new }
        ensures count { self.new.count ≡ self.old.count }
    {
        put_part(rules, at, &mut self.rules);
        put_part(selectors, at, &mut self.selectors);
        self.enabled = true;
    }

    /// Keeps it from taking part: its rules, which stand at an index among those of all sheets, become its own again.
    /// `room` is where they go.
    pub(crate) fn take_out(
        &mut self,
        rules: &mut Vec<SheetRule>,
        selectors: &mut Vec<Vec<Selector>>,
        at: usize,
        room: RuleRoom,
    )
        requires on { self.old.enabled ≡ true }
        requires within { at + self.old.count ≤ length rules.old.items }
        requires paired { vec_len rules.old ≡ vec_len selectors.old }
        requires its { AreSame (take self.old.count (drop at (rules_with rules.old.items selectors.old.items)))
            (rules_at 0 (kept_seen self.old)) }
        requires room { self.old.count ≤ vec_capacity room.rules }
        requires selectors_room { self.old.count ≤ vec_capacity room.selectors }
        ensures sheet { kept_seen self.new ≡ with_enabled false (kept_seen self.old) }
        ensures rules { rules_with rules.new.items selectors.new.items
            ≡ take at (rules_with rules.old.items selectors.old.items)
            ++ drop self.old.count (drop at (rules_with rules.old.items selectors.old.items)) }
        ensures paired { vec_len rules.new ≡ vec_len selectors.new }
        ensures count { self.new.count ≡ self.old.count }
        ensures capacity { vec_capacity rules.new ≡ vec_capacity rules.old }
        ensures selectors_capacity { vec_capacity selectors.new ≡ vec_capacity selectors.old }
    {
        let RuleRoom {
            rules: mut its_rules,
            selectors: mut its_selectors,
        } = room;
        move_part(rules, at, self.count, &mut its_rules);
        move_part(selectors, at, self.count, &mut its_selectors);
        self.rules = its_rules;
        self.selectors = its_selectors;
        self.enabled = false;
    }

    /// Its number.
    pub fn number(&self) -> u32
        ensures { result ≡ (kept_seen self.now).number }
    {
        self.number
    }

    /// Where it comes from.
    pub fn origin(&self) -> Origin
        ensures { origin_of result ≡ (kept_seen self.now).origin }
    {
        self.origin
    }

    /// Whether it takes part.
    pub fn is_enabled(&self) -> bool
        ensures { result ≡ (kept_seen self.now).enabled }
    {
        self.enabled
    }

    /// Its text, as it is before it is preprocessed.
    pub fn text(&self) -> &Text
        ensures { result.now ≡ (kept_seen self.now).text }
    {
        &self.text
    }

    /// The rules that wait until it takes part.
    pub(crate) fn own_rules(&self) -> &[SheetRule]
        ensures { result.now ≡ self.now.rules.items }
    {
        &self.rules
    }

    /// Their selectors.
    pub(crate) fn own_selectors(&self) -> &[Vec<Selector>]
        ensures { result.now ≡ self.now.selectors.items }
    {
        &self.selectors
    }

    /// How often its text was replaced.
    pub(crate) fn edition(&self) -> u32
        ensures { result ≡ (kept_seen self.now).edition }
    {
        self.edition
    }

    /// The layers that its text declares, each with the sheet's origin.
    pub(crate) fn layers(&self) -> &[(Origin, LayerName)]
        ensures { declarations result.now ≡ sheet_layers (kept_seen self.now) }
    {
        &self.layers
    }

    /// How many rules its text has.
    pub(crate) fn count(&self) -> usize
        ensures { result ≡ count_in (kept_seen self.now) }
    {
        self.count
    }
}

/// Room for the rules of a sheet that will no longer take part: lists with nothing in them.
#[derive(Drop)]
pub(crate) struct RuleRoom {
    pub rules: Vec<SheetRule>,
    pub selectors: Vec<Vec<Selector>>,
    ghost empty: { vec_len rules ≡ 0 },
    ghost none: { vec_len selectors ≡ 0 },
}

impl RuleRoom {
    /// Room for so many.
    pub fn of(alloc: Global, count: usize) -> Result<RuleRoom, NoMemory>
        ensures rules { IfOk result (λ room. count ≤ vec_capacity room.rules) }
        ensures selectors { IfOk result (λ room. count ≤ vec_capacity room.selectors) }
    {
        Ok(RuleRoom {
            rules: Vec::with_capacity(alloc, count)?,
            selectors: Vec::with_capacity(alloc, count)?,
        })
    }
}
