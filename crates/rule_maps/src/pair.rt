//! A selector of a rule, by numbers.

ghost use Rattle.std.specs.Prelude.{◌≡◌};
ghost use Rattle.ancestor_model.specs.Above.{all_counted};
ghost use Rattle.rule_maps.specs.SlotView.{slots_seen};

use ancestor_filter::Filter;

/// So many slots there are. A place of a list of slots from here on says that it and those after it are unused.
pub(crate) const SLOT_COUNT: u16 = 4_096;

/// An unused place in a list of slots.
pub(crate) const NO_SLOT: u16 = u16::MAX;

/// The slots of the first four ancestor names of a selector. A selector with fewer names has unused places after them.
#[derive(Clone, Copy)]
pub(crate) struct Slots {
    pub(crate) list: [u16; 4],
}

/// A selector of a rule, by the numbers of the rule and of itself in it, from 0.
#[derive(Clone, Copy)]
pub struct Pair {
    pub rule: u32,
    pub selector: u32,
    pub(crate) slots: Slots,
}

impl Pair {
    /// Whether the filter of the ancestors of an element lets the selector be tried there. No: one of the selector's
    /// ancestor names is that of no ancestor, and so it does not hold.
    #[inline]
    pub fn passes(&self, filter: &Filter) -> bool
        ensures { result ≡ all_counted filter.now (slots_seen self.now.slots) }
    {
        for slot in &self.slots.list {
            if *slot >= SLOT_COUNT {
                return true;
            }
            if !filter.may_have_slot(*slot) {
                return false;
            }
        }
        true
    }
}
