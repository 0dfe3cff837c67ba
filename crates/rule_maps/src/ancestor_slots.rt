//! The slots of the first ancestor names of a selector.

ghost use Rattle.std.specs.Prelude.{◌≡◌, ◌<◌, ◌++◌, ◌∷◌, ℕ, List, [], map, take};
ghost use Rattle.ancestor_filter.specs.Names.{slot};
ghost use Rattle.ancestor_model.specs.Above.{ancestor_slots, looked_up, names_in, names_left as model_names_left, names_of_test};
ghost use Rattle.ancestor_model.specs.Counts.{slot_count};
ghost use Rattle.selector_types.specs.ComplexView.{compound_of, left_of, test_of};
ghost use Rattle.selector_types.specs.View.{selector_of};
ghost use Rattle.rule_maps.specs.SlotView.{AreFirst, slots_seen};

use crate::pair::{NO_SLOT, Slots};
use ancestor_filter::slot_of_key;
use selector_types::{Combinator, Compound, Left, Selector, Simple, Test};
use std::marker::Model;
use stylo_base::Atom;

/// The slots of the first four ancestor names of a selector.
pub(crate) fn slots_of(selector: &Selector) -> Slots
    ensures { slots_seen result ≡ ancestor_slots slot (selector_of selector.now) }
{
    let mut found = FoundSlots::new();
    let mut at = selector.complex();
    while let Some(left) = &at.left {
        found.push_left(left);
        at = &left.rest;
    }
    found.slots()
}

/// Slots that were found, in order. Of more than four the first four are kept.
#[derive(Drop)]
struct FoundSlots {
    list: [u16; 4],
    count: usize,
}

impl Model for FoundSlots {
    ghost use Rattle.std.specs.Prelude.{ℕ, List, take};
    ghost use Rattle.rule_maps.specs.SlotView.{AreFilled};

    ghost Value = { List ℕ };

    ghost view = { λ f. take f.count f.list };

    ghost invariant = { λ f. AreFilled f.list f.count };
}

impl FoundSlots {
    /// None.
    fn new() -> FoundSlots
        ensures { result ≡ [] }
    {
        FoundSlots {
            list: [NO_SLOT; 4],
            count: 0,
        }
    }

    /// They, with unused places after them.
    fn slots(&self) -> Slots
        ensures { slots_seen result ≡ self.now }
    {
        Slots { list: self.list }
    }

    /// Appends a slot.
    fn push(&mut self, slot: u16)
        requires { slot < slot_count }
        ensures { self.new ≡ take looked_up (self.old ++ slot ∷ []) }
    {
        if self.count < 4 {
            self.list[self.count] = slot;
            self.count += 1;
        }
    }

    /// Appends that of a name.
    fn push_name(&mut self, name: &Atom)
        ensures { (names : List ℕ) → AreFirst self.old names → AreFirst self.new (names ++ slot name.now ∷ []) }
    {
        self.push(slot_of_key(name.key()));
    }

    /// Appends those of the names on the left of a combinator, where that is an ancestor.
    fn push_left(&mut self, left: &Left)
        ensures { (names : List ℕ) → AreFirst self.old names → AreFirst self.new
            (names ++ map slot (model_names_left (left_of left.now).combinator (left_of left.now).rest)) }
    {
        match left.combinator {
            Combinator::Descendant | Combinator::Child => self.push_compound(&left.rest.subject),
            Combinator::NextSibling | Combinator::LaterSibling => {}
        }
    }

    /// Appends those of the names that a compound asks for, but those in nested lists.
    fn push_compound(&mut self, compound: &Compound)
        ensures { (names : List ℕ) → AreFirst self.old names
            → AreFirst self.new (names ++ map slot (names_in (compound_of compound.now))) }
    {
        for test in &compound.tests {
            self.push_test(test);
        }
    }

    /// Appends that of the name that a test asks for.
    fn push_test(&mut self, test: &Test)
        ensures { (names : List ℕ) → AreFirst self.old names
            → AreFirst self.new (names ++ map slot (names_of_test (test_of test.now))) }
    {
        match test {
            Test::Simple(Simple::Type(name))
            | Test::Simple(Simple::Id(name))
            | Test::Simple(Simple::Class(name)) => self.push_name(name),
            _ => {}
        }
    }
}
