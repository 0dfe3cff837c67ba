//! The filter: counters of the names of elements.

ghost use Rattle.std.specs.Prelude.{◌≡◌, ◌%◌, ◌<◌, ◌∷◌, ℕ, List, [], IfOk, false, length, nat_lt, replicate};
ghost use Rattle.std.specs.List.{list_any};
ghost use Rattle.std.specs.Str.{chars};
ghost use Rattle.scene_model.specs.Lookups.{IsElement};
ghost use Rattle.scene_model.specs.Document.{Document};
ghost use Rattle.ancestor_model.specs.Above.{has_name};
ghost use Rattle.ancestor_model.specs.Counts.{slot_count, full, counter_at, raised, lowered, all_at, at_each};
ghost use Rattle.ancestor_filter.specs.Names.{CountsNothing, StandsFor, names_of, slot, texts};

use crate::slot_of_key;
use dom_tree::{Doc, ElementNames};
use std::alloc::Global;
use std::marker::Model;
use stylo_base::{NoMemory, key_of_text};

/// Counters of the names of elements, one for each slot. One that comes to 255 stays there. Contracts see their list.
#[derive(Drop)]
pub struct Filter {
    counters: Vec<u8>,
}

impl Model for Filter {
    ghost use Rattle.std.specs.Prelude.{◌≡◌, ℕ, List, length};
    ghost use Rattle.ancestor_model.specs.Counts.{slot_count};

    ghost Value = { List ℕ };

    ghost view = { λ f. f.counters.items };

    ghost invariant = { λ f. length f.counters.items ≡ slot_count };
}

impl Filter {
    /// A filter of no elements. The only error is that memory ran out.
    pub fn start(alloc: Global) -> Result<Filter, NoMemory>
        ensures counters { IfOk result (λ f. f ≡ all_at 0) }
        ensures stands { IfOk result CountsNothing }
    {
        Ok(Filter {
            counters: vec![in alloc; 0; 4_096]?,
        })
    }

    /// Adds an element.
    pub fn push(&mut self, doc: &Doc, x: u32)
        requires { IsElement doc.now.elements x }
        ensures counters { self.new ≡ at_each slot raised (names_of doc.now.elements x) self.old }
        ensures stands { (l : List ℕ) → StandsFor doc.now.elements l self.old
            → StandsFor doc.now.elements (x ∷ l) self.new }
    {
        self.raise_each(&doc.names(x));
    }

    /// Takes away the element that was added last.
    pub fn pop(&mut self, doc: &Doc, x: u32)
        requires { IsElement doc.now.elements x }
        ensures counters { self.new ≡ at_each slot lowered (names_of doc.now.elements x) self.old }
        ensures stands { (l : List ℕ) → StandsFor doc.now.elements (x ∷ l) self.old
            → StandsFor doc.now.elements l self.new }
    {
        self.lower_each(&doc.names(x));
    }

    /// Whether one of the elements may have this name. No: its counter is 0, and so none of them has it.
    pub fn may_have(&self, name: &str) -> bool
        ensures counter { result ≡ nat_lt 0 (counter_at self.now (slot (chars name.now))) }
        ensures none { (doc : Document) (l : List ℕ) → StandsFor doc.elements l self.now → result ≡ false
            → list_any (has_name doc.elements (chars name.now)) l ≡ false }
    {
        self.may_have_slot(slot_of_key(key_of_text(name)))
    }

    /// Whether one of the elements may have a name of this slot. No: its counter is 0.
    #[inline]
    pub fn may_have_slot(&self, slot: u16) -> bool
        requires { slot < slot_count }
        ensures { result ≡ nat_lt 0 (counter_at self.now slot) }
    {
        self.counter(slot) > 0
    }

    /// The counter of a slot: how many names of the elements have that slot, or 255, which may stand for any number.
    #[inline]
    pub fn counter(&self, slot: u16) -> u8
        requires { slot < slot_count }
        ensures { result ≡ counter_at self.now slot }
    {
        self.counters[slot as usize]
    }

    /// All counters at 255: the filter stands for any elements.
    pub fn saturate(&mut self)
        ensures counters { self.new ≡ all_at full }
        ensures stands { (doc : Document) (l : List ℕ) → StandsFor doc.elements l self.new }
    {
        fill(&mut self.counters, 255);
    }

    /// All counters at 0: the filter stands for no elements.
    pub fn clear(&mut self)
        ensures counters { self.new ≡ all_at 0 }
        ensures stands { CountsNothing self.new }
    {
        fill(&mut self.counters, 0);
    }

    /// One name more of the slot of a key.
    #[inline]
    fn raise(&mut self, key: u64)
        ensures { self.new ≡ raised (key % slot_count) self.old }
    {
        let slot = slot_of_key(key) as usize;
        let count = self.counters[slot];
        if count < 255 {
            self.counters[slot] = count + 1;
        }
    }

    /// One name less of the slot of a key.
    #[inline]
    fn lower(&mut self, key: u64)
        ensures { self.new ≡ lowered (key % slot_count) self.old }
    {
        let slot = slot_of_key(key) as usize;
        let count = self.counters[slot];
        if 0 < count && count < 255 {
            self.counters[slot] = count - 1;
        }
    }

    /// One more of each of these names.
    #[inline]
    fn raise_each(&mut self, names: &ElementNames<'_>)
        ensures { self.new ≡ at_each slot raised (texts names.now) self.old }
    {
        for index in 0..names.len() {
            self.raise(names.key(index));
        }
    }

    /// One less of each of these names.
    #[inline]
    fn lower_each(&mut self, names: &ElementNames<'_>)
        ensures { self.new ≡ at_each slot lowered (texts names.now) self.old }
    {
        for index in 0..names.len() {
            self.lower(names.key(index));
        }
    }
}

/// Sets all counters to one number.
fn fill(counters: &mut Vec<u8>, value: u8)
    ensures { counters.new.items ≡ replicate (length counters.old.items) value }
{
    counters.as_mut_slice().fill(value)
}
