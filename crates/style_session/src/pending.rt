//! What edits have left to do for the next restyle.

ghost use Rattle.std.specs.Prelude.{◌≡◌, ◌<◌, ◌||◌, ◌∷◌, ◌+◌, IfSome, OnOk, false, length, nat_le, nat_lt, true};
ghost use Rattle.std.specs.List.{list_any};
ghost use Rattle.std.specs.Option.{option_map_or};
ghost use Rattle.scene_model.specs.Ancestors.{ancestors};
ghost use Rattle.scene_model.specs.Lookups.{IsElement};
ghost use Rattle.scene_model.specs.Numbers.{is_in};
ghost use Rattle.change_model.specs.Sound.{is_below};
ghost use Rattle.edit_model.specs.Apply.{after};
ghost use Rattle.dom_edits.specs.PlannedView.{Fits, planned_seen};
ghost use Rattle.invalidation_map.specs.Marks.{AreAtElements};
ghost use Rattle.invalidation_map.specs.Members.{AreBelow};
ghost use Rattle.invalidation_map.specs.RowView.{rows_in};
ghost use Rattle.invalidation_map.specs.Steps.{HasRoom};
ghost use Rattle.style_session.specs.Edits.{TakesOut};
ghost use Rattle.style_session.specs.PendingView.{Freshens, MarksAlso, MarksTouched, all_pending, are_settled};
ghost use Rattle.style_session.specs.PendingView.{is_fresh_in, is_pending_in, none_pending, without_room};

use dom_edits::{Planned, Touched};
use dom_tree::Doc;
use invalidation_map::{EditSets, InvalidationMap};
use std::alloc::Global;
use std::marker::Model;
use stylo_base::NoMemory;

/// The elements that edits have marked and made fresh since the last restyle, and the numbers of those that they have
/// taken out. Contracts see each of the three in the order of adding, whether all elements are fresh, and the room:
/// numbers below it can be added.
#[derive(Drop)]
pub(crate) struct Pending {
    sets: EditSets,
    /// Whether there was no restyle yet, so that all elements are fresh. The set of the fresh is not filled then.
    all_fresh: bool,
}

impl Model for Pending {
    ghost use Rattle.style_session.specs.PendingView.{PendingMembers, pending_code};

    ghost Value = { PendingMembers };

    ghost coded = { pending_code };

    ghost view = { λ p. record {
      marked = p.sets.marked;
      all_fresh = p.all_fresh;
      fresh = p.sets.fresh;
      gone = p.sets.gone;
      room = p.sets.room;
    } };
}

impl Pending {
    /// All elements are fresh. It takes no memory, and has no room.
    pub(crate) fn start(alloc: Global) -> Pending
        ensures { result ≡ all_pending }
    {
        Pending {
            sets: EditSets::new(alloc),
            all_fresh: true,
        }
    }

    /// Makes room for the numbers up to `last`, where there is not yet. It adds nothing.
    pub(crate) fn reserve(&mut self, last: u32) -> Result<(), NoMemory>
        ensures room { OnOk result (last < self.new.room) }
        ensures others { without_room self.new ≡ without_room self.old }
    {
        self.sets.reserve(last)
    }

    /// Whether all elements are fresh, since there was no restyle yet.
    pub(crate) fn is_all_fresh(&self) -> bool
        ensures { result ≡ self.now.all_fresh }
    {
        self.all_fresh
    }

    /// Whether an element is fresh.
    fn is_fresh(&self, x: u32) -> bool
        ensures { result ≡ is_fresh_in self.now x }
    {
        self.all_fresh || self.sets.is_fresh(x)
    }

    /// Whether an element is marked or fresh.
    pub(crate) fn contains(&self, x: u32) -> bool
        ensures { result ≡ is_pending_in self.now x }
    {
        self.sets.is_marked(x) || self.is_fresh(x)
    }

    /// Whether nothing is marked or fresh.
    pub(crate) fn is_settled(&self) -> bool
        ensures { result ≡ are_settled self.now }
    {
        !self.all_fresh && self.sets.is_settled()
    }

    /// Whether so many numbers are marked and fresh, at least; one that is both counts twice.
    pub(crate) fn has_many(&self, count: usize) -> bool
        ensures { result ≡ nat_le count (length self.now.marked + length self.now.fresh) }
    {
        self.sets.marked().len() + self.sets.fresh().len() >= count
    }

    /// Whether this element is marked or fresh, or one above it. Where nothing is, it looks at no element.
    pub(crate) fn is_open(&self, doc: &Doc, x: u32) -> bool
        requires { IsElement doc.now.elements x }
        ensures { result ≡ list_any (is_pending_in self.now) (x ∷ ancestors doc.now.elements x) }
    {
        if self.is_settled() {
            return false;
        }
        self.contains_up(doc, x)
    }

    /// Whether this element is marked or fresh, or one above it.
    fn contains_up(&self, doc: &Doc, x: u32) -> bool
        requires { IsElement doc.now.elements x }
        ensures { result ≡ list_any (is_pending_in self.now) (x ∷ ancestors doc.now.elements x) }
    {
        let mut at = x;
        while !self.contains(at) {
            match doc.parent(at) {
                Some(parent) => at = parent,
                None => return false,
            }
        }
        true
    }

    /// The marked elements.
    pub(crate) fn marked(&self) -> &[u32]
        ensures { result.now ≡ self.now.marked }
    {
        self.sets.marked()
    }

    /// The fresh elements, once there was a restyle.
    pub(crate) fn fresh(&self) -> &[u32]
        ensures { result.now ≡ self.now.fresh }
    {
        self.sets.fresh()
    }

    /// The numbers of those that were taken out.
    pub(crate) fn gone(&self) -> &[u32]
        ensures { result.now ≡ self.now.gone }
    {
        self.sets.gone()
    }

    /// Adds the numbers of what an edit is to take out of the document, which is still there. It takes no memory.
    pub(crate) fn take_out(&mut self, doc: &Doc, planned: &Planned)
        requires fits { Fits doc.now planned.now }
        requires room { HasRoom doc.now.elements self.old.room }
        ensures { TakesOut doc.now (after doc.now (planned_seen planned.now)) self.old self.new }
    {
        if let Some(x) = planned.taken() {
            self.sets.add_gone_below(doc, x);
        }
    }

    /// Adds what an edit has made fresh: the numbers after `before`, up to `last`, and `moved` with all below it. The
    /// document is as it is after the edit. It takes no memory.
    pub(crate) fn freshen(&mut self, doc: &Doc, before: u32, last: u32, moved: Option<u32>)
        requires there { IfSome moved (IsElement doc.now.elements) }
        requires room { HasRoom doc.now.elements self.old.room }
        requires last { last < self.old.room }
        ensures { Freshens last
            (λ x. nat_lt before x || option_map_or (λ top. is_below doc.now.elements top x) moved false)
            self.old self.new }
    {
        if self.all_fresh {
            return;
        }
        self.sets.add_fresh_given(before, last);
        if let Some(x) = moved {
            self.sets.add_fresh_below(doc, x);
        }
    }

    /// Marks the elements that an edit marks. It takes no memory.
    pub(crate) fn mark(&mut self, doc: &Doc, touched: &Touched, map: &InvalidationMap)
        requires room { HasRoom doc.now.elements self.old.room }
        requires touched { AreAtElements doc.now.elements touched.now }
        ensures { MarksTouched doc.now.elements touched.now (rows_in map.now) self.old self.new }
    {
        self.sets.mark(doc, touched, map);
    }

    /// Marks elements.
    pub(crate) fn add_marked(&mut self, numbers: &[u32])
        requires { AreBelow self.old.room numbers.now }
        ensures { MarksAlso (λ x. is_in x numbers.now) self.old self.new }
    {
        self.sets.add_marked(numbers);
    }

    /// Nothing is gone any more, where nothing is marked or fresh. It takes no memory.
    pub(crate) fn clear_gone(&mut self)
        requires { are_settled self.old ≡ true }
        ensures { self.new ≡ none_pending self.old.room }
    {
        if !self.sets.gone().is_empty() {
            self.sets.clear();
        }
    }

    /// Nothing is marked, fresh or gone any more. It takes no memory.
    pub(crate) fn clear(&mut self)
        ensures { self.new ≡ none_pending self.old.room }
    {
        self.sets.clear();
        self.all_fresh = false;
    }
}
