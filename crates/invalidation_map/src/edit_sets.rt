//! The sets that edits fill: whom they mark, what they make fresh, and what they take out.

ghost use Rattle.std.specs.Prelude.{◌≡◌, ◌<◌, ◌==◌, ◌&&◌, [], OnErr, OnOk, length, nat_eq};
ghost use Rattle.std.specs.List.{IsDistinct};
ghost use Rattle.scene_model.specs.Lookups.{IsElement};
ghost use Rattle.scene_model.specs.Numbers.{is_in};
ghost use Rattle.change_model.specs.Sound.{is_below};
ghost use Rattle.invalidation_map.specs.EditMembers.{is_given, with_room};
ghost use Rattle.invalidation_map.specs.Marks.{AddsFresh, AddsGone, AddsMarked, AddsMarkedBy, AreAtElements, IsGrown};
ghost use Rattle.invalidation_map.specs.Members.{AreBelow};
ghost use Rattle.invalidation_map.specs.RowView.{rows_in};
ghost use Rattle.invalidation_map.specs.Steps.{HasRoom};

use crate::ElementSet;
use crate::invalidator::Invalidator;
use crate::rows::InvalidationMap;
use crate::steps::add_descendants;
use dom_edits::Touched;
use dom_tree::Doc;
use std::alloc::Global;
use std::marker::Model;
use stylo_base::NoMemory;

/// The elements that edits have marked, those that are fresh, and the numbers of those that are gone. Contracts see
/// each of the three in the order of adding, and the room: numbers below it can be added to each.
#[derive(Drop)]
pub struct EditSets {
    /// The elements whose matching edits may have changed, and those whose own style they changed.
    pub(crate) marked: ElementSet,
    /// The elements that came or moved.
    fresh: ElementSet,
    /// The numbers of elements that were removed.
    gone: ElementSet,
    /// The elements from which the next step of a path leads. Between two calls nobody asks what is in it.
    pub(crate) from: ElementSet,
    /// Those to which it leads.
    pub(crate) next: ElementSet,
    /// Each set has this at least: where memory ends while they grow, some have more.
    room: usize,
}

impl Model for EditSets {
    ghost use Rattle.invalidation_map.specs.EditMembers.{AllHaveRoom, EditMembers, edit_members_code};

    ghost Value = { EditMembers };

    ghost coded = { edit_members_code };

    ghost view = { λ s. record {
      marked = s.marked.items;
      fresh = s.fresh.items;
      gone = s.gone.items;
      room = s.room;
    } };

    ghost invariant = { λ s. AllHaveRoom s.room s.marked s.fresh s.gone s.from s.next };
}

impl EditSets {
    /// Empty sets, which take no memory and have no room.
    pub fn new(alloc: Global) -> EditSets
        ensures { result ≡ record { marked = []; fresh = []; gone = []; room = 0 } }
    {
        EditSets {
            marked: ElementSet::empty(alloc),
            fresh: ElementSet::empty(alloc),
            gone: ElementSet::empty(alloc),
            from: ElementSet::empty(alloc),
            next: ElementSet::empty(alloc),
            room: 0,
        }
    }

    /// Makes room for the numbers up to `last`, where there is not yet. It adds nothing. After an error all is as it
    /// was.
    pub fn reserve(&mut self, last: u32) -> Result<(), NoMemory>
        ensures ok { OnOk result (self.new ≡ with_room last self.old) }
        ensures kept { OnErr result (self.new ≡ self.old) }
    {
        let room = last as usize + 1;
        if room <= self.room {
            return Ok(());
        }
        self.marked.reserve(last)?;
        self.fresh.reserve(last)?;
        self.gone.reserve(last)?;
        self.from.reserve(last)?;
        self.next.reserve(last)?;
        self.room = room;
        Ok(())
    }

    /// Whether `x` is marked.
    pub fn is_marked(&self, x: u32) -> bool
        ensures { result ≡ is_in x self.now.marked }
    {
        self.marked.contains(x)
    }

    /// Whether `x` is fresh.
    pub fn is_fresh(&self, x: u32) -> bool
        ensures { result ≡ is_in x self.now.fresh }
    {
        self.fresh.contains(x)
    }

    /// Whether nothing is marked or fresh.
    pub fn is_settled(&self) -> bool
        ensures { result ≡ ((length self.now.fresh == 0) && (length self.now.marked == 0)) }
    {
        self.fresh.is_empty() && self.marked.is_empty()
    }

    /// The marked elements.
    pub fn marked(&self) -> &[u32]
        ensures items { result.now ≡ self.now.marked }
        ensures once { IsDistinct nat_eq result.now }
    {
        self.marked.as_slice()
    }

    /// The fresh elements.
    pub fn fresh(&self) -> &[u32]
        ensures items { result.now ≡ self.now.fresh }
        ensures once { IsDistinct nat_eq result.now }
    {
        self.fresh.as_slice()
    }

    /// The numbers of those that are gone.
    pub fn gone(&self) -> &[u32]
        ensures items { result.now ≡ self.now.gone }
        ensures once { IsDistinct nat_eq result.now }
    {
        self.gone.as_slice()
    }

    /// Marks elements.
    pub fn add_marked(&mut self, numbers: &[u32])
        requires { AreBelow self.old.room numbers.now }
        ensures { AddsMarked (λ x. is_in x numbers.now) self.old self.new }
    {
        self.marked.add_all(numbers);
    }

    /// Makes the numbers after `before`, up to `last`, fresh.
    pub fn add_fresh_given(&mut self, before: u32, last: u32)
        requires { last < self.old.room }
        ensures { AddsFresh (is_given before last) self.old self.new }
    {
        add_given(before, last, &mut self.fresh);
    }

    /// Makes an element and all below it fresh. It takes no memory.
    pub fn add_fresh_below(&mut self, doc: &Doc, x: u32)
        requires element { IsElement doc.now.elements x }
        requires room { HasRoom doc.now.elements self.old.room }
        ensures { AddsFresh (is_below doc.now.elements x) self.old self.new }
    {
        add_below(doc, x, &mut self.next, &mut self.fresh);
    }

    /// Adds the numbers of an element and of all below it, which are to be taken out, to the gone. It takes no memory.
    pub fn add_gone_below(&mut self, doc: &Doc, x: u32)
        requires element { IsElement doc.now.elements x }
        requires room { HasRoom doc.now.elements self.old.room }
        ensures { AddsGone (is_below doc.now.elements x) self.old self.new }
    {
        add_below(doc, x, &mut self.next, &mut self.gone);
    }

    /// Marks the elements that an edit marks. It takes no memory, and looks at no document before the edit.
    pub fn mark(&mut self, doc: &Doc, touched: &Touched, map: &InvalidationMap)
        requires room { HasRoom doc.now.elements self.old.room }
        requires touched { AreAtElements doc.now.elements touched.now }
        ensures { AddsMarkedBy doc.now.elements touched.now (rows_in map.now) self.old self.new }
    {
        let invalidator = Invalidator { doc, touched, map };
        invalidator.mark(self);
    }

    /// Nothing is marked, fresh or gone any more.
    pub fn clear(&mut self)
        ensures { self.new ≡ record { marked = []; fresh = []; gone = []; room = self.old.room } }
    {
        self.marked.clear();
        self.fresh.clear();
        self.gone.clear();
    }
}

/// Adds the numbers after `before`, up to `last`.
fn add_given(before: u32, last: u32, into: &mut ElementSet)
    requires { last < into.old.room }
    ensures { IsGrown (is_given before last) into.old into.new }
{
    for number in before..last {
        into.add(number + 1);
    }
}

/// Adds an element and all below it. What is in `next` goes.
fn add_below(doc: &Doc, x: u32, next: &mut ElementSet, into: &mut ElementSet)
    requires element { IsElement doc.now.elements x }
    requires room { HasRoom doc.now.elements next.old.room }
    requires into { HasRoom doc.now.elements into.old.room }
    ensures below { IsGrown (is_below doc.now.elements x) into.old into.new }
    ensures room { next.new.room ≡ next.old.room }
{
    next.clear();
    add_descendants(doc, &[x], next);
    into.add(x);
    into.add_all(next.as_slice());
}
