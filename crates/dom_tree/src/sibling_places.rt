//! Where each element is among its siblings, and among those of its type.

ghost use Rattle.std.specs.Prelude.{◌≡◌, ◌++◌, ◌+◌, ◌<◌, ◌≤◌, ◌^◌, ℕ, [], IfOk, false, length, replicate, true, vec_capacity, vec_len};
ghost use Rattle.base_model.specs.Limits.{element_limit, number_limit};
ghost use Rattle.scene_model.specs.Lookups.{IsElement, place_of, place_of_type};
ghost use Rattle.scene_model.specs.Nodes.{IsNodeList, listed, scene_of};
ghost use Rattle.stylo_base.specs.NameList.{StandOnce};
ghost use Rattle.dom_tree.specs.ChildLists.{AreChildren, AreParts, lists_of};
ghost use Rattle.dom_tree.specs.SiblingPlaces.{AreAllSiblings, ArePlaces, AreSiblings, AreWritten, AreZeros, HasTagBelow, IsTally, Settles, index_among, type_place};

use crate::child_lists::ChildLists;
use crate::node_columns::NodeColumns;
use std::alloc::Global;
use stylo_base::NoMemory;

/// By number, from 1: how many siblings are before each element, how many of its type are before it, and how
/// many of its type are after it.
#[derive(Drop)]
pub(crate) struct SiblingPlaces {
    pub index: Vec<u32>,
    pub before: Vec<u32>,
    pub after: Vec<u32>,
    /// By name, up to the last one that is an element's tag: a count, which is zero between calls.
    pub tally: Vec<u32>,
}

impl SiblingPlaces {
    /// The places of the nodes of a list, which have these children.
    pub fn of_nodes(
        alloc: Global,
        columns: &NodeColumns,
        children: &ChildLists,
    ) -> Result<SiblingPlaces, NoMemory>
        requires few { length columns.now.nodes ≤ element_limit }
        requires shape { IsNodeList columns.now.nodes }
        requires parts { AreParts children.now.flat.items children.now.spans.items }
        requires children { AreChildren (length columns.now.nodes) (listed columns.now.nodes)
            (lists_of children.now.flat.items children.now.spans.items) }
        ensures index { IfOk result (λ places. ArePlaces (length columns.now.nodes) (scene_of columns.now.nodes)
            (place_of (scene_of columns.now.nodes)) places.index.items) }
        ensures before { IfOk result (λ places. ArePlaces (length columns.now.nodes) (scene_of columns.now.nodes)
            (place_of_type (scene_of columns.now.nodes) false) places.before.items) }
        ensures after { IfOk result (λ places. ArePlaces (length columns.now.nodes) (scene_of columns.now.nodes)
            (place_of_type (scene_of columns.now.nodes) true) places.after.items) }
        ensures tally { IfOk result (λ places. AreZeros columns.now.names places.tally.items) }
        ensures tags { IfOk result (λ places. (x : ℕ) → IsElement (scene_of columns.now.nodes) x
            → HasTagBelow (scene_of columns.now.nodes) columns.now.names (length places.tally.items) x) }
    {
        let count = columns.len();
        let mut places = SiblingPlaces {
            index: vec![in alloc; 0; count]?,
            before: vec![in alloc; 0; count]?,
            after: vec![in alloc; 0; count]?,
            tally: vec![in alloc; 0; columns.name_count()]?,
        };
        places.settle_all(columns, children, 0, count);
        Ok(places)
    }

    /// The same places again.
    pub fn copy(&self, alloc: Global) -> Result<SiblingPlaces, NoMemory>
        ensures index { IfOk result (λ places. places.index.items ≡ self.now.index.items) }
        ensures before { IfOk result (λ places. places.before.items ≡ self.now.before.items) }
        ensures after { IfOk result (λ places. places.after.items ≡ self.now.after.items) }
        ensures tally { IfOk result (λ places. places.tally.items ≡ self.now.tally.items) }
    {
        Ok(SiblingPlaces {
            index: Vec::from_slice(alloc, &self.index)?,
            before: Vec::from_slice(alloc, &self.before)?,
            after: Vec::from_slice(alloc, &self.after)?,
            tally: Vec::from_slice(alloc, &self.tally)?,
        })
    }

    /// Gives so many more elements places, which are written later. There is room.
    pub fn lengthen(&mut self, size: usize)
        requires index { vec_len self.old.index + size ≤ vec_capacity self.old.index }
        requires before { vec_len self.old.before + size ≤ vec_capacity self.old.before }
        requires after { vec_len self.old.after + size ≤ vec_capacity self.old.after }
        ensures index { self.new.index.items ≡ self.old.index.items ++ replicate size 0 }
        ensures before { self.new.before.items ≡ self.old.before.items ++ replicate size 0 }
        ensures after { self.new.after.items ≡ self.old.after.items ++ replicate size 0 }
        ensures tally { self.new.tally.items ≡ self.old.tally.items }
    {
        append_zeros(&mut self.index, size);
        append_zeros(&mut self.before, size);
        append_zeros(&mut self.after, size);
    }

    /// Writes the places of the children of each number after `from`, up to `to`.
    pub fn settle_all(
        &mut self,
        columns: &NodeColumns,
        children: &ChildLists,
        from: usize,
        to: usize,
    )
        requires once { StandOnce columns.now.names }
        requires parts { AreParts children.now.flat.items children.now.spans.items }
        requires order { from ≤ to }
        requires few { to ≤ number_limit }
        requires listed { to ≤ length children.now.spans.items }
        requires siblings { AreAllSiblings columns.now (length self.old.tally.items) from to
            (lists_of children.now.flat.items children.now.spans.items) }
        requires tally { AreZeros columns.now.names self.old.tally.items }
        requires room_index { length columns.now.nodes ≤ length self.old.index.items }
        requires room_before { length columns.now.nodes ≤ length self.old.before.items }
        requires room_after { length columns.now.nodes ≤ length self.old.after.items }
        ensures tally { AreZeros columns.now.names self.new.tally.items }
        ensures room { length self.new.tally.items ≡ length self.old.tally.items }
        ensures index { Settles columns.now from to (lists_of children.now.flat.items children.now.spans.items)
            place_of self.old.index.items self.new.index.items }
        ensures before { Settles columns.now from to (lists_of children.now.flat.items children.now.spans.items)
            (λ doc. place_of_type doc false) self.old.before.items self.new.before.items }
        ensures after { Settles columns.now from to (lists_of children.now.flat.items children.now.spans.items)
            (λ doc. place_of_type doc true) self.old.after.items self.new.after.items }
    {
        for index in from..to {
            self.settle(columns, children.of(index as u32 + 1));
        }
    }

    /// Writes the places of siblings, which are all the children of an element. Their list is gone through
    /// twice: upwards each finds those before it, and then, as they are counted down again, those after it.
    pub fn settle(&mut self, columns: &NodeColumns, siblings: &[u32])
        requires once { StandOnce columns.now.names }
        requires siblings { AreSiblings (length columns.now.nodes) (listed columns.now.nodes) columns.now.names
            (length self.old.tally.items) siblings.now }
        requires few { length siblings.now < 2 ^ 32 }
        requires tally { AreZeros columns.now.names self.old.tally.items }
        requires room_index { length columns.now.nodes ≤ length self.old.index.items }
        requires room_before { length columns.now.nodes ≤ length self.old.before.items }
        requires room_after { length columns.now.nodes ≤ length self.old.after.items }
        ensures tally { AreZeros columns.now.names self.new.tally.items }
        ensures room { length self.new.tally.items ≡ length self.old.tally.items }
        ensures index { AreWritten (index_among siblings.now) siblings.now self.old.index.items self.new.index.items }
        ensures before { AreWritten (type_place (listed columns.now.nodes) false siblings.now) siblings.now
            self.old.before.items self.new.before.items }
        ensures after { AreWritten (type_place (listed columns.now.nodes) true siblings.now) siblings.now
            self.old.after.items self.new.after.items }
    {
        count_up(
            columns,
            siblings,
            &mut self.tally,
            &mut self.index,
            &mut self.before,
        );
        count_down(columns, siblings, &mut self.tally, &mut self.after);
    }
}

/// Counts siblings by tag, from none. Each is told how many were before it, and how many of its type.
fn count_up(
    columns: &NodeColumns,
    siblings: &[u32],
    tally: &mut Vec<u32>,
    places: &mut Vec<u32>,
    before: &mut Vec<u32>,
)
    requires once { StandOnce columns.now.names }
    requires siblings { AreSiblings (length columns.now.nodes) (listed columns.now.nodes) columns.now.names
        (length tally.old.items) siblings.now }
    requires few { length siblings.now < 2 ^ 32 }
    requires tally { AreZeros columns.now.names tally.old.items }
    requires room { length columns.now.nodes ≤ length places.old.items }
    requires room_before { length columns.now.nodes ≤ length before.old.items }
    ensures tally { IsTally (listed columns.now.nodes) columns.now.names (length tally.old.items) siblings.now
        tally.new.items }
    ensures index { AreWritten (index_among siblings.now) siblings.now places.old.items places.new.items }
    ensures before { AreWritten (type_place (listed columns.now.nodes) false siblings.now) siblings.now
        before.old.items before.new.items }
{
    let mut place = 0;
    for sibling in siblings {
        let index = *sibling as usize - 1;
        let tag = columns.tag(index).index();
        places[index] = place;
        before[index] = tally[tag];
        tally[tag] += 1;
        place += 1;
    }
}

/// Counts siblings by tag down to none. Each is told how many of its type are still to come.
fn count_down(columns: &NodeColumns, siblings: &[u32], tally: &mut Vec<u32>, after: &mut Vec<u32>)
    requires once { StandOnce columns.now.names }
    requires siblings { AreSiblings (length columns.now.nodes) (listed columns.now.nodes) columns.now.names
        (length tally.old.items) siblings.now }
    requires tally { IsTally (listed columns.now.nodes) columns.now.names (length tally.old.items) siblings.now
        tally.old.items }
    requires room { length columns.now.nodes ≤ length after.old.items }
    ensures tally { AreZeros columns.now.names tally.new.items }
    ensures same_room { length tally.new.items ≡ length tally.old.items }
    ensures places { AreWritten (type_place (listed columns.now.nodes) true siblings.now) siblings.now
        after.old.items after.new.items }
{
    for sibling in siblings {
        let index = *sibling as usize - 1;
        let tag = columns.tag(index).index();
        tally[tag] -= 1;
        after[index] = tally[tag];
    }
}

/// Appends zeros to a list. There is room.
fn append_zeros(list: &mut Vec<u32>, size: usize)
    requires { vec_len list.old + size ≤ vec_capacity list.old }
    ensures { list.new.items ≡ list.old.items ++ replicate size 0 }
{
    let count = list.len();
    let _done = list.resize(count + size, 0);
}
