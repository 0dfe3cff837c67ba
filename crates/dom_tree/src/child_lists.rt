//! The children of all elements, as parts of one flat list.

ghost use Rattle.std.specs.Prelude.{◌≡◌, ◌++◌, ◌∷◌, ◌^◌, ◌<◌, ◌≤◌, ◌+◌, ◌-◌, ◌≢◌, [], IfOk, IfSome, OnOk, Some, length, map, slice_get, slice_set, vec_capacity, vec_len};
ghost use Rattle.std.specs.List.{AllByRecursion};
ghost use Rattle.base_model.specs.Limits.{element_limit};
ghost use Rattle.scene_model.specs.Nodes.{listed};
ghost use Rattle.dom_tree.specs.ChildLists.{AreChildren, AreParts, list_moved, list_with, list_without, lists_of, shifted};
ghost use Rattle.dom_tree.specs.Turned.{raised};

use crate::nodes::NodeList;
use crate::numbers::Numbers;
use crate::span::Span;
use crate::turns::{append_part, append_raised, turn};
use std::alloc::Global;
use stylo_base::NoMemory;

/// How many items all lists may have, and those that are abandoned.
const MOST: usize = 4_294_967_295;

/// A list of numbers for each number, from 1: the children of an element, in tree order.
#[derive(Drop)]
pub(crate) struct ChildLists {
    /// By number, from 1: the part of each.
    pub spans: Vec<Span>,
    pub flat: Vec<u32>,
    /// How many of `flat` were in a part before an edit, and are in none now.
    pub abandoned: usize,
}

impl ChildLists {
    /// The children of the nodes of a list.
    pub fn of_list(alloc: Global, list: &NodeList) -> Result<ChildLists, NoMemory>
        requires { length list.now ≤ element_limit }
        ensures parts { IfOk result (λ lists. AreParts lists.flat.items lists.spans.items) }
        ensures children { IfOk result (λ lists.
            AreChildren (length list.now) (listed list.now) (lists_of lists.flat.items lists.spans.items)) }
    {
        let found = link_nodes(alloc, list)?;
        ChildLists::of_lists(alloc, &found)
    }

    /// These lists as parts of one.
    fn of_lists(alloc: Global, found: &[Numbers]) -> Result<ChildLists, NoMemory>
        ensures parts { IfOk result (λ lists. AreParts lists.flat.items lists.spans.items) }
        ensures lists { IfOk result (λ lists. lists_of lists.flat.items lists.spans.items ≡ found.now) }
    {
        let mut spans = Vec::with_capacity(alloc, found.len())?;
        let mut flat = Vec::with_capacity(alloc, found.len())?;
        for numbers in found {
            let list = numbers.as_slice();
            let span = Span::new(flat.len(), list.len())?;
            flat.extend_from_slice(list)?;
            spans.push(span)?;
        }
        Ok(ChildLists {
            spans,
            flat,
            abandoned: 0,
        })
    }

    /// The same lists again.
    pub fn copy(&self, alloc: Global) -> Result<ChildLists, NoMemory>
        ensures spans { IfOk result (λ lists. lists.spans.items ≡ self.now.spans.items) }
        ensures flat { IfOk result (λ lists. lists.flat.items ≡ self.now.flat.items) }
    {
        Ok(ChildLists {
            spans: Vec::from_slice(alloc, &self.spans)?,
            flat: Vec::from_slice(alloc, &self.flat)?,
            abandoned: self.abandoned,
        })
    }

    /// The list of a number.
    #[inline]
    pub fn of(&self, number: u32) -> &[u32]
        requires parts { AreParts self.now.flat.items self.now.spans.items }
        requires low { 0 < number }
        requires high { number ≤ length self.now.spans.items }
        ensures list { slice_get (lists_of self.now.flat.items self.now.spans.items) (number - 1)
            ≡ Some result.now }
        ensures few { length result.now < 2 ^ 32 }
    {
        let Span { first, count } = self.spans[number as usize - 1];
        &self.flat[first as usize..first as usize + count as usize]
    }

    /// Makes room for more lists, and for more items of them all. There are fewer than 2^32 items: more are refused as
    /// if out of memory.
    pub fn make_room(&mut self, alloc: Global, lists: usize, items: usize) -> Result<(), NoMemory>
        requires { AreParts self.old.flat.items self.old.spans.items }
        ensures parts { AreParts self.new.flat.items self.new.spans.items }
        ensures lists { lists_of self.new.flat.items self.new.spans.items
            ≡ lists_of self.old.flat.items self.old.spans.items }
        ensures room_spans { OnOk result (vec_len self.new.spans + lists ≤ vec_capacity self.new.spans) }
        ensures room_flat { OnOk result (vec_len self.new.flat + items ≤ vec_capacity self.new.flat) }
        ensures few { OnOk result (vec_len self.new.flat + items < 2 ^ 32) }
    {
        self.compact(alloc)?;
        self.reserve(lists, items)
    }

    /// Makes that room where the flat list ends.
    fn reserve(&mut self, lists: usize, items: usize) -> Result<(), NoMemory>
        ensures spans { self.new.spans.items ≡ self.old.spans.items }
        ensures flat { self.new.flat.items ≡ self.old.flat.items }
        ensures room_spans { OnOk result (vec_len self.new.spans + lists ≤ vec_capacity self.new.spans) }
        ensures room_flat { OnOk result (vec_len self.new.flat + items ≤ vec_capacity self.new.flat) }
        ensures few { OnOk result (vec_len self.new.flat + items < 2 ^ 32) }
    {
        if self.flat.len() >= MOST || items >= MOST - self.flat.len() {
            return Err(NoMemory);
        }
        self.spans.reserve(lists)?;
        self.flat.reserve(items)?;
        Ok(())
    }

    /// Takes the item at an index out of the list of a number, in place.
    pub fn take_out(&mut self, number: u32, index: usize)
        requires parts { AreParts self.old.flat.items self.old.spans.items }
        requires low { 0 < number }
        requires high { number ≤ length self.old.spans.items }
        requires index { IfSome (slice_get (lists_of self.old.flat.items self.old.spans.items) (number - 1)) (λ list.
            index < length list) }
        ensures parts { AreParts self.new.flat.items self.new.spans.items }
        ensures lists { IfSome (slice_get (lists_of self.old.flat.items self.old.spans.items) (number - 1)) (λ list.
            lists_of self.new.flat.items self.new.spans.items
            ≡ slice_set (lists_of self.old.flat.items self.old.spans.items) (number - 1) (list_without index list)) }
    {
        let at = number as usize - 1;
        let Span { first, count } = self.spans[at];
        let start = first as usize;
        turn(&mut self.flat, start + index, start + count as usize, 1);
        self.spans[at] = Span {
            first,
            count: count - 1,
        };
        self.abandoned = self.abandoned.saturating_add(1);
    }

    /// Moves an item of the list of a number from one index to another, in place.
    fn move_in(&mut self, number: u32, from: usize, to: usize)
        requires parts { AreParts self.old.flat.items self.old.spans.items }
        requires low { 0 < number }
        requires high { number ≤ length self.old.spans.items }
        requires from { IfSome (slice_get (lists_of self.old.flat.items self.old.spans.items) (number - 1)) (λ list.
            from < length list) }
        requires to { IfSome (slice_get (lists_of self.old.flat.items self.old.spans.items) (number - 1)) (λ list.
            to < length list) }
        ensures parts { AreParts self.new.flat.items self.new.spans.items }
        ensures lists { IfSome (slice_get (lists_of self.old.flat.items self.old.spans.items) (number - 1)) (λ list.
            lists_of self.new.flat.items self.new.spans.items
            ≡ slice_set (lists_of self.old.flat.items self.old.spans.items) (number - 1) (list_moved from to list)) }
    {
        let start = self.spans[number as usize - 1].first as usize;
        if from < to {
            turn(&mut self.flat, start + from, start + (to + 1), 1);
        } else {
            turn(&mut self.flat, start + to, start + (from + 1), from - to);
        }
    }

    /// Puts an item into the list of a number at an index. The list is written anew at the end of all, where there
    /// is room for it.
    pub fn put_in(&mut self, number: u32, index: usize, item: u32)
        requires parts { AreParts self.old.flat.items self.old.spans.items }
        requires low { 0 < number }
        requires high { number ≤ length self.old.spans.items }
        requires index { IfSome (slice_get (lists_of self.old.flat.items self.old.spans.items) (number - 1)) (λ list.
            index ≤ length list) }
        requires room { IfSome (slice_get (lists_of self.old.flat.items self.old.spans.items) (number - 1)) (λ list.
            vec_len self.old.flat + length list + 1 ≤ vec_capacity self.old.flat) }
        requires few { IfSome (slice_get (lists_of self.old.flat.items self.old.spans.items) (number - 1)) (λ list.
            vec_len self.old.flat + length list + 1 < 2 ^ 32) }
        ensures parts { AreParts self.new.flat.items self.new.spans.items }
        ensures lists { IfSome (slice_get (lists_of self.old.flat.items self.old.spans.items) (number - 1)) (λ list.
            lists_of self.new.flat.items self.new.spans.items
            ≡ slice_set (lists_of self.old.flat.items self.old.spans.items) (number - 1) (list_with index item list)) }
    {
        let at = number as usize - 1;
        let Span { first, count } = self.spans[at];
        let start = first as usize;
        let made = Span {
            first: self.flat.len() as u32,
            count: count + 1,
        };
        append_part(&mut self.flat, start, start + index);
        self.flat.push_reserved(item);
        append_part(&mut self.flat, start + index, start + count as usize);
        self.spans[at] = made;
        self.abandoned = self.abandoned.saturating_add(count as usize);
    }

    /// Takes the item at an index out of the list of a number, and puts it into that of a number at an index, which
    /// counts without it. Where the lists are two there is room for the second and one more.
    pub fn carry(&mut self, from: u32, place: usize, to: u32, index: usize, item: u32)
        requires parts { AreParts self.old.flat.items self.old.spans.items }
        requires low { 0 < from }
        requires high { from ≤ length self.old.spans.items }
        requires to_low { 0 < to }
        requires to_high { to ≤ length self.old.spans.items }
        requires place { IfSome (slice_get (lists_of self.old.flat.items self.old.spans.items) (from - 1)) (λ list.
            place < length list) }
        requires within { from ≡ to → IfSome (slice_get (lists_of self.old.flat.items self.old.spans.items) (from - 1))
            (λ list. index < length list) }
        requires index { IfSome (slice_get (lists_of self.old.flat.items self.old.spans.items) (to - 1)) (λ list.
            index ≤ length list) }
        requires room { IfSome (slice_get (lists_of self.old.flat.items self.old.spans.items) (to - 1)) (λ list.
            vec_len self.old.flat + length list + 1 ≤ vec_capacity self.old.flat) }
        requires few { IfSome (slice_get (lists_of self.old.flat.items self.old.spans.items) (to - 1)) (λ list.
            vec_len self.old.flat + length list + 1 < 2 ^ 32) }
        ensures parts { AreParts self.new.flat.items self.new.spans.items }
        ensures same { from ≡ to → IfSome (slice_get (lists_of self.old.flat.items self.old.spans.items) (from - 1))
            (λ list. lists_of self.new.flat.items self.new.spans.items
            ≡ slice_set (lists_of self.old.flat.items self.old.spans.items) (from - 1) (list_moved place index list)) }
        ensures other { from ≢ to → IfSome (slice_get (lists_of self.old.flat.items self.old.spans.items) (to - 1))
            (λ there. IfSome (slice_get (lists_of self.old.flat.items self.old.spans.items) (from - 1)) (λ here.
            lists_of self.new.flat.items self.new.spans.items
            ≡ slice_set (slice_set (lists_of self.old.flat.items self.old.spans.items) (to - 1)
            (list_with index item there)) (from - 1) (list_without place here))) }
    {
        if from == to {
            self.move_in(from, place, index);
            return;
        }
        self.put_in(to, index, item);
        self.take_out(from, place);
    }

    /// Appends other lists, their items raised by `last`. There is room for them.
    pub fn append(&mut self, found: &ChildLists, last: u32)
        requires parts { AreParts self.old.flat.items self.old.spans.items }
        requires found { AreParts found.now.flat.items found.now.spans.items }
        requires room_spans { vec_len self.old.spans + length found.now.spans.items ≤ vec_capacity self.old.spans }
        requires room_flat { vec_len self.old.flat + length found.now.flat.items ≤ vec_capacity self.old.flat }
        requires few { vec_len self.old.flat + length found.now.flat.items < 2 ^ 32 }
        ensures parts { AreParts self.new.flat.items self.new.spans.items }
        ensures lists { lists_of self.new.flat.items self.new.spans.items
            ≡ lists_of self.old.flat.items self.old.spans.items
            ++ map (map (raised last)) (lists_of found.now.flat.items found.now.spans.items) }
        ensures len { vec_len self.new.flat ≡ vec_len self.old.flat + length found.now.flat.items }
        ensures capacity { vec_capacity self.new.flat ≡ vec_capacity self.old.flat }
    {
        let start = self.flat.len() as u32;
        append_raised(&mut self.flat, &found.flat, last);
        append_shifted(&mut self.spans, &found.spans, start);
    }

    /// Makes the flat list anew, where more of it is abandoned than there are lists.
    fn compact(&mut self, alloc: Global) -> Result<(), NoMemory>
        requires { AreParts self.old.flat.items self.old.spans.items }
        ensures parts { AreParts self.new.flat.items self.new.spans.items }
        ensures lists { lists_of self.new.flat.items self.new.spans.items
            ≡ lists_of self.old.flat.items self.old.spans.items }
    {
        if self.abandoned <= self.spans.len() {
            return Ok(());
        }
        *self = self.packed(alloc)?;
        Ok(())
    }

    /// The same lists, and no items but theirs.
    fn packed(&self, alloc: Global) -> Result<ChildLists, NoMemory>
        requires { AreParts self.now.flat.items self.now.spans.items }
        ensures parts { IfOk result (λ lists. AreParts lists.flat.items lists.spans.items) }
        ensures lists { IfOk result (λ lists. lists_of lists.flat.items lists.spans.items
            ≡ lists_of self.now.flat.items self.now.spans.items) }
    {
        let mut spans = Vec::with_capacity(alloc, self.spans.len())?;
        let mut flat = Vec::with_capacity(alloc, self.flat.len().saturating_sub(self.abandoned))?;
        for span in &self.spans {
            let list = span.of(&self.flat);
            let made = Span::new(flat.len(), list.len())?;
            flat.extend_from_slice(list)?;
            spans.push(made)?;
        }
        Ok(ChildLists {
            spans,
            flat,
            abandoned: 0,
        })
    }
}

/// Appends parts, of a list that was put at the index `start` of another. There is room for them.
fn append_shifted(spans: &mut Vec<Span>, found: &[Span], start: u32)
    requires room { vec_len spans.old + length found.now ≤ vec_capacity spans.old }
    requires few { AllByRecursion (λ span. start + span.first < 2 ^ 32) found.now }
    ensures { spans.new.items ≡ spans.old.items ++ map (shifted start) found.now }
{
    for span in found {
        let Span { first, count } = *span;
        spans.push_reserved(Span {
            first: start + first,
            count,
        });
    }
}

/// The children of each node, by number.
fn link_nodes(alloc: Global, list: &NodeList) -> Result<Vec<Numbers>, NoMemory>
    requires { length list.now ≤ element_limit }
    ensures { IfOk result (λ lists. AreChildren (length list.now) (listed list.now) lists.items) }
{
    let mut lists = Vec::with_capacity(alloc, list.len())?;
    for index in 0..list.len() {
        if let Some(parent) = list.parent(index) {
            append_child(&mut lists, parent as usize, index as u32 + 1)?;
        }
        lists.push(Numbers::new(alloc))?;
    }
    Ok(lists)
}

/// Appends a child to the children of the node at the index `parent`.
fn append_child(lists: &mut Vec<Numbers>, parent: usize, child: u32) -> Result<(), NoMemory>
    requires { parent < length lists.old.items }
    ensures { OnOk result (IfSome (slice_get lists.old.items parent) (λ list.
        lists.new.items ≡ slice_set lists.old.items parent (list ++ child ∷ []))) }
{
    lists[parent].push(child)
}
