//! Subtrees that are put into a document, and taken out of it.

ghost use Rattle.std.specs.Prelude.{◌≡◌, ◌++◌, ◌+◌, ◌^◌, ◌<◌, ◌≤◌, IfOk, OnErr, OnOk, is_some, length, replicate, true, vec_capacity, vec_len};
ghost use Rattle.std.specs.List.{AllByRecursion};
ghost use Rattle.base_model.specs.Limits.{element_limit, number_limit};
ghost use Rattle.scene_model.specs.Lookups.{IsElement, children, parent_of};
ghost use Rattle.change_model.specs.ChildLists.{inserted, removed};
ghost use Rattle.dom_tree.specs.ChildLists.{AreParts, lists_of};
ghost use Rattle.dom_tree.specs.Labels.{AreCuts, AreLabels, HasMore};
ghost use Rattle.dom_tree.specs.SiblingPlaces.{AreWritten, AreZeros, HasNameBelow};
ghost use Rattle.stylo_base.specs.NameList.{StandOnce};

use crate::child_lists::ChildLists;
use crate::class_lists::ClassLists;
use crate::doc::Doc;
use crate::labels::{Label, append_labels, label_list};
use crate::node_columns::NodeColumns;
use crate::nodes::NodeList;
use crate::sibling_places::SiblingPlaces;
use crate::start::order_nodes;
use crate::turns::{append_raised, turn};
use std::alloc::Global;
use stylo_base::NoMemory;

impl Doc {
    /// Takes `x` out, which is not the root, and all that is below it. It takes no memory.
    pub fn remove(&mut self, x: u32)
        requires { is_some (parent_of self.old.elements x) ≡ true }
        ensures { self.new ≡ removed self.old x }
    {
        let Some(parent) = self.parent(x) else {
            return;
        };
        let place = self.place(x) as usize;
        let start = self.position(x);
        let end = self.end_of(x);
        let count = self.order.len();
        mark(&mut self.present, &self.order[start..end], false);
        turn(&mut self.order, start, count, end - start);
        self.order.truncate(count - (end - start));
        self.children.take_out(parent, place);
        self.places.settle(&self.columns, self.children.of(parent));
    }

    /// Puts the nodes of a list in, its root as the child of `parent` at an index. They are given the next numbers, in
    /// the order of the list. The only error is that memory ran out; then nothing is changed.
    pub fn insert(
        &mut self,
        alloc: Global,
        parent: u32,
        index: usize,
        nodes: &NodeList,
    ) -> Result<(), NoMemory>
        requires there { IsElement self.old.elements parent }
        requires index { index ≤ length (children self.old.elements parent) }
        requires few { length self.old.elements + length nodes.now ≤ element_limit }
        requires given { self.old.last + length nodes.now ≤ number_limit }
        ensures ok { OnOk result (self.new ≡ inserted self.old parent index nodes.now) }
        ensures err { OnErr result (self.new ≡ self.old) }
    {
        let (found, run) = order_nodes(alloc, nodes)?;
        let spot = self.spot(parent, index);
        let items = found.flat.len() + self.children(parent).len() + 1;
        let last = self.columns.len();
        let count = self.order.len();
        let size = nodes.len();
        make_room(
            alloc,
            &mut self.children,
            &mut self.places,
            &mut self.labels,
            &mut self.present,
            &mut self.order,
            size,
            items,
        )?;
        let list = nodes.columns();
        let labels = label_more(
            alloc,
            &mut self.columns,
            list,
            &mut self.lists,
            &mut self.cuts,
            &mut self.places.tally,
        )?;
        self.columns.append(alloc, list, parent)?;
        // From here on nothing can fail.
        append_labels(&mut self.labels, &labels);
        append_present(&mut self.present, size);
        self.places.lengthen(size);
        self.children.append(&found, last as u32);
        self.children.put_in(parent, index, last as u32 + 1);
        append_raised(&mut self.order, &run, last as u32);
        turn(&mut self.order, spot, count + size, count - spot);
        self.places
            .settle_all(&self.columns, &self.children, last, last + size);
        self.places.settle(&self.columns, self.children.of(parent));
        Ok(())
    }
}

/// Labels for the nodes of a list, as `label_list` makes them, and room in a tally for all texts that have names then.
fn label_more(
    alloc: Global,
    columns: &mut NodeColumns,
    list: &NodeColumns,
    lists: &mut ClassLists,
    cuts: &mut Vec<Option<u32>>,
    tally: &mut Vec<u32>,
) -> Result<Vec<Label>, NoMemory>
    requires once { StandOnce columns.old.names }
    requires cuts { AreCuts columns.old.names lists.old cuts.old.items }
    requires zeros { AreZeros columns.old.names tally.old.items }
    ensures labels { IfOk result (λ labels.
        AreLabels (record { names = columns.new.names; nodes = list.now.nodes }) lists.new labels.items) }
    ensures tags { OnOk result (AllByRecursion
        (λ node. HasNameBelow columns.new.names (length columns.new.names) node.tag) list.now.nodes) }
    ensures nodes { columns.new.nodes ≡ columns.old.nodes }
    ensures more { HasMore columns.old.names lists.old columns.new.names lists.new cuts.new.items }
    ensures zeros { AreZeros columns.new.names tally.new.items }
    ensures longer { length tally.old.items ≤ length tally.new.items }
    ensures room { OnOk result (length tally.new.items ≡ length columns.new.names) }
{
    let labels = label_list(alloc, columns, list, lists, cuts)?;
    tally.resize(columns.name_count(), 0)?;
    Ok(labels)
}

/// Makes room for so many elements more, and for so many items of child lists.
fn make_room(
    alloc: Global,
    children: &mut ChildLists,
    places: &mut SiblingPlaces,
    labels: &mut Vec<Label>,
    present: &mut Vec<bool>,
    order: &mut Vec<u32>,
    size: usize,
    items: usize,
) -> Result<(), NoMemory>
    requires { AreParts children.old.flat.items children.old.spans.items }
    ensures parts { AreParts children.new.flat.items children.new.spans.items }
    ensures lists { lists_of children.new.flat.items children.new.spans.items
        ≡ lists_of children.old.flat.items children.old.spans.items }
    ensures index { places.new.index.items ≡ places.old.index.items }
    ensures before { places.new.before.items ≡ places.old.before.items }
    ensures after { places.new.after.items ≡ places.old.after.items }
    ensures tally { places.new.tally.items ≡ places.old.tally.items }
    ensures labels { labels.new.items ≡ labels.old.items }
    ensures present { present.new.items ≡ present.old.items }
    ensures order { order.new.items ≡ order.old.items }
    ensures few { OnOk result (vec_len children.new.flat + items < 2 ^ 32) }
    ensures room_spans { OnOk result (vec_len children.new.spans + size ≤ vec_capacity children.new.spans) }
    ensures room_flat { OnOk result (vec_len children.new.flat + items ≤ vec_capacity children.new.flat) }
    ensures room_index { OnOk result (vec_len places.new.index + size ≤ vec_capacity places.new.index) }
    ensures room_before { OnOk result (vec_len places.new.before + size ≤ vec_capacity places.new.before) }
    ensures room_after { OnOk result (vec_len places.new.after + size ≤ vec_capacity places.new.after) }
    ensures room_labels { OnOk result (vec_len labels.new + size ≤ vec_capacity labels.new) }
    ensures room_present { OnOk result (vec_len present.new + size ≤ vec_capacity present.new) }
    ensures room_order { OnOk result (vec_len order.new + size ≤ vec_capacity order.new) }
{
    children.make_room(alloc, size, items)?;
    places.index.reserve(size)?;
    places.before.reserve(size)?;
    places.after.reserve(size)?;
    labels.reserve(size)?;
    present.reserve(size)?;
    order.reserve(size)?;
    Ok(())
}

/// Says that so many more numbers are those of elements. There is room.
fn append_present(present: &mut Vec<bool>, size: usize)
    requires { vec_len present.old + size ≤ vec_capacity present.old }
    ensures { present.new.items ≡ present.old.items ++ replicate size true }
{
    let count = present.len();
    let _done = present.resize(count + size, true);
}

/// Says of each of these numbers whether it is that of an element.
fn mark(present: &mut Vec<bool>, numbers: &[u32], is: bool)
    requires { AllByRecursion (λ x. (0 < x) × (x ≤ length present.old.items)) numbers.now }
    ensures { AreWritten (λ _. is) numbers.now present.old.items present.new.items }
{
    for number in numbers {
        present[*number as usize - 1] = is;
    }
}
