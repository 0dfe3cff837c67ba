//! Edits of a document in place, and its copy.

ghost use Rattle.std.specs.Prelude.{◌≡◌, IfOk, OnErr, OnOk};
ghost use Rattle.std.specs.FinMap as finmap;
ghost use Rattle.std.specs.Str.{chars};
ghost use Rattle.scene_model.specs.Lookups.{IsElement, attributes_of};
ghost use Rattle.change_model.specs.InPlace.{put_state, with_attribute, with_state, without_attribute};
ghost use Rattle.stylo_base.specs.StateView.{state_seen};
ghost use Rattle.dom_tree.specs.View.{states_of};

use crate::child_lists::ChildLists;
use crate::class_lists::ClassLists;
use crate::doc::Doc;
use crate::labels::{Label, label_with};
use crate::node_columns::NodeColumns;
use crate::nodes::States;
use crate::sibling_places::SiblingPlaces;
use std::alloc::Global;
use stylo_base::{NoMemory, State};

impl Doc {
    /// Sets a state of `x`, or takes it away. It takes no memory.
    pub fn set_state(&mut self, x: u32, state: State, on: bool)
        requires { IsElement self.old.elements x }
        ensures { self.new ≡ record self.old { elements = with_state x (state_seen state) on self.old.elements } }
    {
        let states = self.columns.states(x as usize - 1);
        self.columns
            .set_states(x as usize - 1, states_with(states, state, on));
    }

    /// Gives an attribute of `x` a value. The only error is that memory ran out; then nothing is changed.
    pub fn set_attribute(
        &mut self,
        alloc: Global,
        x: u32,
        name: &str,
        value: &str,
    ) -> Result<(), NoMemory>
        requires { IsElement self.old.elements x }
        ensures ok { OnOk result (self.new
            ≡ record self.old { elements = with_attribute x (chars name.now) (chars value.now) self.old.elements }) }
        ensures err { OnErr result (self.new ≡ self.old) }
    {
        let attribute = self.columns.intern(name)?;
        let text = self.columns.intern(value)?;
        let index = x as usize - 1;
        let label = label_with(
            self.columns.names(),
            self.labels[index],
            name,
            Some(text),
            &mut self.lists,
            &mut self.cuts,
        )?;
        self.columns.set_attribute(alloc, index, attribute, text)?;
        self.labels[index] = label;
        Ok(())
    }

    /// Takes an attribute of `x` away, if it has it. The only error is that memory ran out; then nothing is
    /// changed.
    pub fn remove_attribute(&mut self, alloc: Global, x: u32, name: &str) -> Result<(), NoMemory>
        requires { IsElement self.old.elements x }
        ensures ok { OnOk result (self.new
            ≡ record self.old { elements = without_attribute x (chars name.now) self.old.elements }) }
        ensures err { OnErr result (self.new ≡ self.old) }
    {
        let known = self.columns.names().find(name);
        let index = x as usize - 1;
        if self.columns.value(index, known).is_none() {
            return Ok(());
        }
        // It is an attribute's name, so it is there: this takes no memory.
        let attribute = self.columns.intern(name)?;
        let label = label_with(
            self.columns.names(),
            self.labels[index],
            name,
            None,
            &mut self.lists,
            &mut self.cuts,
        )?;
        self.columns.remove_attribute(alloc, index, attribute)?;
        self.labels[index] = label;
        Ok(())
    }

    /// Another document of the same elements. The only error is that memory ran out.
    pub fn copy(&self, alloc: Global) -> Result<Doc, NoMemory>
        ensures { IfOk result (λ doc. doc ≡ self.now) }
    {
        let (order, present) = copy_numbers(alloc, &self.order, &self.present)?;
        let (labels, lists, cuts) = copy_labels(alloc, &self.labels, &self.lists, &self.cuts)?;
        let (columns, children, places) = copy_tree(
            alloc,
            &self.columns,
            &self.children,
            &self.places,
        )?;
        Ok(Doc {
            columns,
            children,
            places,
            labels,
            lists,
            cuts,
            order,
            present,
        })
    }

    /// How many attributes `x` has.
    pub fn attribute_count(&self, x: u32) -> usize
        requires { IsElement self.now.elements x }
        ensures { result ≡ finmap.len (attributes_of self.now.elements x) }
    {
        self.columns.attribute_count(x as usize - 1)
    }
}

/// States, once one of them is set or taken away.
fn states_with(states: States, state: State, on: bool) -> States
    ensures { states_of result ≡ put_state (state_seen state) on (states_of states) }
{
    let mut changed = states;
    match state {
        State::Hover => changed.hover = on,
        State::Active => changed.active = on,
        State::Focus => changed.focus = on,
    }
    changed
}

/// The same nodes, children and places of elements again.
fn copy_tree(
    alloc: Global,
    columns: &NodeColumns,
    children: &ChildLists,
    places: &SiblingPlaces,
) -> Result<(NodeColumns, ChildLists, SiblingPlaces), NoMemory>
    ensures columns { IfOk result (λ made. made.0 ≡ columns.now) }
    ensures spans { IfOk result (λ made. made.1.spans.items ≡ children.now.spans.items) }
    ensures flat { IfOk result (λ made. made.1.flat.items ≡ children.now.flat.items) }
    ensures index { IfOk result (λ made. made.2.index.items ≡ places.now.index.items) }
    ensures before { IfOk result (λ made. made.2.before.items ≡ places.now.before.items) }
    ensures after { IfOk result (λ made. made.2.after.items ≡ places.now.after.items) }
    ensures tally { IfOk result (λ made. made.2.tally.items ≡ places.now.tally.items) }
{
    let children = children.copy(alloc)?;
    let places = places.copy(alloc)?;
    let columns = columns.copy(alloc)?;
    Ok((columns, children, places))
}

/// The same labels again, the class lists that they name, and which of them were cut.
fn copy_labels(
    alloc: Global,
    labels: &[Label],
    lists: &ClassLists,
    cuts: &[Option<u32>],
) -> Result<(Vec<Label>, ClassLists, Vec<Option<u32>>), NoMemory>
    ensures labels { IfOk result (λ made. made.0.items ≡ labels.now) }
    ensures lists { IfOk result (λ made. made.1 ≡ lists.now) }
    ensures cuts { IfOk result (λ made. made.2.items ≡ cuts.now) }
{
    let labels = Vec::from_slice(alloc, labels)?;
    let cuts = Vec::from_slice(alloc, cuts)?;
    let lists = lists.copy(alloc)?;
    Ok((labels, lists, cuts))
}

/// The same numbers in tree order again, and whether each number is that of an element.
fn copy_numbers(
    alloc: Global,
    order: &[u32],
    present: &[bool],
) -> Result<(Vec<u32>, Vec<bool>), NoMemory>
    ensures order { IfOk result (λ made. made.0.items ≡ order.now) }
    ensures present { IfOk result (λ made. made.1.items ≡ present.now) }
{
    let order = Vec::from_slice(alloc, order)?;
    let present = Vec::from_slice(alloc, present)?;
    Ok((order, present))
}
