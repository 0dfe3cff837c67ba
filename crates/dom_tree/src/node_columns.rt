//! What is kept of nodes, in columns: each text once, as a name.

ghost use Rattle.std.specs.Prelude.{◌≡◌, ◌↔◌, ℕ, ◌<◌, ◌==◌, ◌++◌, ◌∷◌, [], IfSome, IfOk, IsTrue, OnErr, OnOk, Some, encode_utf8_all, find, length, map, nat_le, option_map, slice_get};
ghost use Rattle.std.specs.Cmp.Lexicographic.{slice_cmp};
ghost use Rattle.std.specs.Ordering.{nat_cmp};
ghost use Rattle.std.specs.List.{AllByRecursion, list_all};
ghost use Rattle.std.specs.FinMap as finmap;
ghost use Rattle.std.specs.Str.{chars};
ghost use Rattle.scene_model.specs.Element.{Characters};
ghost use Rattle.stylo_base.specs.NameList.{StandOnce};
ghost use Rattle.dom_tree.specs.ElementNames.{AreNamesOf};
ghost use Rattle.dom_tree.specs.SiblingPlaces.{HasNameBelow};
ghost use Rattle.dom_tree.specs.View.{node_of, states_of};
ghost use Rattle.dom_tree.specs.Kept.{AreAttrs, IsNameOf, KeepsTexts, named_pair, put_node, text_of, with_attr, with_parent, with_states, without_attr};

mod append;

use crate::attribute_names::AttributeNames;
use crate::naming::{name_attrs, put, take_out};
use crate::nodes::{NodeInput, States};
use crate::runs::{give_run, packed, read_run};
use crate::span::Span;
use std::alloc::Global;
use std::marker::Model;
use stylo_base::{Atom, Name, Names, NoMemory};

/// Where fewer attributes are abandoned, they stay in the flat list.
const FEW_ABANDONED: usize = 1000;

/// An attribute of an element.
#[derive(Clone, Copy, PartialEq, Eq)]
pub(crate) struct AttrRow {
    pub name: Name,
    pub value: Name,
}

/// A node, but for its attributes.
#[derive(Clone, Copy)]
pub(crate) struct NodeRow {
    /// The index of its parent. None: it is the root.
    pub parent: Option<u32>,
    pub tag: Name,
    pub states: States,
    /// Its attributes, sorted by name.
    pub attrs: Span,
}

/// Nodes in columns. Contracts see the texts that have names, and the list of the nodes.
#[derive(Drop)]
pub(crate) struct NodeColumns {
    /// The tags, and the names and the values of the attributes.
    names: Names,
    rows: Vec<NodeRow>,
    attrs: Vec<AttrRow>,
    /// The attributes of the node that is pushed; used again for each one.
    run: Vec<AttrRow>,
    /// How many of `attrs` were a node's before an edit, and are no node's now.
    abandoned: usize,
}

impl Model for NodeColumns {
    ghost use Rattle.std.specs.Prelude.{map as mapped};
    ghost use Rattle.dom_tree.specs.Kept.{Table, table_code, AreRows, node_seen};

    ghost Value = { Table };

    ghost coded = { table_code };

    ghost view = { λ c. record {
      names = c.names;
      nodes = mapped (node_seen c.names c.attrs.items) c.rows.items;
    } };

    ghost invariant = { λ c. AreRows c.names c.attrs.items c.rows.items };
}

impl NodeColumns {
    /// No nodes.
    pub fn new(alloc: Global) -> NodeColumns
        ensures { result.nodes ≡ [] }
    {
        NodeColumns {
            names: Names::new(alloc),
            rows: Vec::new(alloc),
            attrs: Vec::new(alloc),
            run: Vec::new(alloc),
            abandoned: 0,
        }
    }

    /// Appends a node.
    pub fn push(&mut self, parent: Option<u32>, node: NodeInput) -> Result<(), NoMemory>
        ensures ok { OnOk result (self.new.nodes ≡ self.old.nodes ++ node_of parent node.entry ∷ []) }
        ensures err { OnErr result (self.new.nodes ≡ self.old.nodes) }
        ensures once { StandOnce self.new.names }
    {
        name_attrs(&mut self.names, &mut self.run, node.attrs)?;
        let row = NodeRow {
            parent,
            tag: self.names.intern(node.tag)?,
            states: node.states,
            attrs: Span::new(self.attrs.len(), self.run.len())?,
        };
        self.attrs.extend_from_slice(&self.run)?;
        self.rows.push(row)?;
        Ok(())
    }

    /// The name of a text, which gets one where it has none. The nodes stay.
    pub fn intern(&mut self, text: &str) -> Result<Name, NoMemory>
        ensures name { IfOk result (λ n. slice_get self.new.names n ≡ Some (chars text.now)) }
        ensures nodes { self.new.nodes ≡ self.old.nodes }
        ensures kept { KeepsTexts self.old.names self.new.names }
        ensures once { StandOnce self.new.names }
    {
        self.names.intern(text)
    }

    /// Gives an attribute of a node a value.
    pub fn set_attribute(
        &mut self,
        alloc: Global,
        index: usize,
        name: Name,
        value: Name,
    ) -> Result<(), NoMemory>
        requires index { index < length self.old.nodes }
        requires name { name < length self.old.names }
        requires value { value < length self.old.names }
        requires once { StandOnce self.old.names }
        ensures names { self.new.names ≡ self.old.names }
        ensures ok { OnOk result (self.new.nodes
            ≡ put_node index (with_attr (text_of self.old.names name) (text_of self.old.names value)) self.old.nodes) }
        ensures err { OnErr result (self.new.nodes ≡ self.old.nodes) }
    {
        self.compact(alloc)?;
        self.put_attribute(index, name, value)
    }

    /// Takes an attribute of a node away, if it has it.
    pub fn remove_attribute(
        &mut self,
        alloc: Global,
        index: usize,
        name: Name,
    ) -> Result<(), NoMemory>
        requires index { index < length self.old.nodes }
        requires name { name < length self.old.names }
        requires once { StandOnce self.old.names }
        ensures names { self.new.names ≡ self.old.names }
        ensures ok { OnOk result (self.new.nodes
            ≡ put_node index (without_attr (text_of self.old.names name)) self.old.nodes) }
        ensures err { OnErr result (self.new.nodes ≡ self.old.nodes) }
    {
        if self.value(index, Some(name)).is_none() {
            return Ok(());
        }
        self.compact(alloc)?;
        self.leave_out(index, name)
    }

    /// Makes the flat list of attributes anew, where more of it is abandoned than used. It takes the time
    /// of all rows, so it waits until as many are abandoned as there are nodes.
    fn compact(&mut self, alloc: Global) -> Result<(), NoMemory>
        ensures { self.new ≡ self.old }
    {
        let used = self.attrs.len().saturating_sub(self.abandoned);
        if self.abandoned <= FEW_ABANDONED
            || self.abandoned <= used
            || self.abandoned <= self.rows.len()
        {
            return Ok(());
        }
        let (rows, attrs) = packed(alloc, &self.rows, &self.attrs, used)?;
        self.rows = rows;
        self.attrs = attrs;
        self.abandoned = 0;
        Ok(())
    }

    /// Gives an attribute of a node a value: all its attributes get another part of the flat list.
    fn put_attribute(&mut self, index: usize, name: Name, value: Name) -> Result<(), NoMemory>
        requires index { index < length self.old.nodes }
        requires name { name < length self.old.names }
        requires value { value < length self.old.names }
        requires once { StandOnce self.old.names }
        ensures names { self.new.names ≡ self.old.names }
        ensures ok { OnOk result (self.new.nodes
            ≡ put_node index (with_attr (text_of self.old.names name) (text_of self.old.names value)) self.old.nodes) }
        ensures err { OnErr result (self.new.nodes ≡ self.old.nodes) }
    {
        let part = self.rows[index].attrs;
        read_run(&mut self.run, part.of(&self.attrs))?;
        put(&mut self.run, name, value)?;
        give_run(&mut self.rows, &mut self.attrs, &self.run, index)?;
        self.abandoned = self.abandoned.saturating_add(part.count as usize);
        Ok(())
    }

    /// Leaves out an attribute of a node: the others get another part of the flat list.
    fn leave_out(&mut self, index: usize, name: Name) -> Result<(), NoMemory>
        requires index { index < length self.old.nodes }
        requires name { name < length self.old.names }
        requires once { StandOnce self.old.names }
        ensures names { self.new.names ≡ self.old.names }
        ensures ok { OnOk result (self.new.nodes
            ≡ put_node index (without_attr (text_of self.old.names name)) self.old.nodes) }
        ensures err { OnErr result (self.new.nodes ≡ self.old.nodes) }
    {
        let part = self.rows[index].attrs;
        read_run(&mut self.run, part.of(&self.attrs))?;
        take_out(&mut self.run, name);
        give_run(&mut self.rows, &mut self.attrs, &self.run, index)?;
        self.abandoned = self.abandoned.saturating_add(part.count as usize);
        Ok(())
    }

    /// Gives a node other states.
    pub fn set_states(&mut self, index: usize, states: States)
        requires index { index < length self.old.nodes }
        ensures names { self.new.names ≡ self.old.names }
        ensures nodes { self.new.nodes ≡ put_node index (with_states (states_of states)) self.old.nodes }
    {
        self.rows[index].states = states;
    }

    /// Hangs a node below the one at the index `parent`.
    pub fn set_parent(&mut self, index: usize, parent: u32)
        requires index { index < length self.old.nodes }
        ensures names { self.new.names ≡ self.old.names }
        ensures nodes { self.new.nodes ≡ put_node index (with_parent parent) self.old.nodes }
    {
        self.rows[index].parent = Some(parent);
    }

    /// How many nodes there are.
    pub fn len(&self) -> usize
        ensures { result ≡ length self.now.nodes }
    {
        self.rows.len()
    }

    /// The index of a node's parent. None: it is the root.
    pub fn parent(&self, index: usize) -> Option<u32>
        requires { index < length self.now.nodes }
        ensures { IfSome (slice_get self.now.nodes index) (λ node. result ≡ node.parent) }
    {
        self.rows[index].parent
    }

    /// How many attributes a node has.
    pub fn attribute_count(&self, index: usize) -> usize
        requires index { index < length self.now.nodes }
        requires once { StandOnce self.now.names }
        ensures { IfSome (slice_get self.now.nodes index) (λ node. result ≡ finmap.len node.attrs) }
    {
        self.rows[index].attrs.count as usize
    }

    /// How many bytes the longest value of an attribute of a node has. Without attributes it is 0.
    pub fn longest_value(&self, index: usize) -> usize
        requires index { index < length self.now.nodes }
        requires once { StandOnce self.now.names }
        ensures { (n : ℕ) → IfSome (slice_get self.now.nodes index) (λ node. nat_le result n
            ≡ list_all (λ text. nat_le (length (encode_utf8_all text)) n) (finmap.values node.attrs)) }
    {
        longest_among(&self.names, self.rows[index].attrs.of(&self.attrs))
    }

    /// The states of a node.
    pub fn states(&self, index: usize) -> States
        requires { index < length self.now.nodes }
        ensures { IfSome (slice_get self.now.nodes index) (λ node. states_of result ≡ node.states) }
    {
        self.rows[index].states
    }

    /// The tag of a node.
    pub fn tag(&self, index: usize) -> Name
        requires { index < length self.now.nodes }
        ensures text { IfSome (slice_get self.now.nodes index) (λ node. text_of self.now.names result ≡ node.tag) }
        ensures within { result < length self.now.names }
    {
        self.rows[index].tag
    }

    /// The names of the attributes of a node.
    #[inline]
    pub fn attribute_names(&self, index: usize) -> AttributeNames<'_>
        requires index { index < length self.now.nodes }
        requires once { StandOnce self.now.names }
        ensures { IfSome (slice_get self.now.nodes index) (λ node. AreNamesOf (finmap.get node.attrs) result) }
    {
        AttributeNames::new(&self.names, self.rows[index].attrs.of(&self.attrs))
    }

    /// The value of the attribute of a node with that name, if it has one. A text without a name is
    /// no attribute's.
    pub fn value(&self, index: usize, name: Option<Name>) -> Option<Name>
        requires index { index < length self.now.nodes }
        requires name { IfSome name (λ n. n < length self.now.names) }
        requires once { StandOnce self.now.names }
        ensures value { (text : Characters) → IsNameOf self.now.names text name
            → IfSome (slice_get self.now.nodes index) (λ node.
            option_map (text_of self.now.names) result ≡ finmap.get node.attrs text) }
        ensures within { IfSome result (λ value. value < length self.now.names) }
    {
        value_among(self.rows[index].attrs.of(&self.attrs), name?)
    }

    /// The text of the attribute of a node with the name of this atom, if it has one.
    pub fn text_by_atom(&self, index: usize, name: &Atom) -> Option<&str>
        requires { index < length self.now.nodes }
        ensures { IfSome (slice_get self.now.nodes index) (λ node.
            option_map (λ text. chars text.now) result ≡ finmap.get node.attrs name.now) }
    {
        let value = value_by_atom(&self.names, self.rows[index].attrs.of(&self.attrs), name)?;
        Some(self.names.text(value))
    }

    /// Whether two nodes have the same attributes.
    pub fn same_attributes(&self, one: usize, other: usize) -> bool
        requires one { one < length self.now.nodes }
        requires other { other < length self.now.nodes }
        requires once { StandOnce self.now.names }
        ensures { IfSome (slice_get self.now.nodes one) (λ n. IfSome (slice_get self.now.nodes other) (λ m.
            IsTrue result ↔ (n.attrs ≡ m.attrs))) }
    {
        same_rows(
            self.rows[one].attrs.of(&self.attrs),
            self.rows[other].attrs.of(&self.attrs),
        )
    }

    /// The texts that have names.
    pub fn names(&self) -> &Names
        ensures { result.now ≡ self.now.names }
    {
        &self.names
    }

    /// How many texts have names. The tag of each node is one of them.
    pub fn name_count(&self) -> usize
        ensures count { result ≡ length self.now.names }
        ensures once { StandOnce self.now.names }
        ensures tags { AllByRecursion
            (λ node. HasNameBelow self.now.names (length self.now.names) node.tag) self.now.nodes }
    {
        self.names.len()
    }

    /// Other columns of the same nodes.
    pub fn copy(&self, alloc: Global) -> Result<NodeColumns, NoMemory>
        ensures { IfOk result (λ columns. columns ≡ self.now) }
    {
        Ok(NodeColumns {
            rows: Vec::from_slice(alloc, &self.rows)?,
            attrs: Vec::from_slice(alloc, &self.attrs)?,
            names: self.names.copy(alloc)?,
            run: Vec::new(alloc),
            abandoned: self.abandoned,
        })
    }
}

/// Whether two lists of rows are equal.
fn same_rows(one: &[AttrRow], other: &[AttrRow]) -> bool
    ensures { IsTrue result ↔ (one.now ≡ other.now) }
{
    one == other
}

/// The value of a name among rows.
fn value_among(rows: &[AttrRow], name: Name) -> Option<Name>
    ensures { result ≡ option_map (λ row. row.value) (find (λ row. row.name == name) rows.now) }
{
    let row = rows.iter().find(|row| row.name == name)?;
    Some(row.value)
}

/// How many bytes the text of a name has.
fn text_len(names: &Names, name: Name) -> usize
    requires { name < length names.now }
    ensures { result ≡ length (encode_utf8_all (text_of names.now name)) }
{
    names.text(name).len()
}

/// How many bytes the longest value among rows has. Of none it is 0.
fn longest_among(names: &Names, rows: &[AttrRow]) -> usize
    requires { AreAttrs names.now rows.now }
    ensures { (n : ℕ) → nat_le result n
        ≡ list_all (λ row. nat_le (length (encode_utf8_all (text_of names.now row.value))) n) rows.now }
{
    let mut most = 0;
    for row in rows {
        let bytes = text_len(names, row.value);
        if most < bytes {
            most = bytes;
        }
    }
    most
}

/// The value of the name of an atom among rows.
fn value_by_atom(names: &Names, rows: &[AttrRow], name: &Atom) -> Option<Name>
    requires { AreAttrs names.now rows.now }
    ensures value { option_map (text_of names.now) result
        ≡ finmap.find (slice_cmp nat_cmp) name.now (map (named_pair names.now) rows.now) }
    ensures within { IfSome result (λ value. value < length names.now) }
{
    for row in rows {
        if names.is_atom(row.name, name) {
            return Some(row.value);
        }
    }
    None
}
