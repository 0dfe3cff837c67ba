//! Columns to which the nodes of others are appended.

ghost use Rattle.std.specs.Prelude.{◌≡◌, ◌++◌, ◌^◌, ◌+◌, ◌-◌, ◌<◌, ◌≤◌, IfOk, IfSome, OnErr, OnOk, Some, length, map, slice_get};
ghost use Rattle.std.specs.Option.{option_map_or};
ghost use Rattle.base_model.specs.Limits.{number_limit};
ghost use Rattle.scene_model.specs.Nodes.{IsNodeList};
ghost use Rattle.stylo_base.specs.NameList.{StandOnce};
ghost use Rattle.dom_tree.specs.Kept.{AreRows, IsRow, KeepsRows, KeepsTexts, kept_node, node_seen};

use crate::naming::rename_attrs;
use crate::node_columns::{AttrRow, NodeColumns, NodeRow};
use crate::span::Span;
use std::alloc::Global;
use stylo_base::{Names, NoMemory};

impl NodeColumns {
    /// Appends the nodes of a list. Its root hangs below the node of the number `parent`. Where memory runs
    /// out, the nodes are as before.
    pub fn append(&mut self, alloc: Global, list: &NodeColumns, parent: u32) -> Result<(), NoMemory>
        requires few { length self.old.nodes + length list.now.nodes ≤ number_limit }
        requires shape { IsNodeList list.now.nodes }
        requires low { 0 < parent }
        requires once { StandOnce self.old.names }
        ensures ok { OnOk result (self.new.nodes
            ≡ self.old.nodes ++ map (kept_node (length self.old.nodes) parent) list.now.nodes) }
        ensures err { OnErr result (self.new.nodes ≡ self.old.nodes) }
        ensures kept { KeepsTexts self.old.names self.new.names }
        ensures once { StandOnce self.new.names }
    {
        let last = self.rows.len() as u32;
        let made = rename_rows(
            alloc,
            &mut self.names,
            &mut self.attrs,
            &mut self.run,
            list,
            last,
            parent,
        )?;
        self.rows.extend_from_slice(&made)?;
        Ok(())
    }
}

/// The rows of the nodes of a list among other names and attributes, after `last` others.
fn rename_rows(
    alloc: Global,
    names: &mut Names,
    attrs: &mut Vec<AttrRow>,
    run: &mut Vec<AttrRow>,
    list: &NodeColumns,
    last: u32,
    parent: u32,
) -> Result<Vec<NodeRow>, NoMemory>
    requires few { last + length list.now.nodes ≤ number_limit }
    requires shape { IsNodeList list.now.nodes }
    requires low { 0 < parent }
    requires once { StandOnce names.old }
    ensures kept { KeepsRows names.old attrs.old.items names.new attrs.new.items }
    ensures once { StandOnce names.new }
    ensures rows { IfOk result (λ rows. AreRows names.new attrs.new.items rows.items) }
    ensures nodes { IfOk result (λ rows. map (node_seen names.new attrs.new.items) rows.items
        ≡ map (kept_node last parent) list.now.nodes) }
{
    let mut rows = Vec::with_capacity(alloc, list.len())?;
    for index in 0..list.len() {
        let above = above(list, index, last, parent);
        let row = rename_row(names, attrs, run, list, index, above)?;
        rows.push(row)?;
    }
    Ok(rows)
}

/// The index of the parent of a node of a list, after `last` other nodes. That of the root is before them.
fn above(list: &NodeColumns, index: usize, last: u32, parent: u32) -> u32
    requires index { index < length list.now.nodes }
    requires few { last + length list.now.nodes ≤ number_limit }
    requires shape { IsNodeList list.now.nodes }
    requires low { 0 < parent }
    ensures { IfSome (slice_get list.now.nodes index) (λ node.
        result ≡ option_map_or (λ q. last + q) node.parent (parent - 1)) }
{
    match list.parent(index) {
        Some(parent) => last + parent,
        None => parent - 1,
    }
}

/// The row of a node of a list among other names and attributes, below the node at the index `above`.
fn rename_row(
    names: &mut Names,
    attrs: &mut Vec<AttrRow>,
    run: &mut Vec<AttrRow>,
    list: &NodeColumns,
    index: usize,
    above: u32,
) -> Result<NodeRow, NoMemory>
    requires index { index < length list.now.nodes }
    requires once { StandOnce names.old }
    ensures kept { KeepsRows names.old attrs.old.items names.new attrs.new.items }
    ensures once { StandOnce names.new }
    ensures row { IfOk result (IsRow names.new attrs.new.items) }
    ensures node { IfOk result (λ row. IfSome (slice_get list.now.nodes index) (λ node.
        node_seen names.new attrs.new.items row ≡ record node { parent = Some above })) }
{
    let row = list.rows[index];
    rename_attrs(names, run, &list.names, row.attrs.of(&list.attrs))?;
    let tag = names.intern(list.names.text(row.tag))?;
    let span = Span::new(attrs.len(), run.len())?;
    attrs.extend_from_slice(run)?;
    Ok(NodeRow {
        parent: Some(above),
        tag,
        states: row.states,
        attrs: span,
    })
}
