//! The list of nodes.

ghost use Rattle.std.specs.Prelude.{◌≡◌, ◌<◌, [], length, Some, None, IfOk, OnOk};
ghost use Rattle.json_reader.specs.Taken.{taken, Says};
ghost use Rattle.scene_model.specs.Nodes.{IsParentAt};
ghost use Rattle.dom_tree.specs.Depths.{depths_of};
ghost use Rattle.job_json.specs.Parts.{nodes_read};
ghost use Rattle.job_json.specs.Held.{count_held, held_next, held_at_end, depth_below, node_within, nodes_or_none};
ghost use Rattle.job_json.specs.Kept.{AreNodesOf, after_bad, judged_seen, held_of};

use crate::checked::{Checked, one_more};
use crate::kept_nodes::{KeptNodes, append};
use crate::limits::{Within, past};
use crate::node::{JudgedNode, NodeParts};
use crate::pointer::in_item;
use dom_tree::{NodeInput, NodeList};
use json::Reader;
use json_reader::{KeepItems, Stop, array, pass};
use std::alloc::Global;
use std::mem::replace;
use stylo_base::limits::{DEPTH_LIMIT, ELEMENT_LIMIT};
use stylo_base::{Kind, NoMemory, Text};

/// What is kept of the items of a list of nodes.
#[derive(Drop)]
struct Nodes<'a> {
    alloc: Global,
    /// The first bad place. What comes after it is passed over.
    bad: Option<Text>,
    /// The nodes before that place.
    kept: KeptNodes,
    /// The node that is read.
    node: NodeParts<'a>,
}

impl<'a> KeepItems<'a> for Nodes<'a> {
    ghost use Rattle.job_json.specs.Kept.{AreNodesOf};

    ghost keeps = { AreNodesOf };

    fn item(&mut self, reader: &mut Reader<'a>, depth: usize) -> Result<(), Stop> {
        if self.bad.is_some() {
            pass(reader, depth)?;
            return Ok(());
        }
        self.node.read(reader, depth)?;
        let index = self.kept.count()?;
        match self.node.judge(index)? {
            Ok(node) => self.kept.push(self.alloc, index, node)?,
            Err(path) => self.bad = Some(in_item(self.alloc, index, &path)?),
        }
        Ok(())
    }
}

impl KeptNodes {
    /// Counts one more node, the one at this index, and keeps it where no limit is passed.
    fn push(&mut self, alloc: Global, index: usize, node: JudgedNode<'_>) -> Result<(), NoMemory>
        requires index { index ≡ count_held (held_of self.old) }
        requires parent { IsParentAt index node.parent }
        ensures { OnOk result
            (held_of self.new ≡ held_next (held_of self.old) node.entry.parent (judged_seen node.entry)) }
    {
        if self.more > 0 || index >= ELEMENT_LIMIT {
            self.more = one_more(self.more)?;
            return Ok(());
        }
        let depth = self.depth_below(node.parent);
        match within(node.input, depth) {
            Ok(input) => {
                append(alloc, &mut self.list, node.parent, input)?;
            }
            Err(passed) => {
                self.passed = Some(passed);
                self.more = 1;
            }
        }
        Ok(())
    }

    /// The whole list, which is not to be empty.
    fn finish(self, alloc: Global) -> Result<Checked<Within<NodeList>>, NoMemory>
        ensures { IfOk result (λ nodes. nodes ≡ held_at_end (held_of self)) }
    {
        let count = self.count()?;
        let KeptNodes { passed, list, .. } = self;
        if let Some(passed) = past(Kind::Elements, ELEMENT_LIMIT, count).or(passed) {
            return Ok(Ok(Err(passed)));
        }
        match list {
            Some(list) => Ok(Ok(Ok(list))),
            None => Ok(Err(Text::new(alloc))),
        }
    }

    /// The depth of a node with this parent. The root has 1.
    fn depth_below(&self, parent: Option<usize>) -> usize
        ensures { result ≡ depth_below (depths_of (nodes_or_none self.now.list)) parent }
    {
        let Some(parent) = parent else {
            return 1;
        };
        let Some(list) = &self.list else {
            return 1;
        };
        let depths = list.depths();
        if parent < depths.len() {
            depths[parent].saturating_add(1)
        } else {
            1
        }
    }
}

/// The node, where it is not too deep.
fn within(input: Within<NodeInput<'_>>, depth: usize) -> Within<NodeInput<'_>>
    ensures { result ≡ node_within input.entry depth }
{
    let input = input?;
    match past(Kind::Depth, DEPTH_LIMIT as usize, depth) {
        None => Ok(input),
        Some(passed) => Err(passed),
    }
}

/// Takes a list of nodes.
pub(crate) fn take_nodes(
    alloc: Global,
    reader: &mut Reader<'_>,
    depth: usize,
) -> Result<Checked<Within<NodeList>>, Stop>
    ensures ok { IfOk result (λ nodes. Says (λ d. nodes_read (Some d)) nodes
        (taken depth reader.old) reader.new) }
    ensures shorter { OnOk result (length reader.new < length reader.old) }
    ensures err { result ≡ Err Stop.NotJson → taken depth reader.old ≡ None }
{
    let mut nodes = Nodes::new(alloc);
    read_nodes(&mut nodes, reader, depth)
}

/// Takes the list into `kept`, which is empty, and makes the nodes of it.
fn read_nodes<'a>(
    kept: &mut Nodes<'a>,
    reader: &mut Reader<'a>,
    depth: usize,
) -> Result<Checked<Within<NodeList>>, Stop>
    requires { AreNodesOf kept.old [] }
    ensures ok { IfOk result (λ nodes. Says (λ d. nodes_read (Some d)) nodes
        (taken depth reader.old) reader.new) }
    ensures shorter { OnOk result (length reader.new < length reader.old) }
    ensures err { result ≡ Err Stop.NotJson → taken depth reader.old ≡ None }
{
    if !array(reader, depth, kept)? {
        return Ok(Err(Text::new(kept.alloc)));
    }
    Ok(kept.finish()?)
}

impl<'a> Nodes<'a> {
    /// No items.
    fn new(alloc: Global) -> Nodes<'a>
        ensures { AreNodesOf result [] }
    {
        Nodes {
            alloc,
            bad: None,
            kept: KeptNodes::new(),
            node: NodeParts::new(alloc),
        }
    }

    /// The whole list, or the first bad place. Both are taken out.
    fn finish(&mut self) -> Result<Checked<Within<NodeList>>, NoMemory>
        ensures { IfOk result (λ nodes. nodes ≡ after_bad self.old.bad (held_at_end (held_of self.old.kept))) }
    {
        match replace(&mut self.bad, None) {
            None => replace(&mut self.kept, KeptNodes::new()).finish(self.alloc),
            Some(path) => Ok(Err(path)),
        }
    }
}
