//! The nodes of an insertion.

ghost use Rattle.std.specs.Prelude.{◌≡◌, ◌<◌, [], length, Some, None, IfOk, OnOk};
ghost use Rattle.json_reader.specs.Taken.{taken, Says};
ghost use Rattle.scene_model.specs.Nodes.{IsParentAt};
ghost use Rattle.job_json.specs.NewNodes.{limit_told, new_nodes_in};
ghost use Rattle.job_json.specs.Held.{count_held, held_new, new_at_end};
ghost use Rattle.job_json.specs.Kept.{AreNewNodesOf, after_bad, judged_seen, held_of};

use crate::checked::{Checked, one_more};
use crate::kept_nodes::{KeptNodes, append};
use crate::node::{JudgedNode, NodeParts};
use crate::pointer::in_item;
use dom_edits::{NewNodes, NodeLimit};
use json::Reader;
use json_reader::{KeepItems, Stop, array, pass};
use std::alloc::Global;
use std::mem::replace;
use stylo_base::{Kind, NoMemory, Text};

/// What is kept of the items of a list of nodes that are to be put in.
#[derive(Drop)]
struct NewNodeItems<'a> {
    alloc: Global,
    /// The first bad place. What comes after it is passed over.
    bad: Option<Text>,
    /// The nodes before that place.
    kept: KeptNodes,
    /// The node that is read.
    node: NodeParts<'a>,
}

impl<'a> KeepItems<'a> for NewNodeItems<'a> {
    ghost use Rattle.job_json.specs.Kept.{AreNewNodesOf};

    ghost keeps = { AreNewNodesOf };

    fn item(&mut self, reader: &mut Reader<'a>, depth: usize) -> Result<(), Stop> {
        if self.bad.is_some() {
            pass(reader, depth)?;
            return Ok(());
        }
        self.node.read(reader, depth)?;
        let index = self.kept.count()?;
        match self.node.judge(index)? {
            Ok(node) => self.kept.push_new(self.alloc, index, node)?,
            Err(path) => self.bad = Some(in_item(self.alloc, index, &path)?),
        }
        Ok(())
    }
}

impl KeptNodes {
    /// Counts one more node of an insertion, the one at this index, and keeps it where no node passes a limit
    /// by itself.
    fn push_new(
        &mut self,
        alloc: Global,
        index: usize,
        node: JudgedNode<'_>,
    ) -> Result<(), NoMemory>
        requires index { index ≡ count_held (held_of self.old) }
        requires parent { IsParentAt index node.parent }
        ensures { OnOk result (held_of self.new ≡ held_new (held_of self.old) (judged_seen node.entry)) }
    {
        if self.more > 0 {
            self.more = one_more(self.more)?;
            return Ok(());
        }
        match node.input {
            Ok(input) => append(alloc, &mut self.list, node.parent, input)?,
            Err(passed) => {
                self.passed = Some(passed);
                self.more = 1;
            }
        }
        Ok(())
    }

    /// All nodes, which are not to be none, or the limit that one of them passes first.
    fn finish_new(self, alloc: Global) -> Result<Checked<NewNodes>, NoMemory>
        ensures { IfOk result (λ nodes. nodes ≡ new_at_end (held_of self)) }
    {
        let KeptNodes { passed, list, .. } = self;
        if let Some(passed) = passed {
            return Ok(Ok(NewNodes::Past(limit_told(passed.0))));
        }
        let Some(list) = list else {
            return Ok(Err(Text::new(alloc)));
        };
        Ok(Ok(NewNodes::of(alloc, list)?))
    }
}

/// The limit of a node that this kind is.
fn limit_told(kind: Kind) -> NodeLimit
    ensures { result ≡ limit_told kind }
{
    match kind {
        Kind::Attributes => NodeLimit::Attributes,
        _ => NodeLimit::Value,
    }
}

/// Takes a list of nodes that are to be put in.
#[inline(never)]
pub(crate) fn take_new_nodes(
    alloc: Global,
    reader: &mut Reader<'_>,
    depth: usize,
) -> Result<Checked<NewNodes>, Stop>
    ensures ok { IfOk result (λ nodes. Says (λ d. new_nodes_in (Some d)) nodes
        (taken depth reader.old) reader.new) }
    ensures shorter { OnOk result (length reader.new < length reader.old) }
    ensures err { result ≡ Err Stop.NotJson → taken depth reader.old ≡ None }
{
    let mut nodes = NewNodeItems::new(alloc);
    read_new_nodes(&mut nodes, reader, depth)
}

/// Takes the list into `kept`, which is empty, and makes the nodes of it.
fn read_new_nodes<'a>(
    kept: &mut NewNodeItems<'a>,
    reader: &mut Reader<'a>,
    depth: usize,
) -> Result<Checked<NewNodes>, Stop>
    requires { AreNewNodesOf kept.old [] }
    ensures ok { IfOk result (λ nodes. Says (λ d. new_nodes_in (Some d)) nodes
        (taken depth reader.old) reader.new) }
    ensures shorter { OnOk result (length reader.new < length reader.old) }
    ensures err { result ≡ Err Stop.NotJson → taken depth reader.old ≡ None }
{
    if !array(reader, depth, kept)? {
        return Ok(Err(Text::new(kept.alloc)));
    }
    Ok(kept.finish()?)
}

impl<'a> NewNodeItems<'a> {
    /// No items.
    fn new(alloc: Global) -> NewNodeItems<'a>
        ensures { AreNewNodesOf result [] }
    {
        NewNodeItems {
            alloc,
            bad: None,
            kept: KeptNodes::new(),
            node: NodeParts::new(alloc),
        }
    }

    /// All nodes, or the first bad place. Both are taken out.
    fn finish(&mut self) -> Result<Checked<NewNodes>, NoMemory>
        ensures { IfOk result (λ nodes. nodes ≡ after_bad self.old.bad (new_at_end (held_of self.old.kept))) }
    {
        match replace(&mut self.bad, None) {
            None => replace(&mut self.kept, KeptNodes::new()).finish_new(self.alloc),
            Some(path) => Ok(Err(path)),
        }
    }
}
