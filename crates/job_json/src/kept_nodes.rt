//! The nodes that are kept of a list.

ghost use Rattle.std.specs.Prelude.{◌≡◌, ◌++◌, ◌∷◌, [], length, true, IfOk, None, OnErr, OnOk};
ghost use Rattle.scene_model.specs.Nodes.{IsParentAt};
ghost use Rattle.dom_tree.specs.View.{node_of};
ghost use Rattle.job_json.specs.Held.{count_held, has_nodes, nodes_or_none};

use crate::limits::Passed;
use dom_tree::{NodeInput, NodeList};
use std::alloc::Global;
use stylo_base::NoMemory;

/// The nodes of a list, as long as they pass no limit.
#[derive(Drop)]
pub(crate) struct KeptNodes {
    /// The limit that a node passes first.
    pub passed: Option<Passed>,
    /// The nodes before that one, and before there are too many. None: there is none yet.
    pub list: Option<NodeList>,
    /// How many nodes come after these.
    pub more: usize,
    ghost some: { has_nodes list ≡ true },
}

impl KeptNodes {
    ghost use Rattle.job_json.specs.Kept.{held_of};

    /// None yet.
    pub fn new() -> KeptNodes
        ensures passed { result.passed ≡ None }
        ensures list { result.list ≡ None }
        ensures more { result.more ≡ 0 }
    {
        KeptNodes {
            passed: None,
            list: None,
            more: 0,
        }
    }

    /// How many nodes there are.
    pub fn count(&self) -> Result<usize, NoMemory>
        ensures { IfOk result (λ count. count ≡ count_held (held_of self.now)) }
    {
        let kept = match &self.list {
            Some(list) => list.len(),
            None => 0,
        };
        match kept.checked_add(self.more) {
            Some(count) => Ok(count),
            None => Err(NoMemory),
        }
    }
}

/// Appends a node, as a child of the node at the index `parent`. What can't be named can't be kept either.
pub(crate) fn append(
    alloc: Global,
    list: &mut Option<NodeList>,
    parent: Option<usize>,
    node: NodeInput<'_>,
) -> Result<(), NoMemory>
    requires { IsParentAt (length (nodes_or_none list.old)) parent }
    ensures ok { OnOk result
        (nodes_or_none list.new ≡ nodes_or_none list.old ++ node_of parent node.entry ∷ []) }
    ensures err { OnErr result (list.new ≡ list.old) }
{
    match parent {
        None => begin(alloc, list, node)?,
        Some(parent) => {
            let Ok(parent) = u32::try_from(parent) else {
                return Err(NoMemory);
            };
            if let Some(list) = list {
                list.push(parent, node)?;
            }
        }
    }
    Ok(())
}

/// Makes a list of the root alone.
fn begin(alloc: Global, list: &mut Option<NodeList>, root: NodeInput<'_>) -> Result<(), NoMemory>
    ensures ok { OnOk result (nodes_or_none list.new ≡ node_of None root.entry ∷ []) }
    ensures err { OnErr result (list.new ≡ list.old) }
{
    *list = Some(NodeList::of_root(alloc, root)?);
    Ok(())
}
