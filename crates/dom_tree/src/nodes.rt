//! The list of nodes of a job or an insertion, each after its parent.

ghost use Rattle.std.specs.Prelude.{◌≡◌, ◌<◌, ◌≤◌, ◌↔◌, ℕ, ◌++◌, ◌∷◌, [], Some, None, IfSome, length, IfOk, OnOk, OnErr, encode_utf8_all, nat_le, slice_get};
ghost use Rattle.std.specs.FinMap as finmap;
ghost use Rattle.std.specs.List.{AllByRecursion, list_all};
ghost use Rattle.scene_model.specs.Nodes.{IsNodeList};
ghost use Rattle.dom_tree.specs.Depths.{depths_of};
ghost use Rattle.dom_tree.specs.View.{node_of};

use crate::node_columns::NodeColumns;
use std::alloc::Global;
use std::marker::Model;
use stylo_base::NoMemory;

/// The state bits of an element.
#[derive(Clone, Copy, Debug, Default, PartialEq, Eq)]
pub struct States {
    pub hover: bool,
    pub active: bool,
    pub focus: bool,
}

/// An attribute, which is lent.
#[derive(Clone, Copy, Debug)]
pub struct Attr<'a> {
    pub name: &'a str,
    pub value: &'a str,
}

/// A node without its parent, which is lent. Of attributes with the same name the first counts.
#[derive(Clone, Copy, Debug)]
pub struct NodeInput<'a> {
    pub tag: &'a str,
    pub attrs: &'a [Attr<'a>],
    pub states: States,
}

/// A list of nodes that is not empty: the first is the root, and each other one is after its
/// parent. Contracts see the list of its nodes.
#[derive(Drop)]
pub struct NodeList {
    columns: NodeColumns,
    /// The depth of each node.
    depths: Vec<usize>,
}

impl Model for NodeList {
    ghost use Rattle.std.specs.Prelude.{◌≡◌, List};
    ghost use Rattle.scene_model.specs.Nodes.{Node, nodes_code, IsNodeList};
    ghost use Rattle.stylo_base.specs.NameList.{StandOnce};
    ghost use Rattle.dom_tree.specs.Depths.{depths_of};

    ghost Value = { List Node };

    ghost coded = { nodes_code };

    ghost view = { λ l. l.columns.nodes };

    ghost invariant = { λ l. IsNodeList l.columns.nodes × (l.depths.items ≡ depths_of l.columns.nodes)
        × StandOnce l.columns.names };
}

impl NodeList {
    /// The list of a root alone.
    pub fn of_root(alloc: Global, root: NodeInput) -> Result<NodeList, NoMemory>
        ensures { IfOk result (λ list. list ≡ node_of None root.entry ∷ []) }
    {
        let depths = vec![in alloc; 1; 1]?;
        let mut columns = NodeColumns::new(alloc);
        columns.push(None, root)?;
        Ok(NodeList { columns, depths })
    }

    /// Appends a node to the list, as a child of the node at the index `parent`.
    pub fn push(&mut self, parent: u32, node: NodeInput) -> Result<(), NoMemory>
        requires { parent < length self.old }
        ensures ok { OnOk result (self.new ≡ self.old ++ node_of (Some parent) node.entry ∷ []) }
        ensures err { OnErr result (self.new ≡ self.old) }
    {
        let depth = self.depths[parent as usize] + 1;
        self.depths.reserve(1)?;
        self.columns.push(Some(parent), node)?;
        self.depths.push_reserved(depth);
        Ok(())
    }

    /// How many nodes there are, from 1.
    pub fn len(&self) -> usize
        ensures count { result ≡ length self.now }
        ensures shape { IsNodeList self.now }
    {
        self.columns.len()
    }

    /// The index of a node's parent. None: it is the root.
    pub fn parent(&self, index: usize) -> Option<u32>
        requires { index < length self.now }
        ensures { IfSome (slice_get self.now index) (λ node. result ≡ node.parent) }
    {
        self.columns.parent(index)
    }

    /// How many attributes a node has.
    pub fn attribute_count(&self, index: usize) -> usize
        requires { index < length self.now }
        ensures { IfSome (slice_get self.now index) (λ node. result ≡ finmap.len node.attrs) }
    {
        self.columns.attribute_count(index)
    }

    /// How many bytes the longest value of an attribute of a node has. Without attributes it is 0.
    pub fn longest_value(&self, index: usize) -> usize
        requires { index < length self.now }
        ensures { (n : ℕ) → IfSome (slice_get self.now index) (λ node. nat_le result n
            ≡ list_all (λ text. nat_le (length (encode_utf8_all text)) n) (finmap.values node.attrs)) }
    {
        self.columns.longest_value(index)
    }

    /// The depth of each node, in list order. The root has 1.
    pub fn depths(&self) -> &[usize]
        ensures { result.now ≡ depths_of self.now }
    {
        self.depths.as_slice()
    }

    /// The greatest depth of a node. The root has 1.
    pub fn deepest(&self) -> usize
        ensures { (n : ℕ) → (result ≤ n) ↔ AllByRecursion (λ depth. depth ≤ n) (depths_of self.now) }
    {
        greatest(&self.depths)
    }

    /// What is kept of the nodes, which is lent.
    pub(crate) fn columns(&self) -> &NodeColumns
        ensures nodes { result.now.nodes ≡ self.now }
        ensures shape { IsNodeList self.now }
    {
        &self.columns
    }

    /// Another list of the same nodes.
    pub(crate) fn copy(&self, alloc: Global) -> Result<NodeList, NoMemory>
        ensures { IfOk result (λ list. list ≡ self.now) }
    {
        Ok(NodeList {
            depths: Vec::from_slice(alloc, &self.depths)?,
            columns: self.columns.copy(alloc)?,
        })
    }

    /// What is kept of the nodes.
    pub(crate) fn into_columns(self) -> NodeColumns
        ensures nodes { result.nodes ≡ self }
        ensures shape { IsNodeList self }
    {
        let NodeList { columns, .. } = self;
        columns
    }
}

/// The greatest of some numbers. Of none it is 0.
fn greatest(numbers: &[usize]) -> usize
    ensures { (n : ℕ) → (result ≤ n) ↔ AllByRecursion (λ number. number ≤ n) numbers.now }
{
    let mut most = 0;
    for number in numbers {
        if most < *number {
            most = *number;
        }
    }
    most
}
