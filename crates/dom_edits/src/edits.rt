//! The edits of a document and of its style sheets.

ghost use Rattle.std.specs.Prelude.{◌≡◌, IfOk};
ghost use Rattle.scene_model.specs.Nodes.{IsNodeList};
ghost use Rattle.edit_model.specs.Edit.{IsShaped};
ghost use Rattle.dom_edits.specs.declared.edits.NewNodes.TheVariants.{Kept};
ghost use Rattle.dom_edits.specs.EditView.{doc_edit_seen, kept_count, new_count, nodes_seen};

use dom_tree::NodeList;
use layer_order::Origin;
use std::alloc::Global;
use std::marker::Model;
use std::sync::Arc;
use stylo_base::{NoMemory, State, Text};

/// An edit of a document. It names elements by number. An index is that among the children, from 0.
#[derive(Drop)]
pub enum DocEdit {
    /// Puts nodes in: their root becomes a child of an element, at an index.
    Insert {
        parent: u64,
        index: u64,
        nodes: NewNodes,
    },
    /// Takes an element out, and all that is below it.
    Remove {
        node: u64,
    },
    /// Moves an element, and all that is below it: it becomes a child of another one, at an index, which counts
    /// without it.
    Move {
        node: u64,
        parent: u64,
        index: u64,
    },
    /// Gives an attribute of an element a value.
    Set {
        node: u64,
        name: Text,
        value: Text,
    },
    /// Takes an attribute of an element away. That it is absent is no fault.
    Unset {
        node: u64,
        name: Text,
    },
    /// Puts an element into a state, or takes it out of it.
    State {
        node: u64,
        state: State,
        on: bool,
    },
}

impl DocEdit {
    /// How many nodes it puts in. Those that are not kept don't count.
    pub fn new_count(&self) -> usize
        ensures count { result ≡ new_count self.now }
        ensures shaped { IsShaped (doc_edit_seen self.now) }
    {
        match self {
            DocEdit::Insert { nodes, .. } => nodes.count(),
            _ => 0,
        }
    }
}

/// The nodes of an insertion.
#[derive(Drop)]
pub enum NewNodes {
    /// These.
    Kept(SharedNodes),
    /// Nodes that are not kept, since they will be refused: this limit is the first that one of them passes by
    /// itself, and an earlier one passes none.
    Past(NodeLimit),
}

/// A list of nodes in a place of its own, so that an edit stays short. Edits may share it. Contracts see the list.
#[derive(Drop)]
pub struct SharedNodes {
    list: Arc<NodeList>,
}

impl Model for SharedNodes {
    ghost use Rattle.std.specs.Prelude.{List};
    ghost use Rattle.std.specs.Arc.{arc_value};
    ghost use Rattle.scene_model.specs.Nodes.{Node, nodes_code};

    ghost Value = { List Node };

    ghost coded = { nodes_code };

    ghost view = { λ n. arc_value n.list };
}

impl SharedNodes {
    /// This list.
    pub fn of(alloc: Global, list: NodeList) -> Result<SharedNodes, NoMemory>
        ensures { IfOk result (λ nodes. nodes ≡ list) }
    {
        Ok(SharedNodes {
            list: Arc::new(alloc, list)?,
        })
    }

    /// The same list, which is shared.
    pub fn share(&self) -> Result<SharedNodes, NoMemory>
        ensures { IfOk result (λ nodes. nodes ≡ self.now) }
    {
        Ok(SharedNodes {
            list: Arc::try_clone(&self.list)?,
        })
    }

    /// The list.
    pub fn list(&self) -> &NodeList
        ensures { result.now ≡ self.now }
    {
        &self.list
    }
}

impl NewNodes {
    /// These nodes.
    pub fn of(alloc: Global, list: NodeList) -> Result<NewNodes, NoMemory>
        ensures { IfOk result (λ nodes. nodes ≡ Kept list) }
    {
        Ok(NewNodes::Kept(SharedNodes::of(alloc, list)?))
    }

    /// How many there are. Those that are not kept don't count.
    pub(crate) fn count(&self) -> usize
        ensures count { result ≡ kept_count self.now }
        ensures shaped { IsNodeList (nodes_seen self.now) }
    {
        match self {
            NewNodes::Kept(nodes) => nodes.list().len(),
            NewNodes::Past(_) => 0,
        }
    }
}

/// A limit that a node can pass by itself.
#[derive(Clone, Copy, Debug, PartialEq, Eq)]
pub enum NodeLimit {
    /// That of the number of attributes.
    Attributes,
    /// That of the bytes of a value.
    Value,
}

/// An edit of the style sheets. It names sheets by number.
#[derive(Drop)]
pub enum SheetEdit {
    /// Puts a sheet into the list, at an index from 0. It gets the next number.
    Add {
        index: u64,
        origin: Origin,
        enabled: bool,
        text: Text,
    },
    /// Takes a sheet out of the list.
    Remove {
        sheet: u64,
    },
    /// Gives a sheet another text. The text that it has already changes nothing.
    Replace {
        sheet: u64,
        text: Text,
    },
    /// Lets a sheet take part, or keeps it from it.
    Enable {
        sheet: u64,
        on: bool,
    },
}

/// An edit.
#[derive(Drop)]
pub enum Edit {
    /// Of the document.
    Document(DocEdit),
    /// Of the style sheets.
    Sheets(SheetEdit),
}
