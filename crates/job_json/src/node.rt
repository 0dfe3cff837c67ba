//! One node of the list.

ghost use Rattle.std.specs.Prelude.{◌≡◌, ◌<◌, ℕ, length, Some, None, option_map, option_and_then, codes, IfOk, IfSome, OnOk};
ghost use Rattle.scene_model.specs.Nodes.{IsParentAt};
ghost use Rattle.serde_json.specs.Data.{Data, no_members};
ghost use Rattle.serde_json.specs.Find.{get};
ghost use Rattle.json_reader.specs.Taken.{taken};
ghost use Rattle.job_json.specs.Checked.{map_ok};
ghost use Rattle.job_json.specs.Words.{parent_at};
ghost use Rattle.job_json.specs.NewNodes.{TellsLimits};
ghost use Rattle.job_json.specs.Parts.{node_read};
ghost use Rattle.job_json.specs.Kept.{IsNodeOf, judged_seen, read_kept};

use crate::attributes::AttrList;
use crate::checked::Checked;
use crate::limits::Within;
use crate::name::name_in;
use crate::pointer::{in_member, to_member};
use crate::states::take_states;
use dom_tree::{NodeInput, States};
use json::Reader;
use json_reader::{KeepMembers, Stop, object, pass, text, whole};
use std::alloc::Global;
use stylo_base::{NoMemory, Text};

/// A node of the right shape.
#[derive(Drop)]
pub(crate) struct JudgedNode<'n> {
    /// The index of its parent. None: it is the root.
    pub parent: Option<usize>,
    /// The rest of it, or the limit that its attributes pass first.
    pub input: Within<NodeInput<'n>>,
}

/// What is kept of the members of a node. One is used again for each node.
#[derive(Drop)]
pub(crate) struct NodeParts<'a> {
    alloc: Global,
    /// Whether the value is an object.
    is_object: bool,
    tag: Option<&'a str>,
    /// The number that is named, which may be none. None: another shape is there.
    parent: Option<Option<u64>>,
    attrs: AttrList<'a>,
    states: Checked<States>,
}

impl<'a> KeepMembers<'a> for NodeParts<'a> {
    ghost use Rattle.job_json.specs.Kept.{IsNodeOf};

    ghost keeps = { IsNodeOf };

    #[inline(always)]
    fn member(&mut self, key: &'a str, reader: &mut Reader<'a>, depth: usize) -> Result<(), Stop> {
        match key {
            "tag" => self.tag = name_in(text(reader, depth)?),
            "parent" => self.parent = named(whole(reader, depth)?),
            "attrs" => self.attrs.read(reader, depth)?,
            "states" => self.states = take_states(self.alloc, reader, depth)?,
            _ => pass(reader, depth)?,
        }
        Ok(())
    }
}

impl<'a> NodeParts<'a> {
    /// A node with no members.
    pub fn new(alloc: Global) -> NodeParts<'a>
        ensures { IsNodeOf result no_members }
    {
        NodeParts {
            alloc,
            is_object: true,
            tag: None,
            parent: Some(None),
            attrs: AttrList::new(alloc),
            states: Ok(States::default()),
        }
    }

    /// Takes a node.
    pub fn read(&mut self, reader: &mut Reader<'a>, depth: usize) -> Result<(), Stop>
        ensures ok { OnOk result ((d : Data) × (taken depth reader.old ≡ Some (d, reader.new))
            × ((k : ℕ) → node_read k d ≡ read_kept k self.new)) }
        ensures limits { OnOk result
            (IfSome (taken depth reader.old) (λ read. TellsLimits (get (codes "attrs") read.0))) }
        ensures shorter { OnOk result (length reader.new < length reader.old) }
        ensures err { result ≡ Err Stop.NotJson → taken depth reader.old ≡ None }
    {
        self.clear();
        self.is_object = object(reader, depth, self)?;
        Ok(())
    }

    /// Removes all members.
    fn clear(&mut self)
        ensures { IsNodeOf self.new no_members }
    {
        self.tag = None;
        self.parent = Some(None);
        self.attrs.clear();
        self.states = Ok(States::default());
    }

    /// The node that was read, as the one at an index of the list.
    pub fn judge(&self, index: usize) -> Result<Checked<JudgedNode<'_>>, NoMemory>
        ensures node { IfOk result (λ node. map_ok judged_seen node ≡ read_kept index self.now) }
        ensures parent { IfOk result (λ node. IfOk node (λ n. IsParentAt index n.parent)) }
    {
        if !self.is_object {
            return Ok(Err(Text::new(self.alloc)));
        }
        let Some(tag) = self.tag else {
            return Ok(Err(to_member(self.alloc, "tag")?));
        };
        let Some(parent) = self.parent_at(index) else {
            return Ok(Err(to_member(self.alloc, "parent")?));
        };
        let attrs = match self.attrs.judged() {
            Ok(attrs) => attrs,
            Err(path) => return Ok(Err(in_member(self.alloc, "attrs", path)?)),
        };
        let states = match &self.states {
            Ok(states) => *states,
            Err(path) => return Ok(Err(in_member(self.alloc, "states", path)?)),
        };
        let input = match attrs {
            Ok(attrs) => Ok(NodeInput { tag, attrs, states }),
            Err(passed) => Err(passed),
        };
        Ok(Ok(JudgedNode { parent, input }))
    }

    /// The index of the parent of the node at an index. None: there is no such parent.
    fn parent_at(&self, index: usize) -> Option<Option<usize>>
        ensures { result ≡ option_and_then (parent_at index) self.now.parent }
    {
        parent_at(index, self.parent?)
    }
}

/// The number that is named, where it is one.
fn named(parent: Option<u64>) -> Option<Option<u64>>
    ensures { result ≡ option_map (λ p. Some p) parent }
{
    Some(Some(parent?))
}

/// The parent of the node at `index`. None: it names none where it must, or another number than
/// that of an earlier node.
fn parent_at(index: usize, parent: Option<u64>) -> Option<Option<usize>>
    ensures { result ≡ parent_at index parent }
{
    match parent {
        None if index == 0 => Some(None),
        Some(parent) if parent < index as u64 => Some(Some(parent as usize)),
        _ => None,
    }
}
