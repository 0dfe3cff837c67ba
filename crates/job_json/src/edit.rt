//! One edit of a batch.

ghost use Rattle.std.specs.Prelude.{◌≡◌, ◌≢◌, ◌<◌, length, codes, Some, None, Err, IfOk, OnOk};
ghost use Rattle.serde_json.specs.Data.{Data, Members, no_members, put};
ghost use Rattle.json_reader.specs.Taken.{taken, Says};
ghost use Rattle.job_json.specs.Checked.{map_ok};
ghost use Rattle.job_json.specs.Edits.{edit_in};
ghost use Rattle.job_json.specs.KeptEdits.{IsEditOf, lent_seen, insert_kept, remove_kept, move_kept, set_kept, unset_kept, state_kept, edit_kept};
ghost use Rattle.job_json.specs.KeptEdits.{add_sheet_kept, remove_sheet_kept, replace_sheet_kept, enable_sheet_kept};

use crate::checked::Checked;
use crate::name::name_in;
use crate::new_nodes::take_new_nodes;
use crate::pointer::{in_member, to_member};
use crate::sheet::SheetParts;
use crate::sheet_edit::LentSheetEdit;
use crate::states::state_named;
use dom_edits::{DocEdit, Edit, NewNodes};
use json::Reader;
use json_reader::{KeepMembers, Stop, boolean, object, text, whole};
use std::alloc::Global;
use std::mem::replace;
use stylo_base::{NoMemory, State, Text};

/// An edit of the right shape, its texts still in the input.
#[derive(Drop)]
pub(crate) enum LentEdit<'a> {
    Insert {
        parent: u64,
        index: u64,
        nodes: NewNodes,
    },
    Remove {
        node: u64,
    },
    Move {
        node: u64,
        parent: u64,
        index: u64,
    },
    Set {
        node: u64,
        name: &'a str,
        value: &'a str,
    },
    Unset {
        node: u64,
        name: &'a str,
    },
    State {
        node: u64,
        state: State,
        on: bool,
    },
    Sheets(LentSheetEdit<'a>),
}

impl<'a> LentEdit<'a> {
    /// The edit, with texts of its own.
    pub fn owned(self, alloc: Global) -> Result<Edit, NoMemory>
        ensures { IfOk result (λ edit. edit ≡ lent_seen self.entry) }
    {
        let edit = match self {
            LentEdit::Insert {
                parent,
                index,
                nodes,
            } => DocEdit::Insert {
                parent,
                index,
                nodes,
            },
            LentEdit::Remove { node } => DocEdit::Remove { node },
            LentEdit::Move {
                node,
                parent,
                index,
            } => DocEdit::Move {
                node,
                parent,
                index,
            },
            LentEdit::Set { node, name, value } => DocEdit::Set {
                node,
                name: Text::of_str(alloc, name)?,
                value: Text::of_str(alloc, value)?,
            },
            LentEdit::Unset { node, name } => DocEdit::Unset {
                node,
                name: Text::of_str(alloc, name)?,
            },
            LentEdit::State { node, state, on } => DocEdit::State { node, state, on },
            LentEdit::Sheets(edit) => return Ok(Edit::Sheets(edit.owned(alloc)?)),
        };
        Ok(Edit::Document(edit))
    }
}

/// What is kept of the members of an edit. None: it is not what it must be.
#[derive(Drop)]
struct EditParts<'a> {
    alloc: Global,
    op: Option<&'a str>,
    node: Option<u64>,
    parent: Option<u64>,
    index: Option<u64>,
    /// Or the first bad place.
    nodes: Checked<NewNodes>,
    name: Option<&'a str>,
    value: Option<&'a str>,
    state: Option<State>,
    on: Option<bool>,
    sheet: Option<u64>,
    /// The members that a sheet of a job has too.
    input: SheetParts<'a>,
}

impl<'a> KeepMembers<'a> for EditParts<'a> {
    ghost use Rattle.job_json.specs.KeptEdits.{IsEditOf};

    ghost keeps = { IsEditOf };

    // (the members of the edits that jobs have most come first)
    #[inline]
    fn member(&mut self, key: &'a str, reader: &mut Reader<'a>, depth: usize) -> Result<(), Stop> {
        match key {
            "op" => self.op = text(reader, depth)?,
            "node" => self.node = whole(reader, depth)?,
            "name" => self.name = name_in(text(reader, depth)?),
            "value" => self.value = text(reader, depth)?,
            _ => self.place_member(key, reader, depth)?,
        }
        Ok(())
    }
}

impl<'a> EditParts<'a> {
    /// An edit with no members.
    fn new(alloc: Global) -> EditParts<'a>
        ensures { IsEditOf result no_members }
    {
        EditParts {
            alloc,
            op: None,
            node: None,
            parent: None,
            index: None,
            nodes: Err(Text::new(alloc)),
            name: None,
            value: None,
            state: None,
            on: None,
            sheet: None,
            input: SheetParts::new(),
        }
    }

    /// Takes the value of a member that says where an element goes, or of one that is rarer still.
    fn place_member(
        &mut self,
        key: &'a str,
        reader: &mut Reader<'a>,
        depth: usize,
    ) -> Result<(), Stop>
        requires op { key.now ≢ codes "op" }
        requires node { key.now ≢ codes "node" }
        requires name { key.now ≢ codes "name" }
        requires value { key.now ≢ codes "value" }
        ensures ok { OnOk result ((d : Data) × (taken depth reader.old ≡ Some (d, reader.new))
            × ((ms : Members) → IsEditOf self.old ms → IsEditOf self.new (put key.now d ms))) }
        ensures shorter { OnOk result (length reader.new < length reader.old) }
        ensures err { result ≡ Err Stop.NotJson → taken depth reader.old ≡ None }
    {
        match key {
            "parent" => self.parent = whole(reader, depth)?,
            "index" => self.index = whole(reader, depth)?,
            "nodes" => self.nodes = take_new_nodes(self.alloc, reader, depth)?,
            _ => self.rare_member(key, reader, depth)?,
        }
        Ok(())
    }

    /// Takes the value of a member of a change of state or of an edit of the sheets.
    fn rare_member(
        &mut self,
        key: &'a str,
        reader: &mut Reader<'a>,
        depth: usize,
    ) -> Result<(), Stop>
        requires op { key.now ≢ codes "op" }
        requires node { key.now ≢ codes "node" }
        requires name { key.now ≢ codes "name" }
        requires value { key.now ≢ codes "value" }
        requires parent { key.now ≢ codes "parent" }
        requires index { key.now ≢ codes "index" }
        requires nodes { key.now ≢ codes "nodes" }
        ensures ok { OnOk result ((d : Data) × (taken depth reader.old ≡ Some (d, reader.new))
            × ((ms : Members) → IsEditOf self.old ms → IsEditOf self.new (put key.now d ms))) }
        ensures shorter { OnOk result (length reader.new < length reader.old) }
        ensures err { result ≡ Err Stop.NotJson → taken depth reader.old ≡ None }
    {
        match key {
            "state" => self.state = state_named(text(reader, depth)?),
            "on" => self.on = boolean(reader, depth)?,
            "sheet" => self.sheet = whole(reader, depth)?,
            _ => self.input.member(key, reader, depth)?,
        }
        Ok(())
    }
}

/// Takes an edit.
pub(crate) fn take_edit<'a>(
    alloc: Global,
    reader: &mut Reader<'a>,
    depth: usize,
) -> Result<Checked<LentEdit<'a>>, Stop>
    ensures ok { IfOk result (λ edit. Says edit_in (map_ok lent_seen edit)
        (taken depth reader.old) reader.new) }
    ensures shorter { OnOk result (length reader.new < length reader.old) }
    ensures err { result ≡ Err Stop.NotJson → taken depth reader.old ≡ None }
{
    let mut parts = EditParts::new(alloc);
    if !object(reader, depth, &mut parts)? {
        return Ok(Err(Text::new(alloc)));
    }
    Ok(parts.judge()?)
}

impl<'a> EditParts<'a> {
    /// The edit of the members: its word first. The nodes are taken out, so that the parts aren't moved for each edit.
    fn judge(&mut self) -> Result<Checked<LentEdit<'a>>, NoMemory>
        ensures { IfOk result (λ edit. map_ok lent_seen edit ≡ edit_kept self.old) }
    {
        let Some(word) = self.op else {
            return Ok(Err(to_member(self.alloc, "op")?));
        };
        match word {
            "insert" => self.insert(),
            "remove" => self.remove(),
            "move" => self.move_to(),
            "set" => self.set(),
            "unset" => self.unset(),
            "state" => self.state(),
            "add_sheet" => self.add_sheet(),
            "remove_sheet" => self.remove_sheet(),
            "replace_sheet" => self.replace_sheet(),
            "enable_sheet" => self.enable_sheet(),
            _ => Ok(Err(to_member(self.alloc, "op")?)),
        }
    }

    fn insert(&mut self) -> Result<Checked<LentEdit<'a>>, NoMemory>
        ensures { IfOk result (λ edit. map_ok lent_seen edit ≡ insert_kept self.old) }
    {
        let Some(parent) = self.parent else {
            return Ok(Err(to_member(self.alloc, "parent")?));
        };
        let Some(index) = self.index else {
            return Ok(Err(to_member(self.alloc, "index")?));
        };
        match replace(&mut self.nodes, Err(Text::new(self.alloc))) {
            Ok(nodes) => Ok(Ok(LentEdit::Insert {
                parent,
                index,
                nodes,
            })),
            Err(path) => Ok(Err(in_member(self.alloc, "nodes", &path)?)),
        }
    }

    fn remove(&self) -> Result<Checked<LentEdit<'a>>, NoMemory>
        ensures { IfOk result (λ edit. map_ok lent_seen edit ≡ remove_kept self.now) }
    {
        let Some(node) = self.node else {
            return Ok(Err(to_member(self.alloc, "node")?));
        };
        Ok(Ok(LentEdit::Remove { node }))
    }

    fn move_to(&self) -> Result<Checked<LentEdit<'a>>, NoMemory>
        ensures { IfOk result (λ edit. map_ok lent_seen edit ≡ move_kept self.now) }
    {
        let Some(node) = self.node else {
            return Ok(Err(to_member(self.alloc, "node")?));
        };
        let Some(parent) = self.parent else {
            return Ok(Err(to_member(self.alloc, "parent")?));
        };
        let Some(index) = self.index else {
            return Ok(Err(to_member(self.alloc, "index")?));
        };
        Ok(Ok(LentEdit::Move {
            node,
            parent,
            index,
        }))
    }

    fn set(&self) -> Result<Checked<LentEdit<'a>>, NoMemory>
        ensures { IfOk result (λ edit. map_ok lent_seen edit ≡ set_kept self.now) }
    {
        let Some(node) = self.node else {
            return Ok(Err(to_member(self.alloc, "node")?));
        };
        let Some(name) = self.name else {
            return Ok(Err(to_member(self.alloc, "name")?));
        };
        let Some(value) = self.value else {
            return Ok(Err(to_member(self.alloc, "value")?));
        };
        Ok(Ok(LentEdit::Set { node, name, value }))
    }

    fn unset(&self) -> Result<Checked<LentEdit<'a>>, NoMemory>
        ensures { IfOk result (λ edit. map_ok lent_seen edit ≡ unset_kept self.now) }
    {
        let Some(node) = self.node else {
            return Ok(Err(to_member(self.alloc, "node")?));
        };
        let Some(name) = self.name else {
            return Ok(Err(to_member(self.alloc, "name")?));
        };
        Ok(Ok(LentEdit::Unset { node, name }))
    }

    fn state(&self) -> Result<Checked<LentEdit<'a>>, NoMemory>
        ensures { IfOk result (λ edit. map_ok lent_seen edit ≡ state_kept self.now) }
    {
        let Some(node) = self.node else {
            return Ok(Err(to_member(self.alloc, "node")?));
        };
        let Some(state) = self.state else {
            return Ok(Err(to_member(self.alloc, "state")?));
        };
        let Some(on) = self.on else {
            return Ok(Err(to_member(self.alloc, "on")?));
        };
        Ok(Ok(LentEdit::State { node, state, on }))
    }

    fn add_sheet(&self) -> Result<Checked<LentEdit<'a>>, NoMemory>
        ensures { IfOk result (λ edit. map_ok lent_seen edit ≡ add_sheet_kept self.now) }
    {
        let Some(index) = self.index else {
            return Ok(Err(to_member(self.alloc, "index")?));
        };
        match self.input.judge(self.alloc)? {
            Ok(sheet) => Ok(Ok(LentEdit::Sheets(LentSheetEdit::Add { index, sheet }))),
            Err(path) => Ok(Err(path)),
        }
    }

    fn remove_sheet(&self) -> Result<Checked<LentEdit<'a>>, NoMemory>
        ensures { IfOk result (λ edit. map_ok lent_seen edit ≡ remove_sheet_kept self.now) }
    {
        let Some(sheet) = self.sheet else {
            return Ok(Err(to_member(self.alloc, "sheet")?));
        };
        Ok(Ok(LentEdit::Sheets(LentSheetEdit::Remove { sheet })))
    }

    fn replace_sheet(&self) -> Result<Checked<LentEdit<'a>>, NoMemory>
        ensures { IfOk result (λ edit. map_ok lent_seen edit ≡ replace_sheet_kept self.now) }
    {
        let Some(sheet) = self.sheet else {
            return Ok(Err(to_member(self.alloc, "sheet")?));
        };
        let Some(text) = self.input.text else {
            return Ok(Err(to_member(self.alloc, "text")?));
        };
        Ok(Ok(LentEdit::Sheets(LentSheetEdit::Replace { sheet, text })))
    }

    fn enable_sheet(&self) -> Result<Checked<LentEdit<'a>>, NoMemory>
        ensures { IfOk result (λ edit. map_ok lent_seen edit ≡ enable_sheet_kept self.now) }
    {
        let Some(sheet) = self.sheet else {
            return Ok(Err(to_member(self.alloc, "sheet")?));
        };
        let Some(on) = self.on else {
            return Ok(Err(to_member(self.alloc, "on")?));
        };
        Ok(Ok(LentEdit::Sheets(LentSheetEdit::Enable { sheet, on })))
    }
}
