//! The edits of a batch.

ghost use Rattle.std.specs.Prelude.{◌≡◌, ◌<◌, length, None, IfOk, OnOk};
ghost use Rattle.json_reader.specs.Taken.{taken, Says};
ghost use Rattle.job_json.specs.Checked.{map_ok};
ghost use Rattle.job_json.specs.Edits.{batch_in};
ghost use Rattle.job_json.specs.KeptEdits.{lent_seen, KeepsEdit, edits_of};

use crate::checked::{Checked, one_more};
use crate::edit::{LentEdit, take_edit};
use crate::pointer::in_item;
use dom_edits::Edit;
use json::Reader;
use json_reader::{KeepItems, Stop, array, pass};
use std::alloc::Global;
use stylo_base::{NoMemory, Text};

/// What is kept of the items of a batch.
#[derive(Drop)]
struct EditItems {
    alloc: Global,
    /// The first bad place. What comes after it is passed over.
    bad: Option<Text>,
    /// How many edits there are before that place.
    count: usize,
    /// These edits.
    list: Vec<Edit>,
}

impl<'a> KeepItems<'a> for EditItems {
    ghost use Rattle.job_json.specs.KeptEdits.{AreEditsOf};

    ghost keeps = { AreEditsOf };

    fn item(&mut self, reader: &mut Reader<'a>, depth: usize) -> Result<(), Stop> {
        if self.bad.is_some() {
            pass(reader, depth)?;
            return Ok(());
        }
        match take_edit(self.alloc, reader, depth)? {
            Ok(edit) => self.keep(edit)?,
            Err(path) => self.bad = Some(in_item(self.alloc, self.count, &path)?),
        }
        Ok(())
    }
}

impl EditItems {
    /// Keeps one more edit.
    fn keep(&mut self, edit: LentEdit<'_>) -> Result<(), NoMemory>
        ensures { OnOk result (KeepsEdit self.old (lent_seen edit.entry) self.new) }
    {
        self.list.push(edit.owned(self.alloc)?)?;
        self.count = one_more(self.count)?;
        Ok(())
    }
}

/// Takes a batch.
pub(crate) fn take_batch(
    alloc: Global,
    reader: &mut Reader<'_>,
    depth: usize,
) -> Result<Checked<Vec<Edit>>, Stop>
    ensures ok { IfOk result (λ batch. Says batch_in (map_ok edits_of batch)
        (taken depth reader.old) reader.new) }
    ensures shorter { OnOk result (length reader.new < length reader.old) }
    ensures err { result ≡ Err Stop.NotJson → taken depth reader.old ≡ None }
{
    let mut edits = EditItems {
        alloc,
        bad: None,
        count: 0,
        list: Vec::new(alloc),
    };
    if !array(reader, depth, &mut edits)? {
        return Ok(Err(Text::new(alloc)));
    }
    let EditItems { bad, list, .. } = edits;
    match bad {
        None => Ok(Ok(list)),
        Some(path) => Ok(Err(path)),
    }
}
