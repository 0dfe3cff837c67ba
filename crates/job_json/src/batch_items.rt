//! The batches of a job.

ghost use Rattle.std.specs.Prelude.{◌≡◌, ◌<◌, length, None, IfOk, OnOk};
ghost use Rattle.json_reader.specs.Taken.{taken, Says};
ghost use Rattle.job_json.specs.Parts.{batches_read};
ghost use Rattle.job_json.specs.KeptEdits.{KeepsBatch};

use crate::batch_list::BatchList;
use crate::checked::{Checked, one_more};
use crate::edit_items::take_batch;
use crate::limits::{Within, past};
use crate::pointer::in_item;
use dom_edits::Edit;
use json::Reader;
use json_reader::{KeepItems, Stop, array, pass};
use std::alloc::Global;
use stylo_base::limits::BATCH_LIMIT;
use stylo_base::{Kind, NoMemory, Text};

/// What is kept of the items of a list of batches.
#[derive(Drop)]
struct BatchItems {
    alloc: Global,
    /// The first bad place. What comes after it is passed over.
    bad: Option<Text>,
    /// How many batches there are before that place.
    count: usize,
    /// The batches, as long as there are not too many.
    list: Vec<Vec<Edit>>,
}

impl<'a> KeepItems<'a> for BatchItems {
    ghost use Rattle.job_json.specs.KeptEdits.{AreBatchesOf};

    ghost keeps = { AreBatchesOf };

    fn item(&mut self, reader: &mut Reader<'a>, depth: usize) -> Result<(), Stop> {
        if self.bad.is_some() {
            pass(reader, depth)?;
            return Ok(());
        }
        match take_batch(self.alloc, reader, depth)? {
            Ok(batch) => self.keep(batch)?,
            Err(path) => self.bad = Some(in_item(self.alloc, self.count, &path)?),
        }
        Ok(())
    }
}

impl BatchItems {
    /// Counts one more batch, and keeps it where there are not too many.
    fn keep(&mut self, batch: Vec<Edit>) -> Result<(), NoMemory>
        ensures { OnOk result (KeepsBatch self.old batch self.new) }
    {
        if self.count < BATCH_LIMIT {
            self.list.push(batch)?;
        }
        self.count = one_more(self.count)?;
        Ok(())
    }
}

/// Takes the list of the batches of a job.
pub(crate) fn take_batches(
    alloc: Global,
    reader: &mut Reader<'_>,
    depth: usize,
) -> Result<Checked<Within<BatchList>>, Stop>
    ensures ok { IfOk result (λ batches. Says (λ d. batches_read (Some d)) batches
        (taken depth reader.old) reader.new) }
    ensures shorter { OnOk result (length reader.new < length reader.old) }
    ensures err { result ≡ Err Stop.NotJson → taken depth reader.old ≡ None }
{
    let mut batches = BatchItems {
        alloc,
        bad: None,
        count: 0,
        list: Vec::new(alloc),
    };
    if !array(reader, depth, &mut batches)? {
        return Ok(Err(Text::new(alloc)));
    }
    let BatchItems {
        bad,
        count,
        list,
        ..
    } = batches;
    if let Some(path) = bad {
        return Ok(Err(path));
    }
    if let Some(passed) = past(Kind::Batches, BATCH_LIMIT, count) {
        return Ok(Ok(Err(passed)));
    }
    Ok(Ok(Ok(BatchList::of_vec(list))))
}
