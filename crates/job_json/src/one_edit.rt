//! One edit alone.

ghost use Rattle.std.specs.Prelude.{◌≡◌, ◌≤◌, ◌⊎◌, Err, IfOk, None, Some, length};
ghost use Rattle.serde_json.specs.Data.{Data};
ghost use Rattle.serde_json.specs.Read.{read as read_json};
ghost use Rattle.base_model.specs.Limits.{input_limit};
ghost use Rattle.job_json.specs.Edits.{edit_in};
ghost use Rattle.job_json.specs.EditRead.{edit_answer, edit_read};

use crate::document::no_job_at;
use crate::edit::take_edit;
use crate::{JobFault, MAX_DEPTH};
use dom_edits::Edit;
use json::{Reader, Scratch};
use json_reader::Stop;
use std::alloc::Global;

/// The edit that the bytes say, as a batch of a job has it. The pointer of a fault begins at the edit. No limit is
/// tested: what stands in an edit is, where it is applied.
pub fn read_edit(alloc: Global, bytes: &[u8]) -> Result<Edit, JobFault>
    requires { length bytes.now ≤ input_limit }
    ensures { (result ≡ edit_read bytes.now) ⊎ (result ≡ Err JobFault.NoMemory) }
{
    let Ok(text) = str::from_utf8(bytes) else {
        return Err(JobFault::NotJson);
    };
    match edit_in_text(alloc, text) {
        Ok(answer) => answer,
        Err(Stop::NotJson) => Err(JobFault::NotJson),
        Err(Stop::NoMemory) => Err(JobFault::NoMemory),
    }
}

/// The edit that a text says, or what is wrong with its value.
fn edit_in_text(alloc: Global, text: &str) -> Result<Result<Edit, JobFault>, Stop>
    ensures ok { IfOk result (λ answer. (d : Data) × (read_json text.now ≡ Some d)
        × (edit_answer (edit_in d) ≡ answer)) }
    ensures err { result ≡ Err Stop.NotJson → read_json text.now ≡ None }
{
    let mut scratch = Scratch::new(alloc);
    let mut reader = Reader::new(text, &mut scratch)?;
    let edit = take_edit(alloc, &mut reader, MAX_DEPTH)?;
    if reader.next().is_some() {
        return Err(Stop::NotJson);
    }
    match edit {
        Ok(edit) => Ok(Ok(edit.owned(alloc)?)),
        Err(path) => Ok(Err(no_job_at(path))),
    }
}
