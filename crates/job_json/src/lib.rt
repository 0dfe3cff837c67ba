//! Jobs: the document, the style sheets and the batches of edits. A job is read from JSON, or made from a number.
//!
//! A reader of a job says for each of its objects what to do with the value of a key; the loops over members and items
//! are said once, in `json_reader`. Texts stay in the input until a node or a sheet is made. A reader of a part answers
//! with its first bad place, or with the limit that it passes first, or with the part (`Checked`, `Within`); an object
//! keeps that answer of each of its members, and tells at its brace, in reading order, what is wrong of itself. Past a
//! limit or a bad place nothing more of a list is kept.
#![tactic(auto)]

mod attributes;
mod batch_items;
mod batch_list;
mod checked;
mod document;
mod drawn_edits;
mod drawn_insertions;
mod drawn_nodes;
mod draws;
mod edit;
mod edit_items;
mod generating;
mod kept_nodes;
pub mod laws;
mod limits;
mod name;
mod new_nodes;
mod node;
mod node_list;
mod one_edit;
mod pointer;
mod sheet;
mod sheet_edit;
mod sheet_items;
mod sheet_list;
mod slots;
mod states;

ghost use Rattle.std.specs.Prelude.{◌≡◌, ◌≤◌, List, ℕ, Ok, Err, IfOk, length};
ghost use Rattle.serde_json.specs.Data.{Data};
ghost use Rattle.serde_json.specs.Read.{read as read_json};
ghost use Rattle.stylo_base.specs.declared.refusal.Kind.{Kind};
ghost use Rattle.base_model.specs.Limits.{input_limit, element_limit, sheet_limit};
ghost use Rattle.job_json.specs.JobOf.{verdict_of, verdict_on, not_json, bad_shape, over, good, answer_to, IsDue};

use crate::document::take_job;
pub use batch_list::BatchList;
use dom_tree::NodeList;
pub use generating::{BatchDraws, BegunJob, begin_generated, generate};
use json::{Reader, Scratch};
use json_reader::Stop;
pub use name::is_name;
pub use one_edit::read_edit;
pub use sheet_list::SheetList;
use std::alloc::Global;
use stylo_base::{Kind, PathText};
use thiserror::Error;

/// How deep arrays and objects may nest in a job, as in every value that `serde_json` reads.
pub(crate) const MAX_DEPTH: usize = 127;

/// A job.
#[derive(Drop)]
pub struct Job {
    /// The document before any edit.
    pub nodes: NodeList,
    /// Its style sheets before any edit.
    pub sheets: SheetList,
    /// Its batches of edits.
    pub batches: BatchList,
}

/// Why there is no job.
#[derive(Debug, Drop, Error)]
pub enum JobFault {
    /// The bytes are not UTF-8, or no JSON value.
    #[error("not JSON")]
    NotJson,
    /// The value has another shape, first at this JSON pointer.
    #[error("not a job at {0}")]
    Shape(PathText),
    /// It has the shape of a job, and the limit of this kind, with its number, is passed first.
    #[error("limit {0} {1}")]
    Limit(Kind, u64),
    /// There was no memory.
    #[error("no memory")]
    NoMemory,
}

/// The job that the bytes say.
#[tactic(auto, unfolding(crate::specs::JobOf::verdict_of))]
pub fn read(alloc: Global, bytes: &[u8]) -> Result<Job, JobFault>
    requires { length bytes.now ≤ input_limit }
    ensures ok { IfOk result (λ job. verdict_of bytes.now ≡ good job) }
    ensures json { result ≡ Err JobFault.NotJson → verdict_of bytes.now ≡ not_json }
    ensures shape { (path : List ℕ) → result ≡ Err (JobFault.Shape path)
        → verdict_of bytes.now ≡ bad_shape path }
    ensures limit { (kind : Kind) (number : ℕ) → result ≡ Err (JobFault.Limit kind number)
        → verdict_of bytes.now ≡ over kind number }
    ensures due { IsDue (verdict_of bytes.now) result }
    ensures fits { IfOk result (λ job. length job.nodes ≤ element_limit) }
    ensures few { IfOk result (λ job. length job.sheets ≤ sheet_limit) }
{
    let Ok(text) = str::from_utf8(bytes) else {
        return Err(JobFault::NotJson);
    };
    match read_text(alloc, text) {
        Ok(answer) => answer,
        Err(Stop::NotJson) => Err(JobFault::NotJson),
        Err(Stop::NoMemory) => Err(JobFault::NoMemory),
    }
}

/// The job that a text says, or what is wrong with its value.
fn read_text(alloc: Global, text: &str) -> Result<Result<Job, JobFault>, Stop>
    ensures ok { IfOk result (λ answer. (d : Data) × (read_json text.now ≡ Some d)
        × (answer_to (verdict_on d) ≡ answer)) }
    ensures err { result ≡ Err Stop.NotJson → read_json text.now ≡ None }
{
    let mut scratch = Scratch::new(alloc);
    let mut reader = Reader::new(text, &mut scratch)?;
    let answer = take_job(alloc, &mut reader, MAX_DEPTH)?;
    if reader.next().is_some() {
        return Err(Stop::NotJson);
    }
    Ok(answer)
}
