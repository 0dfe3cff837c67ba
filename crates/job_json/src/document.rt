//! A job: its document, its sheets and its batches.

ghost use Rattle.std.specs.Prelude.{◌≡◌, ◌≢◌, ◌<◌, length, codes, Some, None, Err, IfOk, OnOk};
ghost use Rattle.std.specs.Str.{chars};
ghost use Rattle.serde_json.specs.Data.{Data, Members, no_members, put};
ghost use Rattle.json_reader.specs.Taken.{taken, Says};
ghost use Rattle.job_json.specs.Checked.{below, escaped};
ghost use Rattle.job_json.specs.Words.{is_one};
ghost use Rattle.job_json.specs.JobOf.{answer_to, verdict_on};
ghost use Rattle.job_json.specs.Kept.{IsJobOf, job_kept, job_of_nodes, job_of_parts, job_of_sheets, whole_job};

use crate::batch_items::take_batches;
use crate::batch_list::BatchList;
use crate::checked::Checked;
use crate::limits::Within;
use crate::node_list::take_nodes;
use crate::pointer::in_member;
use crate::sheet_items::take_sheets;
use crate::sheet_list::SheetList;
use crate::{Job, JobFault};
use dom_tree::NodeList;
use json::Reader;
use json_reader::{KeepMembers, Stop, object, pass, whole};
use std::alloc::Global;
use stylo_base::{NoMemory, PathText, Text};

/// What is kept of the members of a job.
#[derive(Drop)]
struct JobParts {
    alloc: Global,
    is_version: bool,
    nodes: Checked<Within<NodeList>>,
    sheets: Checked<Within<SheetList>>,
    batches: Checked<Within<BatchList>>,
}

impl<'a> KeepMembers<'a> for JobParts {
    ghost use Rattle.job_json.specs.Kept.{IsJobOf};

    ghost keeps = { IsJobOf };

    fn member(&mut self, key: &'a str, reader: &mut Reader<'a>, depth: usize) -> Result<(), Stop> {
        match key {
            "version" => self.is_version = is_one(whole(reader, depth)?),
            "nodes" => self.nodes = take_nodes(self.alloc, reader, depth)?,
            _ => self.list_member(key, reader, depth)?,
        }
        Ok(())
    }
}

impl JobParts {
    /// A job with no members.
    fn new(alloc: Global) -> JobParts
        ensures { IsJobOf result no_members }
    {
        JobParts {
            alloc,
            is_version: false,
            nodes: Err(Text::new(alloc)),
            sheets: Ok(Ok(SheetList::new(alloc))),
            batches: Ok(Ok(BatchList::new(alloc))),
        }
    }

    /// Takes the value of a member that may be absent.
    fn list_member(&mut self, key: &str, reader: &mut Reader<'_>, depth: usize) -> Result<(), Stop>
        requires version { key.now ≢ codes "version" }
        requires nodes { key.now ≢ codes "nodes" }
        ensures ok { OnOk result ((d : Data) × (taken depth reader.old ≡ Some (d, reader.new))
            × ((ms : Members) → IsJobOf self.old ms → IsJobOf self.new (put key.now d ms))) }
        ensures shorter { OnOk result (length reader.new < length reader.old) }
        ensures err { result ≡ Err Stop.NotJson → taken depth reader.old ≡ None }
    {
        match key {
            "sheets" => self.sheets = take_sheets(self.alloc, reader, depth)?,
            "batches" => self.batches = take_batches(self.alloc, reader, depth)?,
            _ => pass(reader, depth)?,
        }
        Ok(())
    }
}

/// Takes a job, or what is wrong with the value.
pub(crate) fn take_job(
    alloc: Global,
    reader: &mut Reader<'_>,
    depth: usize,
) -> Result<Result<Job, JobFault>, Stop>
    ensures ok { IfOk result (λ answer. Says (λ d. answer_to (verdict_on d)) answer
        (taken depth reader.old) reader.new) }
    ensures shorter { OnOk result (length reader.new < length reader.old) }
    ensures err { result ≡ Err Stop.NotJson → taken depth reader.old ≡ None }
{
    let mut parts = JobParts::new(alloc);
    if !object(reader, depth, &mut parts)? {
        return Ok(Err(no_job_at(Text::new(alloc))));
    }
    Ok(judge(alloc, parts)?)
}

/// The job of the members: their shape is looked at first, whole, and then the limits.
fn judge(alloc: Global, parts: JobParts) -> Result<Result<Job, JobFault>, NoMemory>
    ensures { IfOk result (λ answer. answer ≡ job_kept parts) }
{
    let JobParts {
        is_version,
        nodes,
        sheets,
        batches,
        ..
    } = parts;
    if is_version {
        job_of_parts(alloc, nodes, sheets, batches)
    } else {
        no_job_in(alloc, "version", &Text::new(alloc))
    }
}

/// The same, where the version is right.
fn job_of_parts(
    alloc: Global,
    nodes: Checked<Within<NodeList>>,
    sheets: Checked<Within<SheetList>>,
    batches: Checked<Within<BatchList>>,
) -> Result<Result<Job, JobFault>, NoMemory>
    ensures { IfOk result (λ answer. answer ≡ job_of_parts nodes sheets batches) }
{
    match nodes {
        Ok(nodes) => job_of_nodes(alloc, nodes, sheets, batches),
        Err(path) => no_job_in(alloc, "nodes", &path),
    }
}

/// The same, where the nodes have the right shape.
fn job_of_nodes(
    alloc: Global,
    nodes: Within<NodeList>,
    sheets: Checked<Within<SheetList>>,
    batches: Checked<Within<BatchList>>,
) -> Result<Result<Job, JobFault>, NoMemory>
    ensures { IfOk result (λ answer. answer ≡ job_of_nodes nodes sheets batches) }
{
    match sheets {
        Ok(sheets) => job_of_sheets(alloc, nodes, sheets, batches),
        Err(path) => no_job_in(alloc, "sheets", &path),
    }
}

/// The same, where the nodes and the sheets have the right shape.
fn job_of_sheets(
    alloc: Global,
    nodes: Within<NodeList>,
    sheets: Within<SheetList>,
    batches: Checked<Within<BatchList>>,
) -> Result<Result<Job, JobFault>, NoMemory>
    ensures { IfOk result (λ answer. answer ≡ job_of_sheets nodes sheets batches) }
{
    match batches {
        Ok(batches) => Ok(whole_job(nodes, sheets, batches)),
        Err(path) => no_job_in(alloc, "batches", &path),
    }
}

/// Another shape, first at this place in the member `key`.
fn no_job_in(alloc: Global, key: &str, place: &Text) -> Result<Result<Job, JobFault>, NoMemory>
    ensures { IfOk result (λ answer. answer ≡ Err (JobFault.Shape (below (escaped (chars key.now)) place.now))) }
{
    Ok(Err(no_job_at(in_member(alloc, key, place)?)))
}

/// Whether the version is there and is 1.
fn is_one(version: Option<u64>) -> bool
    ensures { result ≡ is_one version }
{
    match version {
        Some(version) => version == 1,
        None => false,
    }
}

/// The job of these parts, or the limit that they pass first.
fn whole_job(
    nodes: Within<NodeList>,
    sheets: Within<SheetList>,
    batches: Within<BatchList>,
) -> Result<Job, JobFault>
    ensures { result ≡ whole_job nodes sheets batches }
{
    let nodes = match nodes {
        Ok(nodes) => nodes,
        Err((kind, number)) => return Err(JobFault::Limit(kind, number)),
    };
    let sheets = match sheets {
        Ok(sheets) => sheets,
        Err((kind, number)) => return Err(JobFault::Limit(kind, number)),
    };
    let batches = match batches {
        Ok(batches) => batches,
        Err((kind, number)) => return Err(JobFault::Limit(kind, number)),
    };
    Ok(Job {
        nodes,
        sheets,
        batches,
    })
}

/// Another shape, first at this place.
pub(crate) fn no_job_at(path: Text) -> JobFault
    ensures { result ≡ JobFault.Shape path }
{
    JobFault::Shape(PathText::of_text(path))
}
