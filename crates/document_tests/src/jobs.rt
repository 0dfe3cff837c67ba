//! What the bytes of an input give, and what a number makes.

use dom_edits::{DocEdit, Edit};
use dom_tree::Doc;
use job_json::{Job, generate, read};
use std::alloc::Global;
use std::test::Fail;

/// The job of a text that is not long.
fn job(alloc: Global, text: &str) -> Result<Job, Fail> {
    if text.len() > 1000 {
        return Err(Fail::from("the job is long"));
    }
    match read(alloc, text.as_bytes()) {
        Ok(job) => Ok(job),
        Err(_fault) => Err(Fail::from("there is a job")),
    }
}

#[test]
fn counts(rt: HostRuntime) -> Result<(), Fail> {
    let job = job(
        rt.alloc(),
        r#"{"version":1,"nodes":[{"tag":"a"},{"tag":"b","parent":0}],"sheets":[{"origin":"ua","text":""}]}"#,
    )?;
    assert_eq!(rt; (job.nodes.len(), job.sheets.as_slice().len()), (2, 1));
    Ok(())
}

#[test]
fn batches(rt: HostRuntime) -> Result<(), Fail> {
    let job = job(
        rt.alloc(),
        r#"{"version":1,"nodes":[{"tag":"a"}],"batches":[[],[{"op":"unset","node":1,"name":"k"}]]}"#,
    )?;
    assert!(rt; has_two_batches(&job));
    Ok(())
}

/// Whether a job has two batches, of no edit and of one.
fn has_two_batches(job: &Job) -> bool {
    match job.batches.as_slice() {
        [first, second] => first.is_empty() && second.len() == 1,
        _ => false,
    }
}

/// Whether the first of a job's sheets has this text.
fn has_text(job: &Job, text: &str) -> bool {
    match job.sheets.as_slice() {
        [sheet, ..] => sheet.text.as_str() == text,
        [] => false,
    }
}

#[test]
fn sheet_text(rt: HostRuntime) -> Result<(), Fail> {
    let job = job(
        rt.alloc(),
        r#"{"version":1,"nodes":[{"tag":"p"}],"sheets":[{"origin":"author","text":"p { }","text":"a\u00e9\n\"{}"}]}"#,
    )?;
    assert!(rt; has_text(&job, "a\u{e9}\n\"{}"));
    Ok(())
}

/// Whether the element 3 of a document is a `u` of class `c9` with the id `n2`.
fn has_third(doc: &Doc) -> bool {
    doc.contains(3)
        && doc.tag(3) == "u"
        && doc.attribute(3, "class") == Some("c9")
        && doc.attribute(3, "id") == Some("n2")
}

/// Whether a job has two batches, of which the first begins by giving the element 3 the class `c8`.
fn sets_class(job: &Job) -> bool {
    let [batch, _] = job.batches.as_slice() else {
        return false;
    };
    match batch.first() {
        Some(Edit::Document(DocEdit::Set { node: 3, value, .. })) => value.as_str() == "c8",
        _ => false,
    }
}

#[test]
fn made_from_a_number(rt: HostRuntime) -> Result<(), Fail> {
    let job = generate(rt.alloc(), 1, 5, 2)?;
    let doc = Doc::start(rt.alloc(), &job.nodes)?;
    assert!(rt; has_third(&doc) && sets_class(&job));
    Ok(())
}
