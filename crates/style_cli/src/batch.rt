//! A batch of edits: what becomes of them, and the restyle behind them.

ghost use Rattle.std.specs.Prelude.{◌≡◌, ◌++◌, [], IfOk, OnOk, map};
ghost use Rattle.std.specs.List.{AllByRecursion};
ghost use Rattle.edit_model.specs.Edit.{IsShapedEdit};
ghost use Rattle.dom_edits.specs.EditView.{edit_seen};
ghost use Rattle.session_model.specs.Standing.{edited, restyled, scene_applied};
ghost use Rattle.session_model.specs.Batches.{accepted_among, edited_all, onto_refused, refused_from};
ghost use Rattle.style_session.specs.Answers.{counts_of};
ghost use Rattle.style_cli.specs.Printing.{answered, edits_seen};

use dom_edits::Edit;
use io_edges::OpenGate;
use std::alloc::Global;
use std::thread::Threads;
use style_session::{Counts, Session};
use stylo_base::{EditRefused, NoMemory};

/// A batch of edits.
#[derive(Clone, Copy)]
pub(crate) struct Batch<'a> {
    /// 0 is the job before any edit.
    pub number: u64,
    pub edits: &'a [Edit],
    /// Whether no batch follows.
    pub is_last: bool,
}

/// An edit that was refused.
#[derive(Clone, Copy)]
pub(crate) struct RefusedEdit {
    /// Its place in its batch, from 1.
    pub place: u64,
    pub why: EditRefused,
}

/// What is told of a batch before its elements.
#[derive(Drop)]
pub(crate) struct Heading {
    /// How many edits were accepted.
    pub accepted: u64,
    pub refused: Vec<RefusedEdit>,
    /// What its restyle went to.
    pub counts: Counts,
}

/// Makes the edits of a batch in their order, and restyles the session.
pub(crate) fn make_batch<R: Threads + Sync>(
    rt: &R,
    alloc: Global,
    session: &mut Session,
    edits: &[Edit],
) -> Result<Heading, NoMemory>
    ensures session { OnOk result (session.new ≡ restyled (edited_all session.old (edits_seen edits.now))) }
    ensures accepted { IfOk result (λ made. made.accepted ≡ accepted_among session.old (edits_seen edits.now)) }
    ensures refused { IfOk result (λ made.
        made.refused.items ≡ map answered (refused_from 1 session.old (edits_seen edits.now))) }
    ensures counts { IfOk result (λ made.
        made.counts ≡ counts_of (edited_all session.old (edits_seen edits.now))) }
    ensures shaped { OnOk result (AllByRecursion IsShapedEdit (edits_seen edits.now)) }
{
    let refused = edit_all(alloc, session, edits)?;
    let counts = restyle(rt, alloc, session)?;
    Ok(Heading {
        accepted: (edits.len() - refused.len()) as u64,
        refused,
        counts,
    })
}

/// Makes edits in their order, and lists those that are refused.
#[inline(never)]
fn edit_all(
    alloc: Global,
    session: &mut Session,
    edits: &[Edit],
) -> Result<Vec<RefusedEdit>, NoMemory>
    ensures session { OnOk result (session.new ≡ edited_all session.old (edits_seen edits.now)) }
    ensures refused { IfOk result (λ list.
        list.items ≡ map answered (refused_from 1 session.old (edits_seen edits.now))) }
    ensures shaped { OnOk result (AllByRecursion IsShapedEdit (edits_seen edits.now)) }
{
    let mut refused = Vec::new(alloc);
    for index in 0..edits.len() {
        edit_one(
            alloc,
            session,
            &edits[index],
            index as u64 + 1,
            &mut refused,
        )?;
    }
    Ok(refused)
}

/// Makes an edit, or lists it with its place where it is refused.
fn edit_one(
    alloc: Global,
    session: &mut Session,
    edit: &Edit,
    place: u64,
    refused: &mut Vec<RefusedEdit>,
) -> Result<(), NoMemory>
    ensures session { OnOk result (session.new ≡ edited session.old (edit_seen edit.now)) }
    ensures refused { OnOk result (refused.new.items ≡ refused.old.items
        ++ map answered (onto_refused place (scene_applied session.old.scene (edit_seen edit.now)) [])) }
    ensures shaped { IsShapedEdit (edit_seen edit.now) }
{
    match session.edit(alloc, edit) {
        Ok(()) => Ok(()),
        Err(EditRefused::NoMemory) => Err(NoMemory),
        Err(why) => {
            refused.push(RefusedEdit { place, why })?;
            Ok(())
        }
    }
}

/// Restyles the session.
#[inline(never)]
fn restyle<R: Threads + Sync>(
    rt: &R,
    alloc: Global,
    session: &mut Session,
) -> Result<Counts, NoMemory>
    ensures session { OnOk result (session.new ≡ restyled session.old) }
    ensures counts { IfOk result (λ counts. counts ≡ counts_of session.old) }
{
    session.restyle(rt, alloc, &OpenGate)
}
