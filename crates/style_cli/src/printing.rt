//! The text of a job, written a line at a time.

ghost use Rattle.std.specs.Prelude.{◌≡◌, ◌≤◌, ◌∷◌, [], IfOk, IsErrOf, OnErr, OnOk, length, map};
ghost use Rattle.std.specs.Io.KnownBytes.{Appends};
ghost use Rattle.std.specs.List.{AllByRecursion};
ghost use Rattle.base_model.specs.Limits.{element_limit, sheet_limit};
ghost use Rattle.dom_edits.specs.EditView.{edit_seen};
ghost use Rattle.edit_model.specs.Edit.{IsShapedEdit};
ghost use Rattle.io_edges.specs.Cause.{HasCause};
ghost use Rattle.session_model.specs.Batches.{edited_all, report_of, reports_from};
ghost use Rattle.session_model.specs.Standing.{restyled};
ghost use Rattle.session_model.specs.StandingInvariant.{IsReached};
ghost use Rattle.style_lines.specs.Loops.{GrewByFront};
ghost use Rattle.style_cli.specs.Printing.{IsHeadingOf, Serves, batches_seen, edits_seen};
ghost use Rattle.style_cli.specs.Text.{batch_text, text_from, text_of};

use crate::batch::{Batch, Heading, make_batch};
use crate::beginning::session_of;
use crate::elements::print_elements;
use crate::heading::print_heading;
use dom_edits::Edit;
use io_edges::{Sink, SinkRefused};
use job_json::{BatchList, Job};
use std::alloc::Global;
use std::thread::Threads;
use style_lines::Lines;
use style_session::Session;
use stylo_base::NoMemory;

/// Writes the text of a job, each line as soon as it is made. A restyle may use so many workers, and shares
/// the styles of so many elements.
pub(crate) fn print_job<R: Threads + Sync, K: Sink>(
    rt: &R,
    alloc: Global,
    job: Job,
    workers: u32,
    share: u32,
    sink: &mut K,
) -> Result<(), SinkRefused>
    requires nodes { length job.nodes ≤ element_limit }
    requires sheets { length job.sheets ≤ sheet_limit }
    requires workers { (1 ≤ workers) × (workers ≤ 64) }
    requires share { share ≤ 64 }
    ensures ok { OnOk result (Appends (K.held sink.old) (K.held sink.new) (text_of job)) }
    ensures err { OnErr result (GrewByFront (K.held sink.old) (K.held sink.new) (text_of job)) }
    ensures cause { HasCause (K.faults sink.old) (K.faults sink.new) (IsErrOf result SinkRefused.Failed) }
{
    let Job {
        nodes,
        sheets,
        batches,
    } = job;
    let session = session_of(alloc, nodes, sheets, workers, share)?;
    print_over(rt, alloc, session, batches, sink)
}

/// Writes what comes of batches over the session in which they begin. Both end here.
fn print_over<R: Threads + Sync, K: Sink>(
    rt: &R,
    alloc: Global,
    mut session: Session,
    batches: BatchList,
    sink: &mut K,
) -> Result<(), SinkRefused>
    requires { IsReached session }
    ensures ok { OnOk result (Appends (K.held sink.old) (K.held sink.new)
        (text_from 0 (reports_from session ([] ∷ map (map edit_seen) batches)))) }
    ensures err { OnErr result (GrewByFront (K.held sink.old) (K.held sink.new)
        (text_from 0 (reports_from session ([] ∷ map (map edit_seen) batches)))) }
    ensures cause { HasCause (K.faults sink.old) (K.faults sink.new) (IsErrOf result SinkRefused.Failed) }
{
    let written = print_batches(rt, alloc, &mut session, batches.as_slice(), sink);
    drop(session);
    written
}

/// Writes what comes of batches: first that of the job before any edit.
fn print_batches<R: Threads + Sync, K: Sink>(
    rt: &R,
    alloc: Global,
    session: &mut Session,
    batches: &[Vec<Edit>],
    sink: &mut K,
) -> Result<(), SinkRefused>
    requires { IsReached session.old }
    ensures ok { OnOk result (Appends (K.held sink.old) (K.held sink.new)
        (text_from 0 (reports_from session.old ([] ∷ batches_seen batches.now)))) }
    ensures err { OnErr result (GrewByFront (K.held sink.old) (K.held sink.new)
        (text_from 0 (reports_from session.old ([] ∷ batches_seen batches.now)))) }
    ensures cause { HasCause (K.faults sink.old) (K.faults sink.new) (IsErrOf result SinkRefused.Failed) }
{
    let mut lines = Lines::new(alloc);
    let mut number = 0;
    let mut edits: &[Edit] = &[];
    let mut rest = batches;
    // The proof calls the loop by this label.
    'printing: loop {
        let batch = Batch {
            number,
            edits,
            is_last: rest.is_empty(),
        };
        print_batch(rt, alloc, session, &mut lines, batch, sink)?;
        let Some((next, others)) = rest.split_first() else {
            return Ok(());
        };
        number += 1;
        edits = next.as_slice();
        rest = others;
    }
}

/// Makes the edits of a batch, restyles the session, and writes what came of it.
fn print_batch<R: Threads + Sync, K: Sink>(
    rt: &R,
    alloc: Global,
    session: &mut Session,
    lines: &mut Lines,
    batch: Batch<'_>,
    sink: &mut K,
) -> Result<(), SinkRefused>
    requires reached { IsReached session.old }
    requires serves { Serves session.old lines.old }
    ensures ok { OnOk result (Appends (K.held sink.old) (K.held sink.new)
        (batch_text batch.entry.number (report_of session.old (edits_seen batch.entry.edits.now)))) }
    ensures err { OnErr result (GrewByFront (K.held sink.old) (K.held sink.new)
        (batch_text batch.entry.number (report_of session.old (edits_seen batch.entry.edits.now)))) }
    ensures session { OnOk result
        (session.new ≡ restyled (edited_all session.old (edits_seen batch.entry.edits.now))) }
    ensures serves { OnOk result (Serves session.new lines.new) }
    ensures shaped { OnOk result (AllByRecursion IsShapedEdit (edits_seen batch.entry.edits.now)) }
    ensures cause { HasCause (K.faults sink.old) (K.faults sink.new) (IsErrOf result SinkRefused.Failed) }
{
    let heading = make_and_forget(rt, alloc, session, lines, batch.edits)?;
    print_heading(alloc, batch.number, &heading, sink)?;
    print_elements(alloc, session, lines, !batch.is_last, sink)
}

/// Makes the edits of a batch, restyles the session, and forgets the lines of what was cascaded.
fn make_and_forget<R: Threads + Sync>(
    rt: &R,
    alloc: Global,
    session: &mut Session,
    lines: &mut Lines,
    edits: &[Edit],
) -> Result<Heading, NoMemory>
    requires reached { IsReached session.old }
    requires serves { Serves session.old lines.old }
    ensures session { OnOk result (session.new ≡ restyled (edited_all session.old (edits_seen edits.now))) }
    ensures heading { IfOk result (IsHeadingOf session.old (edits_seen edits.now)) }
    ensures serves { OnOk result (Serves session.new lines.new) }
    ensures shaped { OnOk result (AllByRecursion IsShapedEdit (edits_seen edits.now)) }
{
    let heading = make_batch(rt, alloc, session, edits)?;
    lines.forget(session.cascaded());
    Ok(heading)
}
