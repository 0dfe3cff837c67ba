//! The sums over what `style run` would write of the job that a number makes.

ghost use Rattle.std.specs.Prelude.{◌≡◌, ◌≤◌, ◌∷◌, [], IfOk, IsErrOf, OnErr, OnOk, length, map};
ghost use Rattle.std.specs.Io.KnownBytes.{Appends};
ghost use Rattle.std.specs.List.{AllByRecursion};
ghost use Rattle.base_model.specs.Limits.{batch_limit, element_limit, sheet_limit};
ghost use Rattle.edit_model.specs.Edit.{IsShapedEdit};
ghost use Rattle.io_edges.specs.Cause.{HasCause};
ghost use Rattle.job_json.specs.Gen.{drawn_batches, drawn_nodes, generated, the_sheet};
ghost use Rattle.session_model.specs.Batches.{edited_all, report_of, reports_from};
ghost use Rattle.session_model.specs.Standing.{restyled};
ghost use Rattle.session_model.specs.StandingInvariant.{IsReached};
ghost use Rattle.style_lines.specs.Loops.{GrewByFront};
ghost use Rattle.style_cli.specs.Printing.{AreRefused, IsSettled, ServesLengths, edits_seen};
ghost use Rattle.style_cli.specs.Sums.{batch_sums, both_sums, heading_sums, no_sums, sums_from, sums_of, summary_text};

use crate::batch::{Heading, make_batch};
use crate::beginning::session_of;
use crate::counting::{elements_len, heading_len, sum};
use dom_edits::Edit;
use io_edges::{Sink, SinkRefused};
use job_json::{BatchDraws, BegunJob, begin_generated};
use report_text::{Sums, summary_line};
use std::alloc::Global;
use std::thread::Threads;
use style_lines::{Lengths, write_line};
use style_session::{Counts, Session};
use stylo_base::NoMemory;

/// For how many elements styles are shared.
const SHARE: u32 = 32;

/// The job that a number makes: how many elements it begins with, and how many batches of edits it has.
#[derive(Clone, Copy)]
pub(crate) struct Wanted {
    pub seed: u64,
    pub nodes: u32,
    pub batches: u32,
}

/// Writes the line of sums of a generated job. A restyle may use so many workers.
pub(crate) fn print_summary<R: Threads + Sync, K: Sink>(
    rt: &R,
    alloc: Global,
    wanted: Wanted,
    workers: u32,
    sink: &mut K,
) -> Result<(), SinkRefused>
    requires nodes { (1 ≤ wanted.nodes) × (wanted.nodes ≤ element_limit) }
    requires batches { wanted.batches ≤ batch_limit }
    requires workers { (1 ≤ workers) × (workers ≤ 64) }
    ensures ok { OnOk result (Appends (K.held sink.old) (K.held sink.new)
        (summary_text wanted.seed wanted.nodes wanted.batches)) }
    ensures err { OnErr result (GrewByFront (K.held sink.old) (K.held sink.new)
        (summary_text wanted.seed wanted.nodes wanted.batches)) }
    ensures cause { HasCause (K.faults sink.old) (K.faults sink.new) (IsErrOf result SinkRefused.Failed) }
{
    let sums = summed(rt, alloc, wanted, workers)?;
    let Wanted { nodes, batches, .. } = wanted;
    let line = summary_line(alloc, u64::from(nodes), u64::from(batches), &sums)?;
    write_line(sink, &line)
}

/// The sums of a generated job.
fn summed<R: Threads + Sync>(
    rt: &R,
    alloc: Global,
    wanted: Wanted,
    workers: u32,
) -> Result<Sums, NoMemory>
    requires nodes { (1 ≤ wanted.nodes) × (wanted.nodes ≤ element_limit) }
    requires batches { wanted.batches ≤ batch_limit }
    requires workers { (1 ≤ workers) × (workers ≤ 64) }
    ensures { IfOk result (λ sums. sums ≡ sums_of (generated wanted.seed wanted.nodes wanted.batches)) }
{
    let BegunJob {
        nodes,
        sheets,
        batches,
    } = begun_job(alloc, wanted)?;
    let session = session_of(alloc, nodes, sheets, workers, SHARE)?;
    sum_over(rt, alloc, session, batches, wanted.batches)
}

/// Sums up what comes of so many drawn batches over the session in which they begin. It ends here.
fn sum_over<R: Threads + Sync>(
    rt: &R,
    alloc: Global,
    mut session: Session,
    mut draws: BatchDraws,
    batches: u32,
) -> Result<Sums, NoMemory>
    requires { IsReached session }
    ensures { IfOk result (λ sums. sums ≡ sums_from 0 (reports_from session
        ([] ∷ map edits_seen (drawn_batches draws.0 batches draws.1).0))) }
{
    let sums = sum_batches(rt, alloc, &mut session, &mut draws, batches);
    drop(session);
    sums
}

/// What the generated job begins with. It is not inlined, so that bench/gen can tell what it costs.
#[inline(never)]
fn begun_job(alloc: Global, wanted: Wanted) -> Result<BegunJob, NoMemory>
    requires { (1 ≤ wanted.nodes) × (wanted.nodes ≤ element_limit) }
    ensures nodes { IfOk result (λ begun. begun.nodes ≡ (drawn_nodes wanted.nodes wanted.seed).0) }
    ensures sheets { IfOk result (λ begun. begun.sheets ≡ the_sheet ∷ []) }
    ensures batches { IfOk result (λ begun. begun.batches ≡ (wanted.nodes, (drawn_nodes wanted.nodes wanted.seed).1)) }
    ensures fits { IfOk result (λ begun. length begun.nodes ≤ element_limit) }
    ensures few { IfOk result (λ begun. length begun.sheets ≤ sheet_limit) }
{
    begin_generated(alloc, wanted.seed, wanted.nodes)
}

/// Takes so many batches through a session, each of them drawn, and sums up what comes of them: first that of the job
/// before any edit.
fn sum_batches<R: Threads + Sync>(
    rt: &R,
    alloc: Global,
    session: &mut Session,
    draws: &mut BatchDraws,
    batches: u32,
) -> Result<Sums, NoMemory>
    requires { IsReached session.old }
    ensures { IfOk result (λ sums. sums ≡ sums_from 0 (reports_from session.old
        ([] ∷ map edits_seen (drawn_batches draws.old.0 batches draws.old.1).0))) }
{
    let mut lengths = Lengths::new(alloc);
    let mut sums = no_sums();
    let mut number = 0;
    let mut edits = Vec::new(alloc);
    let mut left = batches;
    // The proof calls the loop by this label.
    'summing: loop {
        sum_batch(rt, alloc, session, &mut lengths, number, &edits, &mut sums)?;
        if left == 0 {
            return Ok(sums);
        }
        left -= 1;
        number += 1;
        edits = draws.next(alloc)?;
    }
}

/// Makes the edits of a batch, restyles the session, and adds what came of it to the sums.
fn sum_batch<R: Threads + Sync>(
    rt: &R,
    alloc: Global,
    session: &mut Session,
    lengths: &mut Lengths,
    number: u64,
    edits: &[Edit],
    sums: &mut Sums,
) -> Result<(), NoMemory>
    requires reached { IsReached session.old }
    requires serves { ServesLengths session.old lengths.old.kept.items }
    ensures sums { OnOk result
        (sums.new ≡ both_sums sums.old (batch_sums number (report_of session.old (edits_seen edits.now)))) }
    ensures session { OnOk result (session.new ≡ restyled (edited_all session.old (edits_seen edits.now))) }
    ensures serves { OnOk result (ServesLengths session.new lengths.new.kept.items) }
    ensures shaped { OnOk result (AllByRecursion IsShapedEdit (edits_seen edits.now)) }
{
    let one = summed_batch(rt, alloc, session, lengths, number, edits)?;
    *sums = both(*sums, one)?;
    Ok(())
}

/// Makes the edits of a batch, restyles the session, forgets the lengths of what was cascaded, and counts what came of
/// it.
fn summed_batch<R: Threads + Sync>(
    rt: &R,
    alloc: Global,
    session: &mut Session,
    lengths: &mut Lengths,
    number: u64,
    edits: &[Edit],
) -> Result<Sums, NoMemory>
    requires reached { IsReached session.old }
    requires serves { ServesLengths session.old lengths.old.kept.items }
    ensures sums { IfOk result (λ one. one ≡ batch_sums number (report_of session.old (edits_seen edits.now))) }
    ensures session { OnOk result (session.new ≡ restyled (edited_all session.old (edits_seen edits.now))) }
    ensures serves { OnOk result (ServesLengths session.new lengths.new.kept.items) }
    ensures shaped { OnOk result (AllByRecursion IsShapedEdit (edits_seen edits.now)) }
{
    let heading = make_batch(rt, alloc, session, edits)?;
    lengths.forget(session.cascaded());
    counted(session, lengths, number, &heading)
}

/// What a batch is counted as, by what is told of it before its elements.
fn counted(
    session: &Session,
    lengths: &mut Lengths,
    number: u64,
    heading: &Heading,
) -> Result<Sums, NoMemory>
    requires refused { AreRefused heading.now.refused.items }
    requires settled { IsSettled session.now }
    requires serves { ServesLengths session.now lengths.old.kept.items }
    ensures sums { IfOk result (λ one. one ≡ heading_sums number heading.now session.now.scene) }
    ensures serves { OnOk result (ServesLengths session.now lengths.new.kept.items) }
{
    let elements = session.doc().in_tree_order().len() as u64;
    let refused = heading.refused.len() as u64;
    let told = heading_len(number, heading)?;
    let bytes = sum(told, elements_len(session, lengths)?)?;
    let Counts { matched, cascaded } = heading.counts;
    Ok(Sums {
        accepted: heading.accepted,
        refused,
        matched,
        cascaded,
        lines: 1 + refused + elements,
        bytes,
    })
}

/// Nothing summed up yet.
fn no_sums() -> Sums
    ensures { result ≡ no_sums }
{
    Sums {
        accepted: 0,
        refused: 0,
        matched: 0,
        cascaded: 0,
        lines: 0,
        bytes: 0,
    }
}

/// Two sums in one. Past 2^64 - 1 it is as if memory ran out.
fn both(one: Sums, other: Sums) -> Result<Sums, NoMemory>
    ensures { IfOk result (λ sums. sums ≡ both_sums one other) }
{
    Ok(Sums {
        accepted: sum(one.accepted, other.accepted)?,
        refused: sum(one.refused, other.refused)?,
        matched: sum(one.matched, other.matched)?,
        cascaded: sum(one.cascaded, other.cascaded)?,
        lines: sum(one.lines, other.lines)?,
        bytes: sum(one.bytes, other.bytes)?,
    })
}
