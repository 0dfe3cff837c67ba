//! All that the program does, over any ends.

ghost use Rattle.std.specs.Prelude.{◌≡◌, ◌≢◌, ◌+◌, ◌≤◌, ◌⊎◌, ℕ, List, None, Some, Err, IfErr, IfOk, IfSome, OnOk, false, length, map, string_bytes, true};
ghost use Rattle.io_edges.specs.Cause.{HasCause, Rose};
ghost use Rattle.stylo_base.specs.declared.refusal.Kind.{Kind};
ghost use Rattle.job_json.specs.JobOf.{not_json, bad_shape};
ghost use Rattle.style_lines.specs.Words.{IsInRange, line_of};
ghost use Rattle.style_cli.specs.Answer.{IsReadAs, IsPast, IsJob, IsLate, IsOf, IsPrinted, IsFrontPrinted, IsReadToEnd, IsAnswerTo, IsEarly, IsUnread, IsRefused, IsTold, due_text, input_of, job_of_input, reads_input};
ghost use Rattle.std.specs.Io.KnownBytes.{Appends};
ghost use Rattle.base_model.specs.Limits.{batch_limit, element_limit, input_limit, sheet_limit};
ghost use Rattle.style_lines.specs.Loops.{GrewByFront, LosesAtMost};
ghost use Rattle.style_cli.specs.Sums.{summary_text};

use crate::printing::print_job;
use crate::status::Status;
use crate::summing::{Wanted, print_summary};
use io_edges::{Sink, SinkRefused, Source};
use job_json::{Job, JobFault};
use std::alloc::Global;
use std::thread::Threads;
use style_lines::{InputError, Line, WordsError, read_all, read_line};
use stylo_base::Kind;
use stylo_base::limits::INPUT_LIMIT;

/// Does what the words ask for, of which the first is the program's name. They are tested first.
///
/// `run` reads the job that `source` has left, to its end or to one byte past 67,108,864, and writes each
/// element's style to `sink`, before any edit and after each batch of edits: each line as soon as it is made,
/// in one write where the sink takes whole pieces. `gen` makes a large job from a number, and writes the sums
/// of the text that `run` would write of it; the source is not read. Neither ever waits.
pub fn run<R: Threads + Sync, S: Source, K: Sink>(
    rt: &R,
    alloc: Global,
    words: Vec<String>,
    source: &mut S,
    sink: &mut K,
) -> Status
    // The words are the only cause of Usage: words that are no command line give it, or there is no memory to
    // read them. Then, and with a generated job, which ends with no status of an input, nothing is read.
    ensures usage { IsOf (line_of (map string_bytes words.items)) result }
    ensures unread { reads_input (line_of (map string_bytes words.items)) ≡ false
        → S.left source.new ≡ S.left source.old }
    ensures unwritten { line_of (map string_bytes words.items) ≡ None → K.held sink.new ≡ K.held sink.old }

    // A fault of reading or writing is answered only where the counts of faults rose in this call.
    ensures read_fault { result ≡ Status.ReadFault → Rose (S.faults source.old) (S.faults source.new)
        × LosesAtMost input_limit (S.left source.old) (S.left source.new) }
    ensures write_fault { result ≡ Status.WriteFault → Rose (K.faults sink.old) (K.faults sink.new) }

    // The other refusals come from the input alone.
    ensures not_json { result ≡ Status.NotJson → IsReadAs (S.left source.old) not_json
        × IsReadToEnd (S.left source.old) (S.left source.new) }
    ensures not_a_job { (path : List ℕ) → result ≡ Status.NotAJob path
        → IsReadAs (S.left source.old) (bad_shape path) × IsReadToEnd (S.left source.old) (S.left source.new) }
    ensures limit { (kind : Kind) (number : ℕ) → result ≡ Status.Limit kind number
        → IsPast kind number (S.left source.old) (S.left source.new) }
    ensures job { reads_input (line_of (map string_bytes words.items)) ≡ true → result ≡ Status.WriteFault
        → IsJob (S.left source.old) × IsReadToEnd (S.left source.old) (S.left source.new) }

    // The source is never read further than one byte past the limit.
    ensures most { LosesAtMost (input_limit + 1) (S.left source.old) (S.left source.new) }

    // And where it is read, an input gets the status that it calls for, whatever the sink does.
    ensures due { (bytes : List ℕ) → S.left source.old ≡ Some bytes
        → reads_input (line_of (map string_bytes words.items)) ≡ true → IsAnswerTo bytes result }

    // With Done the sink holds what it held before and then exactly the text that is due, the job's or the line
    // of sums, and an input that is read was read to its end.
    ensures done { result ≡ Status.Done → IsPrinted (line_of (map string_bytes words.items))
        (S.left source.old) (K.held sink.old) (K.held sink.new) }
    ensures end { reads_input (line_of (map string_bytes words.items)) ≡ true → result ≡ Status.Done
        → IsReadToEnd (S.left source.old) (S.left source.new) }

    // After a failed write it holds a front of that text, and where it is out of memory such a front
    // or what it held before.
    ensures front { result ≡ Status.WriteFault → IsFrontPrinted (line_of (map string_bytes words.items))
        (S.left source.old) (K.held sink.old) (K.held sink.new) }
    ensures no_memory { result ≡ Status.NoMemory → IsFrontPrinted (line_of (map string_bytes words.items))
        (S.left source.old) (K.held sink.old) (K.held sink.new)
        ⊎ (K.held sink.new ≡ K.held sink.old) }
    ensures kept { IsEarly result → K.held sink.new ≡ K.held sink.old }

    // A command line for which a text is due, with no fault of either end, is answered by Done, if there is
    // memory. With a generated job the source has no part in it.
    ensures complete { (bytes text : List ℕ)
        → input_of (line_of (map string_bytes words.items)) (S.left source.old) ≡ Some bytes
        → due_text (line_of (map string_bytes words.items)) bytes ≡ Some text
        → (reads_input (line_of (map string_bytes words.items)) ≡ true
        → ¬ Rose (S.faults source.old) (S.faults source.new))
        → ¬ Rose (K.faults sink.old) (K.faults sink.new)
        → (result ≡ Status.Done) ⊎ (result ≡ Status.NoMemory) }
{
    match line_of(alloc, words) {
        Ok(Line::Run { workers, share }) => run_job(rt, alloc, workers, share, source, sink),
        Ok(
            Line::Gen {
                seed,
                nodes,
                batches,
                workers,
            },
        ) => {
            let wanted = Wanted {
                seed,
                nodes,
                batches,
            };
            run_generated(rt, alloc, wanted, workers, sink)
        }
        Err(WordsError::NoLine) => Status::Usage,
        Err(WordsError::NoMemory) => Status::NoMemory,
    }
}

/// What the words ask for. They are given back before anything is read.
fn line_of(alloc: Global, words: Vec<String>) -> Result<Line, WordsError>
    ensures line { IfOk result (λ line. line_of (map string_bytes words.items) ≡ Some line) }
    ensures none { result ≡ Err WordsError.NoLine → line_of (map string_bytes words.items) ≡ None }
    ensures ranges { IfOk result IsInRange }
{
    read_line(alloc, &words)
}

/// Reads the job that the source has left, and writes its text.
fn run_job<R: Threads + Sync, S: Source, K: Sink>(
    rt: &R,
    alloc: Global,
    workers: u32,
    share: u32,
    source: &mut S,
    sink: &mut K,
) -> Status
    requires workers { (1 ≤ workers) × (workers ≤ 64) }
    requires share { share ≤ 64 }
    ensures usage { result ≢ Status.Usage }
    ensures read_fault { result ≡ Status.ReadFault → Rose (S.faults source.old) (S.faults source.new)
        × LosesAtMost input_limit (S.left source.old) (S.left source.new) }
    ensures write_fault { result ≡ Status.WriteFault → Rose (K.faults sink.old) (K.faults sink.new) }
    ensures not_json { result ≡ Status.NotJson → IsReadAs (S.left source.old) not_json
        × IsReadToEnd (S.left source.old) (S.left source.new) }
    ensures not_a_job { (path : List ℕ) → result ≡ Status.NotAJob path
        → IsReadAs (S.left source.old) (bad_shape path) × IsReadToEnd (S.left source.old) (S.left source.new) }
    ensures limit { (kind : Kind) (number : ℕ) → result ≡ Status.Limit kind number
        → IsPast kind number (S.left source.old) (S.left source.new) }
    ensures job { result ≡ Status.WriteFault → IsJob (S.left source.old)
        × IsReadToEnd (S.left source.old) (S.left source.new) }
    ensures most { LosesAtMost (input_limit + 1) (S.left source.old) (S.left source.new) }
    ensures due { (bytes : List ℕ) → S.left source.old ≡ Some bytes → IsAnswerTo bytes result }
    ensures done { result ≡ Status.Done → IsPrinted (Some (Line.Run workers share))
        (S.left source.old) (K.held sink.old) (K.held sink.new) }
    ensures end { result ≡ Status.Done → IsReadToEnd (S.left source.old) (S.left source.new) }
    ensures front { result ≡ Status.WriteFault → IsFrontPrinted (Some (Line.Run workers share))
        (S.left source.old) (K.held sink.old) (K.held sink.new) }
    ensures no_memory { result ≡ Status.NoMemory → IsFrontPrinted (Some (Line.Run workers share))
        (S.left source.old) (K.held sink.old) (K.held sink.new)
        ⊎ (K.held sink.new ≡ K.held sink.old) }
    ensures kept { IsEarly result → K.held sink.new ≡ K.held sink.old }
    ensures complete { (bytes : List ℕ) → S.left source.old ≡ Some bytes → IsJob (S.left source.old)
        → ¬ Rose (S.faults source.old) (S.faults source.new) → ¬ Rose (K.faults sink.old) (K.faults sink.new)
        → (result ≡ Status.Done) ⊎ (result ≡ Status.NoMemory) }
{
    let job = match read_job(alloc, source) {
        Ok(job) => job,
        Err(status) => return status,
    };
    match print_job(rt, alloc, job, workers, share, sink) {
        Ok(()) => Status::Done,
        Err(SinkRefused::Failed) => Status::WriteFault,
        Err(SinkRefused::NoMemory) => Status::NoMemory,
    }
}

/// Makes the job of a number, and writes the line of sums over its batches.
fn run_generated<R: Threads + Sync, K: Sink>(
    rt: &R,
    alloc: Global,
    wanted: Wanted,
    workers: u32,
    sink: &mut K,
) -> Status
    requires nodes { (1 ≤ wanted.nodes) × (wanted.nodes ≤ element_limit) }
    requires batches { wanted.batches ≤ batch_limit }
    requires workers { (1 ≤ workers) × (workers ≤ 64) }
    ensures late { IsLate result }
    ensures write_fault { result ≡ Status.WriteFault → Rose (K.faults sink.old) (K.faults sink.new) }
    ensures done { result ≡ Status.Done
        → Appends (K.held sink.old) (K.held sink.new) (summary_text wanted.seed wanted.nodes wanted.batches) }
    ensures front { result ≢ Status.Done
        → GrewByFront (K.held sink.old) (K.held sink.new) (summary_text wanted.seed wanted.nodes wanted.batches) }
    ensures complete { ¬ Rose (K.faults sink.old) (K.faults sink.new)
        → (result ≡ Status.Done) ⊎ (result ≡ Status.NoMemory) }
{
    match print_summary(rt, alloc, wanted, workers, sink) {
        Ok(()) => Status::Done,
        Err(SinkRefused::Failed) => Status::WriteFault,
        Err(SinkRefused::NoMemory) => Status::NoMemory,
    }
}

/// The job that the source has left, or why there is none. It is not inlined, so that bench/profile
/// can tell what it costs.
#[inline(never)]
fn read_job<S: Source>(alloc: Global, source: &mut S) -> Result<Job, Status>
    ensures job { IfOk result (λ job. IfSome (S.left source.old) (λ bytes. job_of_input bytes ≡ Some job)) }
    ensures end { OnOk result (IsReadToEnd (S.left source.old) (S.left source.new)) }
    ensures fits { IfOk result (λ job. length job.nodes ≤ element_limit) }
    ensures few { IfOk result (λ job. length job.sheets ≤ sheet_limit) }
    ensures unread { IfErr result IsUnread }
    ensures refused { IfErr result (λ status. IfSome (S.left source.old) (IsRefused status)) }
    ensures told { IfErr result (λ status. IsTold status (S.left source.old) (S.left source.new)) }
    ensures limit { (kind : Kind) (number : ℕ) → result ≡ Err (Status.Limit kind number)
        → IsPast kind number (S.left source.old) (S.left source.new) }
    ensures most { LosesAtMost (input_limit + 1) (S.left source.old) (S.left source.new) }
    ensures fault { result ≡ Err Status.ReadFault → LosesAtMost input_limit (S.left source.old) (S.left source.new) }
    ensures cause { HasCause (S.faults source.old) (S.faults source.new) (result ≡ Err Status.ReadFault) }
{
    let bytes = match read_all(alloc, source) {
        Ok(bytes) => bytes,
        Err(InputError::Fault) => return Err(Status::ReadFault),
        Err(InputError::TooLong) => return Err(Status::Limit(Kind::Input, INPUT_LIMIT as u64)),
        Err(InputError::NoMemory) => return Err(Status::NoMemory),
    };
    match job_json::read(alloc, &bytes) {
        Ok(job) => Ok(job),
        Err(JobFault::NotJson) => Err(Status::NotJson),
        Err(JobFault::Shape(path)) => Err(Status::NotAJob(path)),
        Err(JobFault::Limit(kind, number)) => Err(Status::Limit(kind, number)),
        Err(JobFault::NoMemory) => Err(Status::NoMemory),
    }
}
