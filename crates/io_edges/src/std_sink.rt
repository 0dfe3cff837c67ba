//! The real output, as standard output.

ghost use Rattle.std.specs.Prelude.{◌≡◌, ◌≢◌, ◌<◌, length, take, [], None, Err, IfOk, IsErrOf, OnOk};
ghost use Rattle.std.specs.Io.{WritesAtMost};
ghost use Rattle.std.specs.Io.KnownBytes.{Appends, Keeps, WriteAppends};
ghost use Rattle.io_edges.specs.Cause.{HasCause, next_count};
ghost use Rattle.io_edges.specs.StdEnd.{first_output, faults_after};

use crate::{Failed, Sink, SinkRefused};
use std::alloc::Global;
use std::io::{BufWriter, Write};
use std::marker::Model;
use stylo_base::NoMemory;

/// How many bytes are gathered before they are written.
const GATHERED: usize = 65_536;

/// A sink over a writer, which gathers up to 65,536 bytes before it writes them. It tells no bytes.
/// An error of the writer is a fault, and so is a write that takes nothing of a piece. Call `finish`
/// at the end: a fault of what is written only when the sink is dropped is lost.
#[derive(Drop)]
pub struct StdSink<W: Write + Drop> {
    writer: BufWriter<W>,
    faults: u64,
}

impl<W: Write + Drop> Model for StdSink<W> {
    ghost use Rattle.std.specs.Io.Buffered.{writer_buffer, writer_contents};
    ghost use Rattle.io_edges.specs.StdEnd.{StdOutput};

    ghost Value = { StdOutput };

    ghost view = { λ s. record {
      bytes = writer_contents W.contents s.writer;
      gathered = writer_buffer s.writer;
      faults = s.faults;
    } };
}

impl<W: Write + Drop> StdSink<W> {
    /// A sink over this writer, before its first fault.
    pub fn new(alloc: Global, writer: W) -> Result<StdSink<W>, NoMemory>
        ensures { IfOk result (λ sink. sink ≡ first_output (W.contents writer)) }
    {
        let Ok(writer) = BufWriter::with_capacity(alloc, GATHERED, writer) else {
            return Err(NoMemory);
        };
        Ok(StdSink { writer, faults: 0 })
    }

    /// Writes what is gathered, and flushes the writer. At an error, which is counted as a fault,
    /// what could not be written is still gathered.
    pub fn finish(&mut self) -> Result<(), Failed>
        ensures written { OnOk result (self.new.gathered ≡ []) }
        ensures bytes { Keeps self.old.bytes self.new.bytes }
        ensures counted { self.new.faults ≡ faults_after self.old.faults result }
    {
        if self.writer.flush().is_ok() {
            return Ok(());
        }
        self.faults = one_more(self.faults);
        Err(Failed)
    }
}

impl<W: Write + Drop> Sink for StdSink<W> {
    ghost use Rattle.std.specs.Prelude.{None};

    ghost held = { λ _. None };

    ghost faults = { λ s. s.faults };

    /// After a fault the writer may have taken bytes all the same.
    #[inline(always)]
    fn write(&mut self, piece: &[u8]) -> Result<usize, SinkRefused>
        ensures bound { WritesAtMost result piece.now }
        ensures progress { IfOk result (λ n. 0 < length piece.now → 0 < n) }
        ensures bytes { WriteAppends None None result piece.now }
        ensures cause { HasCause self.old.faults self.new.faults (IsErrOf result SinkRefused.Failed) }

        // What it says is written or gathered, each other outcome is counted, and no memory is needed.
        ensures taken { IfOk result (λ n. Appends self.old.bytes self.new.bytes (take n piece.now)) }
        ensures counted { self.new.faults ≡ faults_after self.old.faults result }
        ensures memory { result ≢ Err SinkRefused.NoMemory }
    {
        if let Ok(count) = self.writer.write(piece)
            && (count > 0 || piece.is_empty())
        {
            return Ok(count);
        }
        self.faults = one_more(self.faults);
        Err(SinkRefused::Failed)
    }
}

/// One more, as far as 64 bits can count.
fn one_more(faults: u64) -> u64
    ensures { result ≡ next_count faults }
{
    faults.saturating_add(1)
}
