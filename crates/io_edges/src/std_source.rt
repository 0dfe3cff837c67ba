//! The real input, as standard input.

ghost use Rattle.std.specs.Prelude.{◌≡◌, ◌<◌, length, None, IsErr};
ghost use Rattle.std.specs.Io.{ReadsAtMost};
ghost use Rattle.std.specs.Io.KnownBytes.{ReadConsumes};
ghost use Rattle.io_edges.specs.Cause.{EndsAtEnd, HasCause};
ghost use Rattle.io_edges.specs.StdEnd.{first_use, faults_after};

use crate::{Failed, Source};
use std::io::Read;
use std::marker::Model;

/// A source over a reader. It tells no bytes, and each error of the reader is a fault.
#[derive(Drop)]
pub struct StdSource<R: Read> {
    reader: R,
    faults: u64,
}

impl<R: Read> Model for StdSource<R> {
    ghost use Rattle.io_edges.specs.StdEnd.{StdEnd};

    ghost Value = { StdEnd };

    ghost view = { λ s. record { bytes = R.remaining s.reader; faults = s.faults } };
}

impl<R: Read> StdSource<R> {
    /// A source over this reader, before its first fault.
    pub fn new(reader: R) -> StdSource<R>
        ensures { result ≡ first_use (R.remaining reader) }
    {
        StdSource { reader, faults: 0 }
    }
}

impl<R: Read> Source for StdSource<R> {
    ghost use Rattle.std.specs.Prelude.{None};

    ghost left = { λ _. None };

    ghost faults = { λ s. s.faults };

    fn read(&mut self, buf: &mut [u8]) -> Result<usize, Failed>
        requires { 0 < length buf.old }
        ensures bound { ReadsAtMost result buf.new }
        ensures bytes { ReadConsumes None None result buf.new }
        ensures end { EndsAtEnd None result }
        ensures cause { HasCause self.old.faults self.new.faults (IsErr result) }

        // It gives what the reader gives, and counts its errors alone.
        ensures given { ReadConsumes self.old.bytes self.new.bytes result buf.new }
        ensures counted { self.new.faults ≡ faults_after self.old.faults result }
    {
        if let Ok(count) = self.reader.read(buf) {
            return Ok(count);
        }
        self.faults = self.faults.saturating_add(1);
        Err(Failed)
    }
}
