//! A sink that keeps what is written in memory, for tests and for callers that want the output itself.

ghost use Rattle.std.specs.Prelude.{◌≡◌, ℕ, ◌<◌, ◌↔◌, [], length, Some, IfOk, IsErrOf, Contains};
ghost use Rattle.std.specs.Io.{WritesAtMost};
ghost use Rattle.std.specs.Io.KnownBytes.{WriteAppends};
ghost use Rattle.io_edges.specs.Cause.{HasCause, next_count};
ghost use Rattle.io_edges.specs.MemoryEnd.{unused, after_write};

use crate::{Sink, SinkRefused};
use std::alloc::Global;
use std::marker::Model;
use stylo_base::NoMemory;

/// Bytes in memory, with writes that fail by intent. It tells what it holds.
#[derive(Drop)]
pub struct MemorySink {
    held: Vec<u8>,
    fails: Vec<u64>,
    calls: u64,
    faults: u64,
}

impl Model for MemorySink {
    ghost use Rattle.io_edges.specs.MemoryEnd.{MemoryEnd};

    ghost Value = { MemoryEnd };

    ghost view = { λ s. record {
      bytes = s.held.items;
      fails = s.fails.items;
      calls = s.calls;
      faults = s.faults;
    } };
}

impl MemorySink {
    /// A sink that holds nothing. Its writes are numbered from 1, and those of the numbers in
    /// `fails` fail.
    pub fn whole(alloc: Global, fails: &[u64]) -> Result<MemorySink, NoMemory>
        ensures { IfOk result (λ sink. sink ≡ unused [] fails.now) }
    {
        Ok(MemorySink {
            held: Vec::new(alloc),
            fails: fails.to_vec(alloc)?,
            calls: 0,
            faults: 0,
        })
    }

    /// What was written, in order.
    pub fn held(&self) -> &[u8]
        ensures { result.now ≡ self.now.bytes }
    {
        &self.held
    }
}

impl Sink for MemorySink {
    ghost use Rattle.std.specs.Prelude.{Some};

    ghost held = { λ s. Some s.bytes };

    ghost faults = { λ s. s.faults };

    fn write(&mut self, piece: &[u8]) -> Result<usize, SinkRefused>
        ensures bound { WritesAtMost result piece.now }
        ensures progress { IfOk result (λ n. 0 < length piece.now → 0 < n) }
        ensures bytes { WriteAppends (Some self.old.bytes) (Some self.new.bytes) result piece.now }
        ensures cause { HasCause self.old.faults self.new.faults (IsErrOf result SinkRefused.Failed) }

        // It fails exactly at the listed calls, and takes whole pieces.
        ensures listed { IsErrOf result SinkRefused.Failed ↔ Contains self.old.fails (next_count self.old.calls) }
        ensures whole { IfOk result (λ n. n ≡ length piece.now) }
        ensures after { self.new ≡ after_write self.old piece.now result }
    {
        self.calls = self.calls.saturating_add(1);
        if self.fails.contains(&self.calls) {
            self.faults = self.faults.saturating_add(1);
            return Err(SinkRefused::Failed);
        }
        if self.held.extend_from_slice(piece).is_err() {
            return Err(SinkRefused::NoMemory);
        }
        Ok(piece.len())
    }
}
