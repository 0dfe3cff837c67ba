//! A source of bytes in memory, for tests and for callers that have their input already.

ghost use Rattle.std.specs.Prelude.{◌≡◌, ℕ, ◌<◌, ◌↔◌, min, length, Some, IfOk, IsErr, Contains};
ghost use Rattle.std.specs.Io.{ReadsAtMost};
ghost use Rattle.std.specs.Io.KnownBytes.{ReadConsumes};
ghost use Rattle.io_edges.specs.Cause.{EndsAtEnd, HasCause, next_count};
ghost use Rattle.io_edges.specs.MemoryEnd.{unused, after_read};

use crate::{Failed, Source};
use std::alloc::Global;
use std::marker::Model;
use stylo_base::NoMemory;

/// Bytes in memory, with reads that fail by intent. It tells what is left.
#[derive(Drop)]
pub struct MemorySource {
    bytes: Vec<u8>,
    at: usize,
    fails: Vec<u64>,
    calls: u64,
    faults: u64,
}

impl Model for MemorySource {
    ghost use Rattle.std.specs.Prelude.{◌≤◌, drop, vec_len};
    ghost use Rattle.io_edges.specs.MemoryEnd.{MemoryEnd};

    ghost Value = { MemoryEnd };

    ghost view = { λ s. record {
      bytes = drop s.at s.bytes.items;
      fails = s.fails.items;
      calls = s.calls;
      faults = s.faults;
    } };

    ghost invariant = { λ s. s.at ≤ vec_len s.bytes };
}

impl MemorySource {
    /// A source that gives these bytes. Its reads are numbered from 1, and those of the numbers in
    /// `fails` fail.
    pub fn whole(alloc: Global, bytes: &[u8], fails: &[u64]) -> Result<MemorySource, NoMemory>
        ensures { IfOk result (λ source. source ≡ unused bytes.now fails.now) }
    {
        Ok(MemorySource {
            bytes: bytes.to_vec(alloc)?,
            at: 0,
            fails: fails.to_vec(alloc)?,
            calls: 0,
            faults: 0,
        })
    }
}

impl Source for MemorySource {
    ghost use Rattle.std.specs.Prelude.{Some};

    ghost left = { λ s. Some s.bytes };

    ghost faults = { λ s. s.faults };

    fn read(&mut self, buf: &mut [u8]) -> Result<usize, Failed>
        requires { 0 < length buf.old }
        ensures bound { ReadsAtMost result buf.new }
        ensures bytes { ReadConsumes (Some self.old.bytes) (Some self.new.bytes) result buf.new }
        ensures end { EndsAtEnd (Some self.old.bytes) result }
        ensures cause { HasCause self.old.faults self.new.faults (IsErr result) }

        // It fails exactly at the listed calls, and gives all that there is room for.
        ensures listed { IsErr result ↔ Contains self.old.fails (next_count self.old.calls) }
        ensures given { IfOk result (λ n. n ≡ min (length buf.old) (length self.old.bytes)) }
        ensures after { self.new ≡ after_read self.old result }
    {
        self.calls = self.calls.saturating_add(1);
        if self.fails.contains(&self.calls) {
            self.faults = self.faults.saturating_add(1);
            return Err(Failed);
        }
        let count = buf.len().min(self.bytes.len() - self.at);
        let (_, rest) = self.bytes.split_at(self.at);
        let (part, _) = rest.split_at(count);
        buf[..count].copy_from_slice(part);
        self.at += count;
        Ok(count)
    }
}
