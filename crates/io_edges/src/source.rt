//! Where bytes come from.

ghost use Rattle.std.specs.Prelude.{ℕ, ◌<◌, List, length, Option, IsErr};
ghost use Rattle.std.specs.Io.{ReadsAtMost};
ghost use Rattle.std.specs.Io.KnownBytes.{ReadConsumes};
ghost use Rattle.io_edges.specs.Cause.{EndsAtEnd, HasCause};

use thiserror::Error;

/// The outside failed, and counted a fault.
#[derive(Clone, Copy, Debug, PartialEq, Eq, Error)]
#[error("the outside failed")]
pub struct Failed;

/// An input, read from its front.
pub trait Source {
    /// The bytes to come, where they are told.
    ghost left: { Self → Option (List ℕ) };

    /// How many faults there were.
    ghost faults: { Self → ℕ };

    /// Fills the front of the buffer, and says how many bytes it gave: 0 at the end of the input alone.
    /// After `Failed` the same bytes are still to come.
    fn read(&mut self, buf: &mut [u8]) -> Result<usize, Failed>
        requires { 0 < length buf.old }
        ensures bound { ReadsAtMost result buf.new }
        ensures bytes { ReadConsumes (left self.old) (left self.new) result buf.new }
        ensures end { EndsAtEnd (left self.old) result }
        ensures cause { HasCause (faults self.old) (faults self.new) (IsErr result) };
}
