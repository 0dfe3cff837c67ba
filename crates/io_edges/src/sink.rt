//! Where bytes go.

ghost use Rattle.std.specs.Prelude.{◌≡◌, ℕ, ◌<◌, List, length, Option, IfOk, IsErrOf};
ghost use Rattle.std.specs.Io.{WritesAtMost};
ghost use Rattle.std.specs.Io.KnownBytes.{WriteAppends};
ghost use Rattle.io_edges.specs.Cause.{HasCause};

use stylo_base::NoMemory;
use thiserror::Error;

/// Why a sink took nothing.
#[derive(Clone, Copy, Debug, PartialEq, Eq, Error)]
pub enum SinkRefused {
    /// The outside failed, and counted a fault.
    #[error("the outside failed")]
    Failed,
    /// There was no memory.
    #[error("no memory")]
    NoMemory,
}

impl From<NoMemory> for SinkRefused {
    ghost use Rattle.std.specs.Prelude.{◌≡◌};
    ghost use Rattle.io_edges.specs.declared.sink.SinkRefused.TheVariants.{NoMemory as no_memory};

    ghost from_gives = { λ _ e. e ≡ no_memory };

    fn from(_error: NoMemory) -> SinkRefused {
        SinkRefused::NoMemory
    }
}

/// An output, written at its end.
pub trait Sink {
    /// The bytes that it holds, where they are told.
    ghost held: { Self → Option (List ℕ) };

    /// How many faults there were.
    ghost faults: { Self → ℕ };

    /// Takes a front of the piece, and says how many bytes: 0 of an empty piece alone. A refusal
    /// takes nothing.
    fn write(&mut self, piece: &[u8]) -> Result<usize, SinkRefused>
        ensures bound { WritesAtMost result piece.now }
        ensures progress { IfOk result (λ n. 0 < length piece.now → 0 < n) }
        ensures bytes { WriteAppends (held self.old) (held self.new) result piece.now }
        ensures cause { HasCause (faults self.old) (faults self.new) (IsErrOf result SinkRefused.Failed) };
}
