//! Reads a source to its end, or to one byte past the limit of the input.

ghost use Rattle.std.specs.Prelude.{◌≡◌, ◌≢◌, ◌+◌, ◌<◌, ◌≤◌, ℕ, List, Option, length, vec_len, IfOk, IsErrOf, OnErr, OnOk};
ghost use Rattle.std.specs.Io.KnownBytes.{Consumes, Keeps};
ghost use Rattle.io_edges.specs.Cause.{EndsAtEnd, HasCause};
ghost use Rattle.base_model.specs.Limits.{input_limit};
ghost use Rattle.style_lines.specs.Loops.{IsReadWhole, LosesFront, LosesAtMost};

use io_edges::{Failed, Source};
use std::alloc::{AllocError, Global};
use stylo_base::limits::INPUT_LIMIT;

/// The most bytes of one read.
const PIECE: usize = 65_536;

/// Why there is no input.
#[derive(Clone, Copy)]
pub enum InputError {
    /// The source failed.
    Fault,
    /// The input is longer than the limit.
    TooLong,
    /// It is out of memory.
    NoMemory,
}

impl From<Failed> for InputError {
    ghost use Rattle.std.specs.Prelude.{◌≡◌};
    ghost use Rattle.style_lines.specs.declared.input.InputError.TheVariants.{Fault};

    ghost from_gives = { λ _ e. e ≡ Fault };

    fn from(_error: Failed) -> InputError {
        InputError::Fault
    }
}

impl From<AllocError> for InputError {
    ghost use Rattle.std.specs.Prelude.{◌≡◌};
    ghost use Rattle.style_lines.specs.declared.input.InputError.TheVariants.{NoMemory};

    ghost from_gives = { λ _ e. e ≡ NoMemory };

    fn from(_error: AllocError) -> InputError {
        InputError::NoMemory
    }
}

/// All the bytes that the source has left, at most `INPUT_LIMIT`. It never reads more than one byte
/// past the limit.
pub fn read_all<S: Source>(alloc: Global, source: &mut S) -> Result<Vec<u8>, InputError>
    ensures whole { IfOk result (λ bytes. IsReadWhole (S.left source.old) (S.left source.new) bytes.items) }
    ensures fits { IfOk result (λ bytes. length bytes.items ≤ input_limit) }
    ensures too_long { IsErrOf result InputError.TooLong
        → LosesFront (input_limit + 1) (S.left source.old) (S.left source.new) }
    ensures most { LosesAtMost (input_limit + 1) (S.left source.old) (S.left source.new) }
    ensures fault { IsErrOf result InputError.Fault
        → LosesAtMost input_limit (S.left source.old) (S.left source.new) }
    ensures cause { HasCause (S.faults source.old) (S.faults source.new) (IsErrOf result InputError.Fault) }
{
    let mut found = Vec::new(alloc);
    // The proof calls the loop by this label.
    'reading: loop {
        let room = PIECE.min(INPUT_LIMIT + 1 - found.len());
        let count = read_piece(source, &mut found, room)?;
        if count == 0 {
            return Ok(found);
        }
        if found.len() > INPUT_LIMIT {
            return Err(InputError::TooLong);
        }
    }
}

/// Appends what one read gives, at most `room` bytes, and says how many bytes that is: 0 at the end
/// of the input alone. The source reads into the vector itself. After an error the vector is of no use.
fn read_piece<S: Source>(
    source: &mut S,
    found: &mut Vec<u8>,
    room: usize,
) -> Result<usize, InputError>
    requires some { 0 < room }
    requires few { vec_len found.old + room ≤ input_limit + 1 }
    ensures bound { IfOk result (λ count. count ≤ room) }
    ensures grown { IfOk result (λ count. vec_len found.new ≡ vec_len found.old + count) }

    // Where what was found is what the source had lost, it still is.
    ensures read { (all : Option (List ℕ)) → Consumes all (S.left source.old) found.old.items
        → OnOk result (Consumes all (S.left source.new) found.new.items) }
    ensures err { OnErr result (Keeps (S.left source.old) (S.left source.new)) }
    ensures reason { result ≢ Err InputError.TooLong }
    ensures end { EndsAtEnd (S.left source.old) result }
    ensures cause { HasCause (S.faults source.old) (S.faults source.new) (IsErrOf result InputError.Fault) }
{
    let start = found.len();
    found.resize(start + room, 0)?;
    let count = source.read(&mut found.as_mut_slice()[start..])?;
    found.truncate(start + count);
    Ok(count)
}
