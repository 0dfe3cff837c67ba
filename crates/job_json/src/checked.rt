//! Parts of a job as they are read.

ghost use Rattle.std.specs.Prelude.{◌≡◌, ◌+◌, IfOk};

use stylo_base::{NoMemory, Text};

/// A part of the right shape, or the pointer from the part to the first place in it where
/// something is absent or of another shape.
pub(crate) type Checked<T> = Result<T, Text>;

/// One more than `count`. What can't be counted can't be kept either.
pub(crate) fn one_more(count: usize) -> Result<usize, NoMemory>
    ensures { IfOk result (λ more. more ≡ count + 1) }
{
    match count.checked_add(1) {
        Some(more) => Ok(more),
        None => Err(NoMemory),
    }
}
