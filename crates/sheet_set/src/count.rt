//! How many declarations entries stand for.

ghost use Rattle.std.specs.Prelude.{◌≡◌, IfOk, sum_by};
ghost use Rattle.shorthands.specs.View.{declared_count};

use shorthands::Declared;
use stylo_base::NoMemory;

/// How many declarations the entries stand for. No memory holds 2^64 of them, which a few shorthands
/// might stand for.
pub(crate) fn count_all(entries: &[Declared]) -> Result<u64, NoMemory>
    ensures { IfOk result (λ count. count ≡ sum_by declared_count entries.now) }
{
    let mut count: u64 = 0;
    for entry in entries {
        let Some(more) = count.checked_add(entry.count()) else {
            return Err(NoMemory);
        };
        count = more;
    }
    Ok(count)
}
