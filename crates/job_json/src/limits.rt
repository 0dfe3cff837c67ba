//! The limits of a job's document and of its sheets.

ghost use Rattle.std.specs.Prelude.{◌≡◌};
ghost use Rattle.job_json.specs.Limits.{past};

use stylo_base::Kind;

/// A limit that is passed: its kind, with its number.
pub(crate) type Passed = (Kind, u64);

/// A part of the right shape, or the limit that it passes first.
pub(crate) type Within<T> = Result<T, Passed>;

/// The limit, where the amount is past it.
pub(crate) fn past(kind: Kind, most: usize, amount: usize) -> Option<Passed>
    ensures { result ≡ past kind most amount }
{
    if amount <= most {
        None
    } else {
        Some((kind, most as u64))
    }
}
