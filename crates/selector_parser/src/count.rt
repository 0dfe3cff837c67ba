//! How many compounds a selector has. It takes no memory.

ghost use Rattle.std.specs.Prelude.{◌≡◌, ◌+◌, ◌≤◌, Some, None, if◌then◌else◌, map, nat_le};
ghost use Rattle.selector_model.specs.Compounds.{compound_limit, compounds_within};
ghost use Rattle.selector_types.specs.ComplexView.{test_of, tested};

use selector_types::{Test, measure};

/// How many compounds a selector may have.
const MOST: u64 = 64;

/// How many compounds there are with one more of these tests, where that is no more than a selector
/// may have.
pub(crate) fn with_one_more(count: u64, tests: &[Test]) -> Option<u64>
    requires { count ≤ compound_limit }
    ensures { result ≡ (if nat_le (1 + compounds_within (tested (map test_of tests.now)) + count) compound_limit
        then Some (1 + compounds_within (tested (map test_of tests.now)) + count) else None) }
{
    let inside = measure::of_tests(tests).compounds;
    if inside >= MOST {
        return None;
    }
    let sum = 1 + inside + count;
    if sum > MOST {
        return None;
    }
    Some(sum)
}
