//! The names of custom properties, by which their declarations are sorted.

ghost use Rattle.std.specs.Prelude.{◌≡◌, ◌<◌, ◌≤◌, IfOk, length, map, take, drop, true, option_copied};
ghost use Rattle.cascade_core.specs.Declarations.{all_matched};
ghost use Rattle.cascade_core.specs.Names.{AreByName, by_name, compare_names, is_run, name_of};
ghost use Rattle.cascade_core.specs.View.{head_of};

use crate::gathered::{Wanted, gathered};
use crate::matched::compare;
use crate::{Declarations, LentMatched};
use css_tokens::CustomName;
use shorthands::Target;
use std::alloc::Global;
use std::cmp::Ordering;
use stylo_base::NoMemory;

/// The declarations of custom properties by name, and those of one name from the greatest down. Of
/// equal ones the first comes first.
pub(crate) fn sorted_by_name<'a>(
    alloc: Global,
    declarations: Declarations<'a>,
) -> Result<Vec<LentMatched<'a>>, NoMemory>
    ensures { IfOk result (λ list. AreByName (all_matched declarations.entry) (map head_of list.items)) }
{
    let mut list = gathered(alloc, declarations, Wanted::Custom)?;
    list.sort_by(
        |a: &LentMatched<'_>, b: &LentMatched<'_>| -> Ordering
            ensures { result ≡ by_name (head_of a.now) (head_of b.now) }
        { compare_names(a, b).then(compare(b, a)) },
    )?;
    Ok(list)
}

/// How many declarations at the beginning are of one name.
pub(crate) fn run_length(list: &[LentMatched<'_>]) -> usize
    ensures within { result ≤ length list.now }
    ensures some { 0 < length list.now → 0 < result }
    ensures run { is_run (map head_of (take result list.now)) (map head_of (drop result list.now)) ≡ true }
{
    let Some(first) = list.first() else {
        return 0;
    };
    for place in 1..list.len() {
        if compare_names(first, &list[place]).is_ne() {
            return place;
        }
    }
    list.len()
}

/// Which name comes first, in the order of their characters. A property of the table has none.
fn compare_names(a: &LentMatched<'_>, b: &LentMatched<'_>) -> Ordering
    ensures { result ≡ compare_names (head_of a.now) (head_of b.now) }
{
    match (name_of(a), name_of(b)) {
        (Some(one), Some(other)) => one.compare(other),
        (Some(_), None) => Ordering::Greater,
        (None, Some(_)) => Ordering::Less,
        (None, None) => Ordering::Equal,
    }
}

/// The name, where it is of a custom property.
fn name_of<'a>(d: &LentMatched<'a>) -> Option<&'a CustomName>
    ensures { option_copied result ≡ name_of (head_of d.now) }
{
    match &d.declared.target {
        Target::Custom(name) => Some(name),
        Target::Longhand(_) | Target::Shorthand(_) => None,
    }
}
