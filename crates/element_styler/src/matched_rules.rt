//! The rules that match an element.

ghost use Rattle.std.specs.Prelude.{◌≡◌, OnOk, map};
ghost use Rattle.cascade_model.specs.Matching.{matching_rules as all_matching};
ghost use Rattle.rule_map_model.specs.Hits.{folded};
ghost use Rattle.sheet_set.specs.View.{sources_seen};
ghost use Rattle.element_styler.specs.Finding.{CanFind};
ghost use Rattle.element_styler.specs.MatchedRules.{declarations_of, hit_seen};

use crate::finder::{Finder, find};
use selector_types::Specificity;
use stylo_base::NoMemory;

/// A rule that matches an element: its place among the rules, and the greatest specificity of those of
/// its selectors that hold at the element, or while these are found that of one of them.
#[derive(Clone, Copy, PartialEq, Eq)]
pub(crate) struct MatchedRule {
    pub(crate) rule: usize,
    pub(crate) specificity: Specificity,
}

/// Finds the rules that match `x`, in their order. They replace what is in `found`; `hits` serves to find them.
pub(crate) fn matching_rules(
    found: &mut Vec<MatchedRule>,
    hits: &mut Vec<MatchedRule>,
    finder: &Finder<'_>,
    x: u32,
) -> Result<(), NoMemory>
    requires { CanFind finder.now x }
    ensures { OnOk result (declarations_of (sources_seen finder.now.sheets.now) found.new.items
        ≡ all_matching finder.now.doc.now.elements (sources_seen finder.now.sheets.now) x) }
{
    find(hits, finder, x)?;
    hits.sort_unstable_by_key(|hit| hit.rule);
    fold(found, hits)
}

/// Of hits one after another those of one rule become one, of the greatest specificity.
fn fold(found: &mut Vec<MatchedRule>, hits: &[MatchedRule]) -> Result<(), NoMemory>
    ensures { OnOk result (map hit_seen found.new.items ≡ folded (map hit_seen hits.now)) }
{
    found.clear();
    let Some((first, rest)) = hits.split_first() else {
        return Ok(());
    };
    let mut last = *first;
    for hit in rest {
        if hit.rule == last.rule {
            last.specificity = last.specificity.greater(hit.specificity);
        } else {
            found.push(last)?;
            last = *hit;
        }
    }
    found.push(last)?;
    Ok(())
}
