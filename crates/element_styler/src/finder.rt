//! What finds the selectors that hold at an element.

ghost use Rattle.std.specs.Prelude.{◌≡◌, ◌++◌, OnOk, flat_map, map, option_map, option_to_list};
ghost use Rattle.scene_model.specs.Lookups.{IsElement};
ghost use Rattle.rule_map_model.specs.Places.{hits_at};
ghost use Rattle.rule_maps.specs.SlotView.{place_seen};
ghost use Rattle.element_styler.specs.Finding.{AreFound, CanFind, hits_by};
ghost use Rattle.element_styler.specs.MatchedRules.{hit_seen};

use crate::matched_rules::MatchedRule;
use ancestor_filter::Filter;
use dom_tree::Doc;
use rule_maps::{Pair, RuleMap};
use selector_match::holds;
use selector_types::weight;
use sheet_set::Sheets;
use stylo_base::NoMemory;

/// A document with its sheets, the map of their rules, and a filter of the names of an element's ancestors.
#[derive(Clone, Copy)]
pub(crate) struct Finder<'a> {
    pub(crate) doc: &'a Doc,
    pub(crate) sheets: &'a Sheets,
    pub(crate) map: &'a RuleMap,
    pub(crate) filter: &'a Filter,
}

/// Finds the selectors that hold at `x`, bucket by bucket. They replace what is in the list.
pub(crate) fn find(hits: &mut Vec<MatchedRule>, finder: &Finder<'_>, x: u32) -> Result<(), NoMemory>
    requires { CanFind finder.now x }
    ensures { OnOk result (AreFound finder.now x hits.new.items) }
{
    hits.clear();
    let mut looked = finder.map.buckets(finder.doc, x);
    while let Some(pairs) = looked.next() {
        add_hits(hits, finder, pairs, x)?;
    }
    Ok(())
}

/// Adds those of a bucket.
fn add_hits(
    hits: &mut Vec<MatchedRule>,
    finder: &Finder<'_>,
    pairs: &[Pair],
    x: u32,
) -> Result<(), NoMemory>
    requires { IsElement finder.now.doc.now.elements x }
    ensures { OnOk result (map hit_seen hits.new.items ≡ map hit_seen hits.old.items
        ++ flat_map (hits_by finder.now x) (map place_seen pairs.now)) }
{
    for pair in pairs {
        if let Some(hit) = hit_of(finder, pair, x) {
            hits.push(hit)?;
        }
    }
    Ok(())
}

/// What is found by a selector where it holds at `x`. The filter of the ancestors of `x` is asked first.
#[inline]
fn hit_of(finder: &Finder<'_>, pair: &Pair, x: u32) -> Option<MatchedRule>
    requires { IsElement finder.now.doc.now.elements x }
    ensures { option_to_list (option_map hit_seen result) ≡ hits_by finder.now x (place_seen pair.now) }
{
    if !pair.passes(finder.filter) {
        return None;
    }
    let rule = pair.rule as usize;
    let selector = finder
        .sheets
        .selectors()
        .get(rule)?
        .get(pair.selector as usize)?;
    if !holds(finder.doc, selector, x) {
        return None;
    }
    let specificity = weight::specificity(selector);
    Some(MatchedRule { rule, specificity })
}
