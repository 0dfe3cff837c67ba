//! Where a selector holds: its compounds from right to left, and for each combinator the elements that it names.

ghost use Rattle.std.specs.Prelude.{◌≡◌};
ghost use Rattle.scene_model.specs.Lookups.{IsElement};
ghost use Rattle.scene_model.specs.Valid.{IsValid};
ghost use Rattle.selector_model.specs.Holds.{holds, holds_some as model_holds_some, meets as model_meets, test_holds as model_test_holds};
ghost use Rattle.selector_match.specs.Results.{Tells, holds_left};
ghost use Rattle.selector_model.specs.Selector.{child, descendant, later_sibling, next_sibling};
ghost use Rattle.selector_types.specs.ComplexView.{complex_of, complexes_of, compound_of, test_of};
ghost use Rattle.selector_types.specs.View.{selector_of};

use crate::index::left_siblings;
use crate::key::bears;
use crate::match_result::MatchResult;
use crate::simple::passes;
use dom_tree::Doc;
use selector_types::{Combinator, Complex, Compound, Selector, Test, key_of};

/// Whether the selector holds at the element `x` (selectors-4, section 3.1). Most that do not are told
/// by their key. It takes no memory.
pub fn matches(doc: &Doc, selector: &Selector, x: u32) -> bool
    requires { IsElement doc.now.elements x }
    ensures { result ≡ holds doc.now.elements (selector_of selector.now) x }
{
    bears(doc, key_of(selector), x) && holds(doc, selector, x)
}

/// The same, for a caller who knows that `x` bears the selector's key: it is not looked at. It takes no
/// memory.
#[inline]
pub fn holds(doc: &Doc, selector: &Selector, x: u32) -> bool
    requires { IsElement doc.now.elements x }
    ensures { result ≡ holds doc.now.elements (selector_of selector.now) x }
{
    tried(doc, selector.complex(), x) == MatchResult::Matched
}

/// Tries a selector at `x`.
#[cycle(matches)]
pub(crate) fn tried(doc: &Doc, complex: &Complex, x: u32) -> MatchResult
    requires { IsElement doc.now.elements x }
    ensures { Tells doc.now.elements (holds doc.now.elements (complex_of complex.now)) x result }
{
    match meets(doc, &complex.subject, x) {
        MatchResult::Matched => {}
        told => return told,
    }
    let Some(left) = &complex.left else {
        return MatchResult::Matched;
    };
    match left.combinator {
        Combinator::Child => at_parent(doc, &left.rest, x),
        Combinator::Descendant => at_ancestors(doc, &left.rest, x),
        Combinator::NextSibling => at_nearest(doc, &left.rest, x),
        Combinator::LaterSibling => at_siblings(doc, &left.rest, x),
    }
}

/// Tries at the parent of `x` what is to the left of a `>`.
#[cycle(matches)]
fn at_parent(doc: &Doc, rest: &Complex, x: u32) -> MatchResult
    requires { IsElement doc.now.elements x }
    ensures told { Tells doc.now.elements (holds_left doc.now.elements child (complex_of rest.now)) x result }
    ensures valid { IsValid doc.now.elements }
{
    let Some(parent) = doc.parent(x) else {
        return MatchResult::NotMatchedGlobally;
    };
    match tried(doc, rest, parent) {
        // The siblings of `x` have that parent too.
        MatchResult::RestartFromSibling => MatchResult::RestartFromDescendant,
        told => told,
    }
}

/// Tries at the ancestors of `x`, the nearest first, what is to the left of a descendant combinator.
#[cycle(matches)]
fn at_ancestors(doc: &Doc, rest: &Complex, x: u32) -> MatchResult
    requires { IsElement doc.now.elements x }
    ensures told { Tells doc.now.elements (holds_left doc.now.elements descendant (complex_of rest.now)) x result }
    ensures valid { IsValid doc.now.elements }
{
    let mut at = x;
    while let Some(parent) = doc.parent(at) {
        match tried(doc, rest, parent) {
            MatchResult::RestartFromSibling | MatchResult::RestartFromDescendant => at = parent,
            told => return told,
        }
    }
    MatchResult::NotMatchedGlobally
}

/// Tries at the nearest sibling before `x` what is to the left of a `+`.
#[cycle(matches)]
fn at_nearest(doc: &Doc, rest: &Complex, x: u32) -> MatchResult
    requires { IsElement doc.now.elements x }
    ensures told { Tells doc.now.elements (holds_left doc.now.elements next_sibling (complex_of rest.now)) x result }
    ensures valid { IsValid doc.now.elements }
{
    match left_siblings(doc, x).last() {
        Some(nearest) => tried(doc, rest, *nearest),
        None => MatchResult::RestartFromDescendant,
    }
}

/// Tries at the siblings before `x`, the nearest first, what is to the left of a `~`.
#[cycle(matches)]
fn at_siblings(doc: &Doc, rest: &Complex, x: u32) -> MatchResult
    requires { IsElement doc.now.elements x }
    ensures told { Tells doc.now.elements (holds_left doc.now.elements later_sibling (complex_of rest.now)) x result }
    ensures valid { IsValid doc.now.elements }
{
    let mut before = left_siblings(doc, x);
    while let Some((nearest, farther)) = before.split_last() {
        match tried(doc, rest, *nearest) {
            MatchResult::RestartFromSibling => before = farther,
            told => return told,
        }
    }
    MatchResult::RestartFromDescendant
}

/// Tries the tests of a compound at `x`, until one fails.
#[cycle(matches)]
fn meets(doc: &Doc, compound: &Compound, x: u32) -> MatchResult
    requires { IsElement doc.now.elements x }
    ensures { Tells doc.now.elements (model_meets doc.now.elements (compound_of compound.now)) x result }
{
    for test in &compound.tests {
        match test_holds(doc, test, x) {
            MatchResult::Matched => {}
            told => return told,
        }
    }
    MatchResult::Matched
}

/// Tries a test at `x`.
#[cycle(matches)]
fn test_holds(doc: &Doc, test: &Test, x: u32) -> MatchResult
    requires { IsElement doc.now.elements x }
    ensures { Tells doc.now.elements (model_test_holds doc.now.elements (test_of test.now)) x result }
{
    match test {
        Test::Simple(simple) => MatchResult::told(passes(doc, simple, x)),
        Test::Is(list) | Test::Where(list) => holds_some(doc, list, x),
        Test::Not(list) => match holds_some(doc, list, x) {
            MatchResult::Matched => MatchResult::RestartFromSibling,
            _ => MatchResult::Matched,
        },
    }
}

/// Tries the selectors of a list at `x`, until one holds. Where all fail, so much is told as the one that tells least.
#[cycle(matches)]
fn holds_some(doc: &Doc, list: &[Complex], x: u32) -> MatchResult
    requires { IsElement doc.now.elements x }
    ensures { Tells doc.now.elements (model_holds_some doc.now.elements (complexes_of list.now)) x result }
{
    let mut told = MatchResult::NotMatchedGlobally;
    for complex in list {
        match tried(doc, complex, x) {
            MatchResult::Matched => return MatchResult::Matched,
            failed => told = told.weakest(failed),
        }
    }
    told
}
