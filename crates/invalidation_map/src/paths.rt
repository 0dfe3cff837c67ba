//! Paths from elements to those whose matching rests on them.

ghost use Rattle.invalidation_map.specs.Paths.{TakesStep, WalksPath};
ghost use Rattle.dependency_map.specs.DepView.{path_of, step_of};
ghost use Rattle.invalidation_map.specs.Steps.{CanStep, HasRoom};

use crate::ElementSet;
use crate::steps::{add_children, add_descendants, add_later_siblings, add_next_siblings};
use dependency_map::PathStep;
use dom_tree::Doc;
use selector_types::Combinator;

/// The elements to which those of a list lead by one step, in place of what is in the set.
fn take_step(doc: &Doc, step: PathStep, from: &[u32], into: &mut ElementSet)
    requires { CanStep doc.now.elements from.now into.old }
    ensures { TakesStep doc.now.elements (step_of step) from.now into.old into.new }
{
    into.clear();
    let PathStep::Forwards(combinator) = step;
    match combinator {
        Combinator::Child => add_children(doc, from, into),
        Combinator::Descendant => add_descendants(doc, from, into),
        Combinator::NextSibling => add_next_siblings(doc, from, into),
        Combinator::LaterSibling => add_later_siblings(doc, from, into),
    }
}

/// The elements to which those of the set `from` lead by a path, in their place. What is in `next` goes.
pub(crate) fn walk(doc: &Doc, path: &[PathStep], from: &mut ElementSet, next: &mut ElementSet)
    requires can { CanStep doc.now.elements from.old.items next.old }
    requires room { HasRoom doc.now.elements from.old.room }
    ensures { WalksPath doc.now.elements (path_of path.now) from.old next.old from.new next.new }
{
    for step in path {
        take_step(doc, *step, from.as_slice(), next);
        std::mem::swap(from, next);
    }
}
