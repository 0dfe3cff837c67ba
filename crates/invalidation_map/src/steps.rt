//! One step of a path, from the elements of a list into a set. Each element is added once.

ghost use Rattle.std.specs.Prelude.{◌≡◌, [], nat_eq, take};
ghost use Rattle.std.specs.List.{IsDistinct};
ghost use Rattle.scene_model.specs.Lookups.{IsElement, right_of, siblings};
ghost use Rattle.scene_model.specs.Valid.{IsValid};
ghost use Rattle.selector_model.specs.Selector.{child, descendant, next_sibling, later_sibling};
ghost use Rattle.invalidation_map.specs.Members.{AreAdded, AreBelow};
ghost use Rattle.invalidation_map.specs.Steps.{AddsRelated, CanStep, IsClosed};

use crate::ElementSet;
use dom_tree::Doc;

/// Adds the children of each.
pub(crate) fn add_children(doc: &Doc, from: &[u32], into: &mut ElementSet)
    requires { CanStep doc.now.elements from.now into.old }
    ensures { AddsRelated doc.now.elements child from.now into.old into.new }
{
    for x in from {
        into.add_all(doc.children(*x));
    }
}

/// Adds the sibling right after each.
pub(crate) fn add_next_siblings(doc: &Doc, from: &[u32], into: &mut ElementSet)
    requires { CanStep doc.now.elements from.now into.old }
    ensures { AddsRelated doc.now.elements next_sibling from.now into.old into.new }
{
    for x in from {
        into.add_all(next_siblings(doc, *x));
    }
}

/// Adds all siblings after each, to an empty set. It goes on no further where it meets one that is in the set: then
/// those after it are too.
pub(crate) fn add_later_siblings(doc: &Doc, from: &[u32], into: &mut ElementSet)
    requires can { CanStep doc.now.elements from.now into.old }
    requires empty { into.old.items ≡ [] }
    ensures { AddsRelated doc.now.elements later_sibling from.now into.old into.new }
{
    for x in from {
        add_until_met(doc.right_siblings(*x), into);
    }
}

/// Adds all elements below each, to an empty set: the children, and then the children of what is in the set, while it
/// grows.
pub(crate) fn add_descendants(doc: &Doc, from: &[u32], into: &mut ElementSet)
    requires can { CanStep doc.now.elements from.now into.old }
    requires empty { into.old.items ≡ [] }
    ensures { AddsRelated doc.now.elements descendant from.now into.old into.new }
{
    add_children(doc, from, into);
    let mut index = 0;
    while let Some(x) = into.get(index) {
        into.add_all(doc.children(x));
        index += 1;
    }
}

/// Adds numbers up to the first that is in the set.
fn add_until_met(numbers: &[u32], into: &mut ElementSet)
    requires below { AreBelow into.old.room numbers.now }
    requires once { IsDistinct nat_eq numbers.now }
    requires closed { IsClosed numbers.now into.old.items }
    ensures { AreAdded numbers.now into.old into.new }
{
    for number in numbers {
        if into.contains(*number) {
            return;
        }
        into.add(*number);
    }
}

/// The sibling right after `x`, if there is one.
fn next_siblings(doc: &Doc, x: u32) -> &[u32]
    requires { IsElement doc.now.elements x }
    ensures siblings { result.now ≡ take 1 (right_of x (siblings doc.now.elements x)) }
    ensures valid { IsValid doc.now.elements }
{
    let after = doc.right_siblings(x);
    if after.is_empty() { after } else { &after[..1] }
}
