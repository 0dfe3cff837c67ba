//! Whether two elements are twins.

ghost use Rattle.std.specs.Prelude.{◌≡◌, ◌&&◌};
ghost use Rattle.base_model.specs.Text.{same_text};
ghost use Rattle.scene_model.specs.Lookups.{IsElement, attributes_of, parent_of, tag_of};
ghost use Rattle.sharing_model.specs.Twin.{is_alike, is_twin, same_attributes, same_parent, same_states};

use dom_tree::Doc;
use stylo_base::State;

/// Whether `y` is a twin of `x`: an element with the same parent, tag, attributes and states. The root has none.
#[inline]
pub(crate) fn are_twins(doc: &Doc, y: u32, x: u32) -> bool
    requires { IsElement doc.now.elements x }
    ensures { result ≡ is_twin doc.now.elements y x }
{
    if !doc.contains(y) {
        return false;
    }
    if !have_same_parent(doc, y, x) {
        return false;
    }
    are_alike(doc, y, x)
}

/// Whether two elements have the same parent.
#[inline]
fn have_same_parent(doc: &Doc, y: u32, x: u32) -> bool
    requires y { IsElement doc.now.elements y }
    requires x { IsElement doc.now.elements x }
    ensures { result ≡ same_parent (parent_of doc.now.elements y) (parent_of doc.now.elements x) }
{
    match (doc.parent(y), doc.parent(x)) {
        (Some(p), Some(q)) => p == q,
        _ => false,
    }
}

/// Whether two elements have the same tag, attributes and states. What is compared by numbers comes first.
#[inline]
fn are_alike(doc: &Doc, y: u32, x: u32) -> bool
    requires y { IsElement doc.now.elements y }
    requires x { IsElement doc.now.elements x }
    ensures { result ≡ is_alike doc.now.elements y x }
{
    if !have_same_attributes(doc, y, x) {
        return false;
    }
    if !are_in_same_states(doc, y, x) {
        return false;
    }
    have_same_tag(doc, y, x)
}

/// Whether two elements have the same attributes.
#[inline]
fn have_same_attributes(doc: &Doc, y: u32, x: u32) -> bool
    requires y { IsElement doc.now.elements y }
    requires x { IsElement doc.now.elements x }
    ensures { result ≡ same_attributes (attributes_of doc.now.elements y) (attributes_of doc.now.elements x) }
{
    doc.same_attributes(y, x)
}

/// Whether two elements are in the same states.
#[inline]
fn are_in_same_states(doc: &Doc, y: u32, x: u32) -> bool
    requires y { IsElement doc.now.elements y }
    requires x { IsElement doc.now.elements x }
    ensures { result ≡ same_states doc.now.elements y x }
{
    doc.state(y, State::Hover) == doc.state(x, State::Hover)
        && doc.state(y, State::Active) == doc.state(x, State::Active)
        && doc.state(y, State::Focus) == doc.state(x, State::Focus)
}

/// Whether two elements have the same tag.
fn have_same_tag(doc: &Doc, y: u32, x: u32) -> bool
    requires y { IsElement doc.now.elements y }
    requires x { IsElement doc.now.elements x }
    ensures { result ≡ same_text (tag_of doc.now.elements y) (tag_of doc.now.elements x) }
{
    doc.tag(y) == doc.tag(x)
}
