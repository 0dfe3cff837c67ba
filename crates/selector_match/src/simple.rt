//! Tests of one element by itself, its attributes, its states or its index among its siblings.

ghost use Rattle.std.specs.Prelude.{◌≡◌};
ghost use Rattle.scene_model.specs.Lookups.{IsElement};
ghost use Rattle.selector_model.specs.Holds.{passes as model_passes};
ghost use Rattle.selector_types.specs.SimpleView.{simple_of};

use crate::compared::compared;
use crate::index::{index_by, is_nth, is_only};
use dom_tree::Doc;
use selector_types::Simple;

/// Whether `x` passes the test.
pub(crate) fn passes(doc: &Doc, test: &Simple, x: u32) -> bool
    requires { IsElement doc.now.elements x }
    ensures { result ≡ model_passes doc.now.elements (simple_of test.now) x }
{
    match test {
        Simple::Type(tag) => doc.has_tag_atom(x, tag),
        Simple::Id(id) => doc.has_id_atom(x, id),
        Simple::Class(class) => doc.has_class_atom(x, class),
        Simple::Attribute(name) => doc.attribute_atom(x, name).is_some(),
        Simple::AttributeCompares(test) => match doc.attribute_atom(x, &test.name) {
            Some(found) => compared(found, test.operator, test.value.as_str(), test.case_counts),
            None => false,
        },
        Simple::Root => doc.parent(x).is_none(),
        Simple::Empty => doc.children(x).is_empty(),
        Simple::Nth(nth) => is_nth(nth.formula, index_by(doc, nth.from_last, nth.of_type, x)),
        Simple::Only { of_type } => is_only(doc, *of_type, x),
        Simple::State(state) => doc.state(x, *state),
    }
}
