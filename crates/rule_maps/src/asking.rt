//! Whether a selector asks for ancestors.

ghost use Rattle.std.specs.Prelude.{◌≡◌};
ghost use Rattle.ancestor_model.specs.Above.{ancestor_names, names_in, names_left, names_of_test};
ghost use Rattle.selector_types.specs.ComplexView.{compound_of, left_of, test_of};
ghost use Rattle.selector_types.specs.View.{selector_of};
ghost use Rattle.rule_maps.specs.Asking.{has_some};

use selector_types::{Combinator, Compound, Left, Selector, Simple, Test};

/// Whether a selector has an ancestor name: a type, an id or a class that some ancestor must have where it holds. It
/// takes no memory.
pub fn asks_ancestors(selector: &Selector) -> bool
    ensures { result ≡ has_some (ancestor_names (selector_of selector.now)) }
{
    let mut at = selector.complex();
    while let Some(left) = &at.left {
        if left_asks(left) {
            return true;
        }
        at = &left.rest;
    }
    false
}

/// Whether what is on the left of a combinator is an ancestor, and has a name.
fn left_asks(left: &Left) -> bool
    ensures { result ≡ has_some (names_left (left_of left.now).combinator (left_of left.now).rest) }
{
    match left.combinator {
        Combinator::Descendant | Combinator::Child => has_name(&left.rest.subject),
        Combinator::NextSibling | Combinator::LaterSibling => false,
    }
}

/// Whether a compound asks for a name, but in nested lists.
fn has_name(compound: &Compound) -> bool
    ensures { result ≡ has_some (names_in (compound_of compound.now)) }
{
    for test in &compound.tests {
        if is_name(test) {
            return true;
        }
    }
    false
}

/// Whether a test asks for a type, an id or a class.
fn is_name(test: &Test) -> bool
    ensures { result ≡ has_some (names_of_test (test_of test.now)) }
{
    matches!(
        test,
        Test::Simple(Simple::Type(_)) | Test::Simple(Simple::Id(_)) | Test::Simple(Simple::Class(_))
    )
}
