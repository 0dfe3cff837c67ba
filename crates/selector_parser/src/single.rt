//! Tests that hold no selectors.

ghost use Rattle.std.specs.Prelude.{◌≡◌, ◌≤◌, IfOk, IfSome, length, option_map};
ghost use Rattle.selector_model.specs.Selector.{id_selector, simple};
ghost use Rattle.selector_types.specs.ComplexView.{test_of};
ghost use Rattle.sheet_model.specs.SelectorsIn.{attribute_at, class_at};

use crate::attribute::attribute;
use css_tokens::{Bracket, Cursor};
use selector_types::{Simple, Test};
use std::alloc::Global;
use stylo_base::{Atom, NoMemory, Text};

/// The test of an id.
pub(crate) fn id_test(alloc: Global, name: &Text) -> Result<Test, NoMemory>
    ensures { IfOk result (λ test. test_of test ≡ simple (id_selector name.now)) }
{
    Ok(Test::Simple(Simple::Id(Atom::of_text(name.copy(alloc)?))))
}

/// Consumes a class after its `.`.
pub(crate) fn class_test(alloc: Global, left: &mut Cursor) -> Result<Option<Test>, NoMemory>
    ensures value { IfOk result (λ found. option_map (λ test. (test_of test, left.new)) found
        ≡ class_at left.old) }
    ensures shorter { IfOk result (λ found. IfSome found (λ test. length left.new ≤ length left.old)) }
{
    let Some(name) = left.take_ident() else {
        return Ok(None);
    };
    let class = Atom::of_text(name.copy(alloc)?);
    Ok(Some(Test::Simple(Simple::Class(class))))
}

/// Consumes an attribute selector after its `[`.
pub(crate) fn attribute_test(alloc: Global, left: &mut Cursor) -> Result<Option<Test>, NoMemory>
    ensures value { IfOk result (λ found. option_map (λ test. (test_of test, left.new)) found
        ≡ attribute_at left.old) }
    ensures shorter { IfOk result (λ found. IfSome found (λ test. length left.new ≤ length left.old)) }
{
    let tokens = left.inside(alloc, Bracket::Square)?;
    let Some(test) = attribute(alloc, tokens)? else {
        return Ok(None);
    };
    Ok(Some(Test::Simple(test)))
}
