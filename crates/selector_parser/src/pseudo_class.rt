//! The pseudo-classes by their names.

ghost use Rattle.std.specs.Prelude.{◌≡◌, option_map, pos};
ghost use Rattle.selector_types.specs.SimpleView.{formula_of, simple_of};
ghost use Rattle.selector_parser.specs.View.{function_of};
ghost use Rattle.sheet_model.specs.AnPlusB.{formula};
ghost use Rattle.sheet_model.specs.SelectorTokens.{named};
ghost use Rattle.sheet_model.specs.SelectorsIn.{functions, index as model_index, indexed, pseudo_classes};

use crate::function::Function;
use crate::names::is;
use selector_types::{AnB, Nth, Simple};
use stylo_base::{State, Text};

/// The pseudo-class without brackets that has this name.
pub(crate) fn pseudo_class(name: &Text) -> Option<Simple>
    ensures { option_map simple_of result ≡ named name.now pseudo_classes }
{
    if is(name, "root") {
        Some(Simple::Root)
    } else if is(name, "empty") {
        Some(Simple::Empty)
    } else if is(name, "first-child") {
        Some(at_end(false, false))
    } else if is(name, "last-child") {
        Some(at_end(true, false))
    } else if is(name, "only-child") {
        Some(Simple::Only { of_type: false })
    } else if is(name, "first-of-type") {
        Some(at_end(false, true))
    } else if is(name, "last-of-type") {
        Some(at_end(true, true))
    } else if is(name, "only-of-type") {
        Some(Simple::Only { of_type: true })
    } else if is(name, "hover") {
        Some(Simple::State(State::Hover))
    } else if is(name, "active") {
        Some(Simple::State(State::Active))
    } else if is(name, "focus") {
        Some(Simple::State(State::Focus))
    } else {
        None
    }
}

/// The first index, or the first from the last.
fn at_end(from_last: bool, of_type: bool) -> Simple
    ensures { simple_of result ≡ indexed from_last of_type (formula (pos 0) (pos 1)) }
{
    indexed(from_last, of_type, AnB { a: 0, b: 1 })
}

/// An index from the first or from the last, among all siblings or among those of the same type.
pub(crate) fn indexed(from_last: bool, of_type: bool, formula: AnB) -> Simple
    ensures { simple_of result ≡ indexed from_last of_type (formula_of formula) }
{
    Simple::Nth(Nth {
        formula,
        from_last,
        of_type,
    })
}

/// The pseudo-class with brackets that has this name.
pub(crate) fn function(name: &Text) -> Option<Function>
    ensures { option_map function_of result ≡ named name.now functions }
{
    if is(name, "is") {
        Some(Function::Is)
    } else if is(name, "where") {
        Some(Function::Where)
    } else if is(name, "not") {
        Some(Function::Not)
    } else if is(name, "nth-child") {
        Some(index(false, false))
    } else if is(name, "nth-last-child") {
        Some(index(true, false))
    } else if is(name, "nth-of-type") {
        Some(index(false, true))
    } else if is(name, "nth-last-of-type") {
        Some(index(true, true))
    } else {
        None
    }
}

/// One that takes An+B.
fn index(from_last: bool, of_type: bool) -> Function
    ensures { function_of result ≡ model_index from_last of_type }
{
    Function::Index { from_last, of_type }
}
