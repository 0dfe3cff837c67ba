//! Pseudo-classes.

ghost use Rattle.std.specs.Prelude.{◌≡◌, ◌≤◌, IfOk, IfSome, length, option_map};
ghost use Rattle.selector_types.specs.ComplexView.{test_of};
ghost use Rattle.selector_parser.specs.View.{function_of};
ghost use Rattle.sheet_model.specs.SelectorsIn.{complex_in, function_at, function_by, index_by, not_list, pseudo_class_at, reader_of};

use crate::an_plus_b::an_plus_b;
use crate::function::Function;
use crate::nested::{forgiving, strict};
use crate::pseudo_class::{function, indexed, pseudo_class};
use css_tokens::{Bracket, Cursor, Token};
use selector_types::Test;
use std::alloc::Global;
use stylo_base::{NoMemory, Text};

/// Consumes a pseudo-class after its colon.
#[cycle(selector)]
pub(crate) fn pseudo_class_test(
    alloc: Global,
    depth: u32,
    left: &mut Cursor,
) -> Result<Option<Test>, NoMemory>
    ensures value { IfOk result (λ found. option_map (λ test. (test_of test, left.new)) found
        ≡ pseudo_class_at (reader_of depth) left.old) }
    ensures shorter { IfOk result (λ found. IfSome found (λ test. length left.new ≤ length left.old)) }
{
    if let Some(name) = left.take_ident() {
        let Some(test) = pseudo_class(name) else {
            return Ok(None);
        };
        return Ok(Some(Test::Simple(test)));
    }
    let Some(name) = left.take_function() else {
        return Ok(None);
    };
    function_test(alloc, depth, name, left)
}

/// Consumes what is in the brackets of the pseudo-class of this name, and their closer.
#[cycle(selector)]
fn function_test(
    alloc: Global,
    depth: u32,
    name: &Text,
    left: &mut Cursor,
) -> Result<Option<Test>, NoMemory>
    ensures value { IfOk result (λ found. option_map (λ test. (test_of test, left.new)) found
        ≡ function_at (reader_of depth) name.now left.old) }
    ensures shorter { IfOk result (λ found. IfSome found (λ test. length left.new ≤ length left.old)) }
{
    let Some(function) = function(name) else {
        return Ok(None);
    };
    let tokens = left.inside(alloc, Bracket::Round)?;
    by_function(alloc, depth, function, tokens)
}

/// What a pseudo-class says of the tokens in its brackets.
#[cycle(selector)]
fn by_function(
    alloc: Global,
    depth: u32,
    function: Function,
    tokens: &[Token],
) -> Result<Option<Test>, NoMemory>
    ensures { IfOk result (λ found. option_map test_of found
        ≡ reader_of depth (function_of function) tokens.now) }
{
    if depth == 0 {
        return by_index(alloc, function, tokens);
    }
    by_list(alloc, depth - 1, function, tokens)
}

/// The same where a list may be opened, in which lists may be nested so deep.
#[cycle(selector)]
fn by_list(
    alloc: Global,
    depth: u32,
    function: Function,
    tokens: &[Token],
) -> Result<Option<Test>, NoMemory>
    ensures { IfOk result (λ found. option_map test_of found
        ≡ function_by (complex_in (reader_of depth)) (function_of function) tokens.now) }
{
    match function {
        Function::Index { .. } => by_index(alloc, function, tokens),
        Function::Is => Ok(Some(Test::Is(forgiving(alloc, depth, tokens)?))),
        Function::Where => Ok(Some(Test::Where(forgiving(alloc, depth, tokens)?))),
        Function::Not => not_test(alloc, depth, tokens),
    }
}

/// `:not`: each member has to be a selector.
#[cycle(selector)]
fn not_test(alloc: Global, depth: u32, tokens: &[Token]) -> Result<Option<Test>, NoMemory>
    ensures { IfOk result (λ found. option_map test_of found
        ≡ function_by (complex_in (reader_of depth)) not_list tokens.now) }
{
    let Some(mut list) = strict(alloc, depth, tokens)? else {
        return Ok(None);
    };
    list.shrink_to_fit();
    Ok(Some(Test::Not(list)))
}

/// An+B, where no list may be opened.
fn by_index(alloc: Global, function: Function, tokens: &[Token]) -> Result<Option<Test>, NoMemory>
    ensures { IfOk result (λ found. option_map test_of found ≡ index_by (function_of function) tokens.now) }
{
    let Function::Index { from_last, of_type } = function else {
        return Ok(None);
    };
    let Some(formula) = an_plus_b(alloc, tokens)? else {
        return Ok(None);
    };
    Ok(Some(Test::Simple(indexed(from_last, of_type, formula))))
}
