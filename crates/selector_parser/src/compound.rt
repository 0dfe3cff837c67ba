//! Compounds: the tests of one element.

ghost use Rattle.std.specs.Prelude.{◌≡◌, ◌<◌, ◌∷◌, [], IfOk, IfSome, length, map, option_map};
ghost use Rattle.selector_types.specs.ComplexView.{test_of, tested};
ghost use Rattle.sheet_model.specs.SelectorsIn.{compound_at, first_at, reader_of, test_at};

use crate::pseudo::pseudo_class_test;
use crate::single::{attribute_test, class_test, id_test};
use css_tokens::Cursor;
use selector_types::{Simple, Test};
use std::alloc::Global;
use stylo_base::{Atom, NoMemory};

/// Consumes a compound, in which lists may be nested so deep, and gives its tests. None: the tokens that are left begin
/// with none.
#[cycle(selector)]
pub(crate) fn compound(
    alloc: Global,
    depth: u32,
    left: &mut Cursor,
) -> Result<Option<Vec<Test>>, NoMemory>
    ensures { IfOk result (λ found. option_map (λ tests. (tested (map test_of tests.items), left.new)) found
        ≡ compound_at (reader_of depth) left.old) }
{
    let Some(mut tests) = first(alloc, depth, left)? else {
        return Ok(None);
    };
    // The proof calls the loop by this label.
    'tests: loop {
        // What is no test is not consumed.
        let mut ahead = left.fork();
        let Some(test) = test(alloc, depth, &mut ahead)? else {
            tests.shrink_to_fit();
            return Ok(Some(tests));
        };
        tests.push(test)?;
        *left = ahead;
    }
}

/// Consumes a type, `*`, or one test.
#[cycle(selector)]
fn first(alloc: Global, depth: u32, left: &mut Cursor) -> Result<Option<Vec<Test>>, NoMemory>
    ensures { IfOk result (λ found. option_map (λ tests. (map test_of tests.items, left.new)) found
        ≡ first_at (reader_of depth) left.old) }
{
    if let Some(name) = left.take_ident() {
        let tag = Atom::of_text(name.copy(alloc)?);
        return Ok(Some(one(alloc, Test::Simple(Simple::Type(tag)))?));
    }
    if left.take_delim('*') {
        return Ok(Some(Vec::new(alloc)));
    }
    let Some(test) = test(alloc, depth, left)? else {
        return Ok(None);
    };
    Ok(Some(one(alloc, test)?))
}

/// One test, with no room for more.
fn one(alloc: Global, test: Test) -> Result<Vec<Test>, NoMemory>
    ensures { IfOk result (λ tests. tests.items ≡ test ∷ []) }
{
    let mut tests = Vec::with_capacity(alloc, 1)?;
    tests.push(test)?;
    Ok(tests)
}

/// Consumes an id, a class, an attribute selector or a pseudo-class.
#[cycle(selector)]
fn test(alloc: Global, depth: u32, left: &mut Cursor) -> Result<Option<Test>, NoMemory>
    ensures value { IfOk result (λ found. option_map (λ test. (test_of test, left.new)) found
        ≡ test_at (reader_of depth) left.old) }
    ensures shorter { IfOk result (λ found. IfSome found (λ test. length left.new < length left.old)) }
{
    if let Some(name) = left.take_id_hash() {
        return Ok(Some(id_test(alloc, name)?));
    }
    if left.take_delim('.') {
        return class_test(alloc, left);
    }
    if left.take_open_square() {
        return attribute_test(alloc, left);
    }
    if !left.take_colon() {
        return Ok(None);
    }
    pseudo_class_test(alloc, depth, left)
}
