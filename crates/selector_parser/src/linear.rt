//! A, and B after it (css-syntax-3, section 6).

ghost use Rattle.std.specs.Prelude.{◌≡◌, IfOk, option_map};
ghost use Rattle.selector_types.specs.SimpleView.{formula_of};
ghost use Rattle.selector_parser.specs.View.{formula_from};
ghost use Rattle.sheet_model.specs.AnPlusB.{head_of, head_of_name, linear_in};

use crate::integer::integer;
use crate::kinds::is_integer_dimension;
use crate::offset::offset;
use css_tokens::characters::characters_of;
use css_tokens::{Cursor, Token, name_of, spelling_of};
use selector_types::AnB;
use std::alloc::Global;
use stylo_base::{NoMemory, Text};

/// Reads tokens as A and B. A is the integer of a dimension, or is said by an identifier, before which `+` may be.
pub(crate) fn linear(alloc: Global, tokens: &[Token]) -> Result<Option<AnB>, NoMemory>
    ensures { IfOk result (λ found. option_map formula_of found ≡ linear_in tokens.now) }
{
    let mut left = Cursor::new(tokens);
    let Some(first) = left.next() else {
        return Ok(None);
    };
    if is_integer_dimension(first) {
        return with_name(
            alloc,
            integer(spelling_of(first)),
            name_of(first),
            &mut left,
        );
    }
    if first.is_ident() {
        return by_name(alloc, name_of(first), &mut left);
    }
    if !first.is_delim('+') {
        return Ok(None);
    }
    let Some(name) = left.take_ident() else {
        return Ok(None);
    };
    with_name(alloc, 1, name, &mut left)
}

/// A and B by an identifier: A is 1, or -1 where a hyphen is first.
fn by_name(alloc: Global, name: &Text, left: &mut Cursor) -> Result<Option<AnB>, NoMemory>
    ensures { IfOk result (λ found.
        option_map formula_of found ≡ formula_from (head_of_name name.now left.old)) }
{
    let word = characters_of(alloc, name.as_str())?;
    match word.split_first() {
        Some((first, rest)) if *first == '-' => Ok(with_word(-1, rest, left)),
        _ => Ok(with_word(1, word.as_slice(), left)),
    }
}

/// This A, and B by the name after it.
fn with_name(alloc: Global, a: i32, name: &Text, left: &mut Cursor) -> Result<Option<AnB>, NoMemory>
    ensures { IfOk result (λ found.
        option_map formula_of found ≡ formula_from (head_of a name.now left.old)) }
{
    let word = characters_of(alloc, name.as_str())?;
    Ok(with_word(a, word.as_slice(), left))
}

/// This A, and B by the word after it.
fn with_word(a: i32, word: &[char], left: &mut Cursor) -> Option<AnB>
    ensures { option_map formula_of result ≡ formula_from (head_of a word.now left.old) }
{
    let b = offset(word, left)?;
    Some(AnB { a, b })
}
