//! An+B (css-syntax-3, section 6).

ghost use Rattle.std.specs.Prelude.{◌≡◌, IfOk, option_map};
ghost use Rattle.selector_types.specs.SimpleView.{formula_of};
ghost use Rattle.sheet_model.specs.AnPlusB.{an_plus_b_in, formula_words, integer_in, word_in};
ghost use Rattle.sheet_model.specs.SelectorTokens.{named};

use crate::integer::integer;
use crate::kinds::is_integer_number;
use crate::linear::linear;
use crate::names::is;
use css_tokens::{Cursor, Token, name_of, spelling_of, trimmed};
use selector_types::AnB;
use std::alloc::Global;
use stylo_base::{NoMemory, Text};

/// Reads tokens as An+B, with whitespace around it. None: they are none.
#[tactic(auto, unfolding(sheet_model::specs::AnPlusB::an_plus_b_in))]
pub(crate) fn an_plus_b(alloc: Global, tokens: &[Token]) -> Result<Option<AnB>, NoMemory>
    ensures { IfOk result (λ found. option_map formula_of found ≡ an_plus_b_in tokens.now) }
{
    let tokens = trimmed(tokens);
    if let Some(formula) = word(tokens) {
        return Ok(Some(formula));
    }
    if let Some(formula) = integer_alone(tokens) {
        return Ok(Some(formula));
    }
    linear(alloc, tokens)
}

/// `odd` or `even`.
fn word(tokens: &[Token]) -> Option<AnB>
    ensures { option_map formula_of result ≡ word_in tokens.now }
{
    let mut left = Cursor::new(tokens);
    let first = left.next()?;
    if !left.is_at_end() || !first.is_ident() {
        return None;
    }
    formula_word(name_of(first))
}

/// `odd` or `even`, by its name.
fn formula_word(name: &Text) -> Option<AnB>
    ensures { option_map formula_of result ≡ named name.now formula_words }
{
    if is(name, "odd") {
        Some(AnB { a: 2, b: 1 })
    } else if is(name, "even") {
        Some(AnB { a: 2, b: 0 })
    } else {
        None
    }
}

/// An integer: B alone.
fn integer_alone(tokens: &[Token]) -> Option<AnB>
    ensures { option_map formula_of result ≡ integer_in tokens.now }
{
    let mut left = Cursor::new(tokens);
    let first = left.next()?;
    if !left.is_at_end() || !is_integer_number(first) {
        return None;
    }
    Some(AnB {
        a: 0,
        b: integer(spelling_of(first)),
    })
}
