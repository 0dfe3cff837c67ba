//! B, after A (css-syntax-3, section 6).

ghost use Rattle.std.specs.Prelude.{◌≡◌, ◌≤ℤ◌, IfSome, neg_ℤ, option_map, pos};
ghost use Rattle.sheet_model.specs.AnPlusB.{after_n, apart_in, b_in, minus_in, signless_in};
ghost use Rattle.syntax_model.specs.TokenKinds.{without_white};

use crate::integer::{are_digits, integer, is_signed, size};
use crate::kinds::is_integer_number;
use css_tokens::{Cursor, spelling_of};

/// B by the word that begins with `n`, and what comes after it.
pub(crate) fn offset(word: &[char], left: &mut Cursor) -> Option<i32>
    ensures { result ≡ b_in word.now left.old }
{
    let (first, ending) = word.split_first()?;
    if first.to_ascii_lowercase() != 'n' {
        return None;
    }
    after_n(ending, left)
}

/// B after `n`, of which the word may have more.
fn after_n(ending: &[char], left: &mut Cursor) -> Option<i32>
    ensures { result ≡ after_n ending.now left.old }
{
    let Some((first, digits)) = ending.split_first() else {
        left.skip_whitespace();
        return apart(left);
    };
    if *first != '-' {
        return None;
    }
    after_minus(digits, left)
}

/// B after `n-`: the digits of the same word, or an integer without a sign.
fn after_minus(digits: &[char], left: &mut Cursor) -> Option<i32>
    ensures { result ≡ minus_in digits.now left.old }
{
    if digits.is_empty() {
        return negated(signless(left));
    }
    if !are_digits(digits) || !left.is_at_end() {
        return None;
    }
    Some(-size(digits))
}

/// B apart from `n`: nothing, an integer with a sign, or a sign and an integer without one.
fn apart(left: &mut Cursor) -> Option<i32>
    ensures { result ≡ apart_in left.old }
{
    let Some(first) = left.next() else {
        return Some(0);
    };
    if first.is_delim('+') {
        return signless(left);
    }
    if first.is_delim('-') {
        return negated(signless(left));
    }
    if !is_integer_number(first) || !is_signed(spelling_of(first)) || !left.is_at_end() {
        return None;
    }
    Some(integer(spelling_of(first)))
}

/// The number below zero.
fn negated(size: Option<i32>) -> Option<i32>
    requires { IfSome size (λ n. pos 0 ≤ℤ n) }
    ensures { result ≡ option_map neg_ℤ size }
{
    match size {
        Some(size) => Some(-size),
        None => None,
    }
}

/// An integer without a sign, alone after whitespace.
fn signless(left: &mut Cursor) -> Option<i32>
    ensures value { result ≡ signless_in (without_white left.old) }
    ensures positive { IfSome result (λ n. pos 0 ≤ℤ n) }
{
    left.skip_whitespace();
    let first = left.next()?;
    if !left.is_at_end() || !is_integer_number(first) || is_signed(spelling_of(first)) {
        return None;
    }
    Some(size(spelling_of(first)))
}
