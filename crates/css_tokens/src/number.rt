//! Numbers in a text (css-syntax-3, sections 4.3.10 and 4.3.12).

ghost use Rattle.std.specs.Prelude.{◌≡◌, ◌≤◌, length};
ghost use Rattle.syntax_model.specs.Letters as letters;
ghost use Rattle.syntax_model.specs.Numbers as model;
ghost use Rattle.syntax_model.specs.TextUnits.{one_if};

use crate::letters::{is_digit, is_e, is_sign};

/// How many characters a number has, and whether it is an integer.
#[derive(Clone, Copy)]
pub(crate) struct NumberLength {
    pub len: usize,
    pub is_integer: bool,
}

/// Whether a number starts here.
pub(crate) fn starts_number(text: &[char]) -> bool
    ensures { result ≡ model.starts_number text.now }
{
    let (_, unsigned) = text.split_at(sign_len(text));
    begins_digit(unsigned) || starts_fraction(unsigned)
}

/// The number that the text begins with.
pub(crate) fn number(text: &[char]) -> NumberLength
    ensures len { result.len ≡ model.number_len text.now }
    ensures inside { result.len ≤ length text.now }
    ensures integer { result.is_integer ≡ model.is_integer text.now }
{
    let sign = sign_len(text);
    let (_, unsigned) = text.split_at(sign);
    let whole = digits_len(unsigned);
    let (_, after_whole) = unsigned.split_at(whole);
    let fraction = fraction_len(after_whole);
    let (_, after_fraction) = after_whole.split_at(fraction);
    let exponent = exponent_len(after_fraction);
    NumberLength {
        len: sign + whole + fraction + exponent,
        is_integer: fraction == 0 && exponent == 0,
    }
}

/// One, where a sign is next.
pub(crate) fn sign_len(text: &[char]) -> usize
    ensures value { result ≡ model.sign_len text.now }
    ensures inside { result ≤ length text.now }
{
    match text {
        [first, ..] if is_sign(*first) => 1,
        _ => 0,
    }
}

/// How many digits the text begins with.
pub(crate) fn digits_len(text: &[char]) -> usize
    ensures value { result ≡ model.digits_len text.now }
    ensures inside { result ≤ length text.now }
{
    text.iter().take_while(|c| is_digit(**c)).count()
}

/// Whether a digit is next.
pub(crate) fn begins_digit(text: &[char]) -> bool
    ensures { result ≡ letters.begins letters.is_digit text.now }
{
    match text {
        [first, ..] => is_digit(*first),
        [] => false,
    }
}

/// Whether a point and a digit are next.
fn starts_fraction(text: &[char]) -> bool
    ensures { result ≡ model.starts_fraction text.now }
{
    match text.split_first() {
        Some(('.', rest)) => begins_digit(rest),
        _ => false,
    }
}

/// The length of the point and the digits that are next, if they are.
pub(crate) fn fraction_len(text: &[char]) -> usize
    ensures value { result ≡ model.fraction_len text.now }
    ensures inside { result ≤ length text.now }
{
    match text.split_first() {
        Some((_, rest)) if starts_fraction(text) => 1 + digits_len(rest),
        _ => 0,
    }
}

/// The length of the exponent that is next, if one is: `e`, maybe a sign, and digits.
pub(crate) fn exponent_len(text: &[char]) -> usize
    ensures value { result ≡ model.exponent_len text.now }
    ensures inside { result ≤ length text.now }
{
    let Some((first, rest)) = text.split_first() else {
        return 0;
    };
    let sign = sign_len(rest);
    let (_, digits) = rest.split_at(sign);
    if is_e(*first) && begins_digit(digits) {
        1 + sign + digits_len(digits)
    } else {
        0
    }
}
