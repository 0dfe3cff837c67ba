//! Integers, by their spelling.

ghost use Rattle.std.specs.Prelude.{◌≡◌, ◌+◌, ◌-◌, ◌*◌, ◌≤◌, ◌≤ℤ◌, min, pos};
ghost use Rattle.std.specs.List.{list_all};
ghost use Rattle.base_model.specs.Ascii.{digit_zero};
ghost use Rattle.sheet_model.specs.AnPlusB as model;
ghost use Rattle.sheet_model.specs.AnPlusB.{greatest_index, size_of};
ghost use Rattle.syntax_model.specs.Letters.{begins, is_digit, is_sign};

use css_tokens::letters::{is_digit, is_minus, is_sign};

/// What digits say, at most 2,147,483,647.
pub(crate) fn size(digits: &[char]) -> i32
    ensures value { result ≡ pos (size_of digits.now) }
    ensures positive { pos 0 ≤ℤ result }
{
    let mut size: u64 = 0;
    for c in digits {
        size = next(size, *c);
    }
    size as i32
}

/// The size with one more digit.
fn next(size: u64, digit: char) -> u64
    requires { size ≤ greatest_index }
    ensures value { result ≡ min greatest_index (10 * size + (digit - digit_zero)) }
    ensures small { result ≤ greatest_index }
{
    let value = u64::from(u32::from(digit).saturating_sub(48));
    (10 * size + value).min(2_147_483_647)
}

/// What an integer says, which may have a sign.
pub(crate) fn integer(text: &[char]) -> i32
    ensures { result ≡ model.integer text.now }
{
    let digits = if is_signed(text) { &text[1..] } else { text };
    let size = size(digits);
    if is_minus(text) { -size } else { size }
}

/// Whether a sign is first.
pub(crate) fn is_signed(text: &[char]) -> bool
    ensures { result ≡ begins is_sign text.now }
{
    match text.first() {
        Some(c) => is_sign(*c),
        None => false,
    }
}

/// Whether all are digits.
pub(crate) fn are_digits(text: &[char]) -> bool
    ensures { result ≡ list_all is_digit text.now }
{
    text.iter().all(|c| is_digit(*c))
}
