//! Escapes (css-syntax-3, sections 4.3.7 and 4.3.8).

ghost use Rattle.std.specs.Prelude.{◌≡◌, ◌≤◌, length, take, true};
ghost use Rattle.std.specs.List.{prefix_len};
ghost use Rattle.syntax_model.specs.Letters as letters;
ghost use Rattle.syntax_model.specs.TextUnits as model;
ghost use Rattle.css_tokens.specs.Scanned.{unit_of};

use crate::letters::{is_blank, is_hex_digit};
use crate::text_unit::TextUnit;

/// Whether a valid escape starts here.
pub(crate) fn starts_escape(text: &[char]) -> bool
    ensures { result ≡ model.starts_escape text.now }
{
    match text {
        ['\\', '\n', ..] => false,
        ['\\', ..] => true,
        _ => false,
    }
}

/// An escape, by what follows its `\`.
pub(crate) fn escape(text: &[char]) -> TextUnit
    ensures { unit_of result ≡ model.escape text.now }
{
    let Some(first) = text.first() else {
        return TextUnit::saying(1, char::REPLACEMENT_CHARACTER);
    };
    let digits = hex_len(text);
    if digits == 0 {
        return TextUnit::saying(2, *first);
    }
    let (code, rest) = text.split_at(digits);
    TextUnit::saying(
        1 + digits + one_blank_len(rest),
        character_of(hex_number(code)),
    )
}

/// How many hexadecimal digits the text begins with, six at most.
fn hex_len(text: &[char]) -> usize
    ensures value { result ≡ model.hex_len text.now }
    ensures inside { result ≤ length text.now }
    ensures few { result ≤ 6 }
    ensures all { prefix_len letters.is_hex_digit (take result text.now) ≡ result }
{
    let (first, _) = text.split_at(text.len().min(6));
    digits_of(first)
}

/// How many hexadecimal digits the text begins with.
fn digits_of(text: &[char]) -> usize
    ensures value { result ≡ prefix_len letters.is_hex_digit text.now }
    ensures inside { result ≤ length text.now }
{
    text.iter().take_while(|c| is_hex_digit(**c)).count()
}

/// One, where whitespace is next.
fn one_blank_len(text: &[char]) -> usize
    ensures { result ≡ model.one_if letters.is_blank text.now }
{
    match text {
        [first, ..] if is_blank(*first) => 1,
        _ => 0,
    }
}

/// The number that at most six hexadecimal digits are.
fn hex_number(digits: &[char]) -> u32
    requires few { length digits.now ≤ 6 }
    requires all { prefix_len letters.is_hex_digit digits.now ≡ length digits.now }
    ensures { result ≡ model.hex_number 0 digits.now }
{
    let mut number = 0;
    for digit in digits {
        number = 16 * number + hex_value(*digit);
    }
    number
}

/// The value of a hexadecimal digit.
fn hex_value(digit: char) -> u32
    ensures value { result ≡ model.hex_value digit }
    ensures small { letters.is_hex_digit digit ≡ true → result ≤ 15 }
{
    let code = u32::from(digit);
    match digit {
        '0'..='9' => code - 48,
        'a'.. => 10 + (code - 97),
        _ => 10 + code.saturating_sub(65),
    }
}

/// The character of a number: U+FFFD for 0, a surrogate, and what is past U+10FFFF.
fn character_of(number: u32) -> char
    ensures { result ≡ model.character_of number }
{
    match number {
        0 => char::REPLACEMENT_CHARACTER,
        _ => char::from_u32(number).unwrap_or(char::REPLACEMENT_CHARACTER),
    }
}
