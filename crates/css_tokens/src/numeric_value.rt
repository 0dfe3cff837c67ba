//! The value of a number.

ghost use Rattle.std.specs.Prelude.{◌≡◌, ◌≤◌, ◌*◌, ◌^◌, ◌++◌, length, drop, min, All, if◌then◌else◌, pos, neg_ℤ};
ghost use Rattle.base_model.specs.Thousandths.{clamped};
ghost use Rattle.syntax_model.specs.Numbers as model;
ghost use Rattle.syntax_model.specs.Numbers.{decimal_number};
ghost use Rattle.syntax_model.specs.TextUnits.{one_if};
ghost use Rattle.css_tokens.specs.Decimal.{IsDigit, far, front_of, is_half, many, size_of};

use crate::letters::is_minus;
use crate::number::{digits_len, exponent_len, fraction_len, sign_len};
use crate::{Token, TokenKind, spelling_of};
use stylo_base::Fixed;

/// More than any number of thousandths that a value has.
const MANY: u128 = 10_000_000_000_000;

/// More places than any text has characters.
const FAR: u128 = 100_000_000_000_000_000_000;

/// The value of a token in thousandths, if it is a number, a percentage or a dimension
/// (css-syntax-3, section 4.3.13): rounded once, halves away from 0, and clamped.
pub fn value_of(token: &Token) -> Option<Fixed>
    ensures { result ≡ model.numeric_value token.now }
{
    match token.kind() {
        TokenKind::Number { .. } | TokenKind::Percentage | TokenKind::Dimension { .. } => {
            Some(thousandths(spelling_of(token)))
        }
        _ => None,
    }
}

/// The parts of a number: the digits before and after the point, and by how many places the exponent
/// moves them to the left and to the right, where it is not too far to tell.
#[derive(Clone, Copy)]
struct Decimal<'a> {
    whole: &'a [char],
    fraction: &'a [char],
    raised: u128,
    lowered: u128,
}

/// The value of a number as it is spelled, in thousandths.
fn thousandths(spelling: &[char]) -> Fixed
    ensures { result ≡ model.thousandths spelling.now }
{
    let size = size(&parts(spelling));
    signed(is_minus(spelling), size)
}

/// So many thousandths below or above 0, clamped.
fn signed(is_negative: bool, size: u128) -> Fixed
    requires { size ≤ many }
    ensures { result ≡ clamped (if is_negative then neg_ℤ (pos size) else pos size) }
{
    let above = size as i128;
    Fixed::clamp(if is_negative { -above } else { above })
}

/// The parts of a number as it is spelled.
fn parts(spelling: &[char]) -> Decimal
    ensures digits { model.all_digits spelling.now ≡ result.whole.now ++ result.fraction.now }
    ensures fraction { result.fraction.now ≡ model.fraction_digits spelling.now }
    ensures raised { result.raised ≡ min far (model.raised spelling.now) }
    ensures lowered { result.lowered ≡ min far (model.lowered spelling.now) }
    ensures whole_digits { All IsDigit result.whole.now }
    ensures fraction_digits { All IsDigit result.fraction.now }
{
    let (_, unsigned) = spelling.split_at(sign_len(spelling));
    let (whole, after_whole) = unsigned.split_at(digits_len(unsigned));
    let (pointed, after_fraction) = after_whole.split_at(fraction_len(after_whole));
    let (exponent, _) = after_fraction.split_at(exponent_len(after_fraction));
    let places = without_first(exponent);
    let far = exponent_size(places);
    let is_lowered = is_minus(places);
    Decimal {
        whole,
        fraction: without_first(pointed),
        raised: if is_lowered { 0 } else { far },
        lowered: if is_lowered { far } else { 0 },
    }
}

/// By how many places an exponent moves the digits, by what follows its `e`, or `FAR`.
fn exponent_size(places: &[char]) -> u128
    ensures { result ≡ min far (decimal_number 0 (model.after_sign places.now)) }
{
    let (_, digits) = places.split_at(sign_len(places));
    number_after(0, digits, FAR)
}

/// How many thousandths a number is: the exact fraction, rounded once, or `MANY`.
fn size(decimal: &Decimal) -> u128
    requires whole { All IsDigit decimal.now.whole.now }
    requires fraction { All IsDigit decimal.now.fraction.now }
    requires raised { decimal.now.raised ≤ far }
    ensures { result ≡ min many (size_of
        decimal.now.whole.now decimal.now.fraction.now decimal.now.raised decimal.now.lowered) }
{
    let point = decimal.whole.len() as u128 + 3 + decimal.raised;
    if point < decimal.lowered {
        return 0;
    }
    front(decimal.whole, decimal.fraction, point - decimal.lowered)
}

/// The number that the first `kept` digits are, with zeros where there are too few, rounded by the
/// digit that follows them, or `MANY`.
fn front(whole: &[char], fraction: &[char], kept: u128) -> u128
    ensures { result ≡ min many (front_of (whole.now ++ fraction.now) kept) }
{
    let (first, rest) = whole.split_at(at_most(whole, kept));
    let left = kept - first.len() as u128;
    let (second, last) = fraction.split_at(at_most(fraction, left));
    let zeros = left - second.len() as u128;
    let number = number_after(number_after(0, first, MANY), second, MANY);
    with_zeros(number + half(rest, last), zeros)
}

/// How many digits there are, `most` at most.
fn at_most(digits: &[char], most: u128) -> usize
    ensures { result ≡ min (length digits.now) most }
{
    (digits.len() as u128).min(most) as usize
}

/// One, where the first digit of those that are left out is 5 or more.
fn half(rest: &[char], last: &[char]) -> u128
    ensures value { result ≡ one_if is_half (rest.now ++ last.now) }
    ensures small { result ≤ 1 }
{
    match rest.first().or(last.first()) {
        Some(digit) if *digit >= '5' => 1,
        _ => 0,
    }
}

/// A number with so many zeros after it, or `MANY`.
fn with_zeros(number: u128, zeros: u128) -> u128
    ensures { result ≡ min many (number * 10 ^ zeros) }
{
    let mut value = number;
    let mut left = zeros;
    while left > 0 && value > 0 && value < MANY {
        value *= 10;
        left -= 1;
    }
    value.min(MANY)
}

/// The number that digits are after others that have this value, or `most`.
fn number_after(value: u128, digits: &[char], most: u128) -> u128
    requires within { value ≤ most }
    requires fits { most ≤ far }
    ensures { result ≡ min most (decimal_number value digits.now) }
{
    let mut number = value;
    for digit in digits {
        let next = u128::from(u32::from(*digit)).saturating_sub(48);
        number = (10 * number + next).min(most);
    }
    number
}

/// All characters but the first.
fn without_first(text: &[char]) -> &[char]
    ensures { result.now ≡ drop 1 text.now }
{
    match text {
        [_, rest @ ..] => rest,
        [] => text,
    }
}
