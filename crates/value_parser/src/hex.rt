//! Colours in hexadecimal (css-color-4, section 5.2).

ghost use Rattle.std.specs.Prelude.{◌≡◌, ◌<◌, IsTrue, true, option_map};
ghost use Rattle.std.specs.Char.{digit_value, is_ascii_hexdigit};
ghost use Rattle.std.specs.List.{AllPass, list_all};
ghost use Rattle.std.specs.Str.{chars};
ghost use Rattle.property_table.specs.View.{color_of};
ghost use Rattle.value_model.specs.HexColor.{doubled, hex_color, pair};

use crate::color::opaque;
use property_table::Color;

/// The colour of the digits after a `#`.
pub(crate) fn hex_color(text: &str) -> Option<Color>
    ensures { option_map color_of result ≡ hex_color (chars text.now) }
{
    color_of_digits(text.as_bytes())
}

/// The colour of three, four, six or eight digits.
fn color_of_digits(digits: &[u8]) -> Option<Color>
    ensures { option_map color_of result ≡ hex_color digits.now }
{
    if !are_digits(digits) {
        return None;
    }
    match digits {
        [r, g, b] => Some(opaque(doubled(*r), doubled(*g), doubled(*b))),
        [r, g, b, a] => Some(Color {
            red: doubled(*r),
            green: doubled(*g),
            blue: doubled(*b),
            alpha: doubled(*a),
        }),
        [r, s, g, h, b, c] => Some(opaque(pair(*r, *s), pair(*g, *h), pair(*b, *c))),
        [r, s, g, h, b, c, a, d] => Some(Color {
            red: pair(*r, *s),
            green: pair(*g, *h),
            blue: pair(*b, *c),
            alpha: pair(*a, *d),
        }),
        _ => None,
    }
}

/// Whether each is a digit.
fn are_digits(text: &[u8]) -> bool
    ensures test { result ≡ list_all is_ascii_hexdigit text.now }
    ensures each { IsTrue result → AllPass is_ascii_hexdigit text.now }
{
    text.iter().all(|byte| byte.is_ascii_hexdigit())
}

/// The number of a digit twice.
fn doubled(digit: u8) -> u8
    requires { is_ascii_hexdigit digit ≡ true }
    ensures { result ≡ doubled (digit_value digit) }
{
    pair(digit, digit)
}

/// The number of two digits.
fn pair(high: u8, low: u8) -> u8
    requires high { is_ascii_hexdigit high ≡ true }
    requires low { is_ascii_hexdigit low ≡ true }
    ensures { result ≡ pair (digit_value high) (digit_value low) }
{
    16 * value_of_digit(high) + value_of_digit(low)
}

/// The number of a digit.
fn value_of_digit(digit: u8) -> u8
    requires { is_ascii_hexdigit digit ≡ true }
    ensures value { result ≡ digit_value digit }
    ensures small { result < 16 }
{
    match digit {
        b'0'..=b'9' => digit - b'0',
        b'A'..=b'F' => digit - b'A' + 10,
        _ => digit - b'a' + 10,
    }
}
