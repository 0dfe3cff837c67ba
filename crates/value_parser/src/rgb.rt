//! Colours by `rgb()` with three integers (css-color-4, section 5.1, with commas).

ghost use Rattle.std.specs.Prelude.{◌≡◌, codes, option_map};
ghost use Rattle.base_model.specs.Text.{is_word};
ghost use Rattle.property_table.specs.View.{color_of};
ghost use Rattle.sheet_model.specs.ValueIn.{channel_at, channel_by, channel_of, channels_in, is_closed, next_channel_at, rgb_in};

use crate::color::opaque;
use css_tokens::{Cursor, Token, TokenKind, value_of};
use property_table::Color;
use stylo_base::{Fixed, Text, eq_ascii_case};

/// The colour that the tokens are, by its parts.
pub(crate) fn rgb_of(tokens: &[Token]) -> Option<Color>
    ensures { option_map color_of result ≡ rgb_in tokens.now }
{
    let mut cursor = Cursor::new(tokens);
    let name = cursor.take_function()?;
    if is_rgb(name) {
        channels(&mut cursor)
    } else {
        None
    }
}

/// Whether a function of this name is `rgb(`.
fn is_rgb(name: &Text) -> bool
    ensures { result ≡ is_word (codes "rgb") name.now }
{
    eq_ascii_case(name.as_str(), "rgb")
}

/// The colour of three integers, and after them the closing bracket alone.
fn channels(cursor: &mut Cursor) -> Option<Color>
    ensures { option_map color_of result ≡ channels_in cursor.old }
{
    let red = channel(cursor)?;
    let green = next_channel(cursor)?;
    let blue = next_channel(cursor)?;
    if is_closed(cursor) {
        Some(opaque(red, green, blue))
    } else {
        None
    }
}

/// The integer after a comma.
fn next_channel(cursor: &mut Cursor) -> Option<u8>
    ensures { option_map (λ n. (n, cursor.new)) result ≡ next_channel_at cursor.old }
{
    if cursor.next()?.is_comma() {
        channel(cursor)
    } else {
        None
    }
}

/// The integer that is next, and the whitespace around it.
fn channel(cursor: &mut Cursor) -> Option<u8>
    ensures { option_map (λ n. (n, cursor.new)) result ≡ channel_at cursor.old }
{
    cursor.skip_whitespace();
    let part = channel_by(cursor.next()?)?;
    cursor.skip_whitespace();
    Some(part)
}

/// The part that the token is, where it is an integer.
fn channel_by(token: &Token) -> Option<u8>
    ensures { result ≡ channel_by token.now.kind token.now.spelling }
{
    match token.kind() {
        TokenKind::Number { is_integer: true } => Some(channel_of(value_of(token)?)),
        _ => None,
    }
}

/// An integer as a part of a colour, from 0 to 255.
fn channel_of(amount: Fixed) -> u8
    ensures { result ≡ channel_of amount }
{
    (amount.thousandths().max(0) / 1000).min(255) as u8
}

/// Whether the closing bracket is next, and nothing after it.
fn is_closed(cursor: &mut Cursor) -> bool
    ensures { result ≡ is_closed cursor.old }
{
    match cursor.next() {
        Some(token) => token.kind().is_close_round() && cursor.is_at_end(),
        None => false,
    }
}
