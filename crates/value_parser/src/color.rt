//! Colours (css-color-4, sections 4 to 6).

ghost use Rattle.std.specs.Prelude.{◌≡◌, option_map};
ghost use Rattle.std.specs.Option.{option_or};
ghost use Rattle.value_model.specs.Color.{opaque};
ghost use Rattle.property_table.specs.View.{color_of, value_seen};
ghost use Rattle.sheet_model.specs.ValueIn.{color_in, hex_color_in, named_color_in, rgb_in};

use crate::hex::hex_color;
use crate::named::named_color;
use crate::one_token::{hash_of, ident_of};
use crate::rgb::rgb_of;
use crate::word::keyword_of;
use css_tokens::Token;
use property_table::{Color, Keyword, Value};

/// The colour that the tokens are.
pub(crate) fn color_of(tokens: &[Token]) -> Option<Value>
    ensures { option_map value_seen result ≡ color_in tokens.now }
{
    if let Some(current) = keyword_of(Keyword::CurrentColor, tokens) {
        return Some(current);
    }
    Some(Value::Color(exact_color_of(tokens)?))
}

/// The colour that the tokens are, where they say which.
fn exact_color_of(tokens: &[Token]) -> Option<Color>
    ensures { option_map color_of result
        ≡ option_or (hex_color_in tokens.now) (option_or (named_color_in tokens.now) (rgb_in tokens.now)) }
{
    if let Some(color) = hex_color_of(tokens) {
        return Some(color);
    }
    match named_color_of(tokens) {
        Some(color) => Some(color),
        None => rgb_of(tokens),
    }
}

/// The colour in hexadecimal.
fn hex_color_of(tokens: &[Token]) -> Option<Color>
    ensures { option_map color_of result ≡ hex_color_in tokens.now }
{
    hex_color(hash_of(tokens)?.as_str())
}

/// The colour by its name.
fn named_color_of(tokens: &[Token]) -> Option<Color>
    ensures { option_map color_of result ≡ named_color_in tokens.now }
{
    named_color(ident_of(tokens)?.as_str())
}

/// The colour where nothing says its alpha.
pub(crate) fn opaque(red: u8, green: u8, blue: u8) -> Color
    ensures { color_of result ≡ opaque red green blue }
{
    Color {
        red,
        green,
        blue,
        alpha: u8::MAX,
    }
}
