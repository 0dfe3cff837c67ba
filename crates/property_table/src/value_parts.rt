//! A value as a byte and a number, as styles keep it: without padding, and compared as runs.

ghost use Rattle.std.specs.Prelude.{◌≡◌};
ghost use Rattle.property_table.specs.ValueParts.{AreBytes, HasByteParts, value_of_word, color_bits, color_with, keyword_value, value_amount, value_word};
ghost use Rattle.property_table.specs.View.{color_of, value_seen, word_of};
ghost use Rattle.value_model.specs.Value.{keyword};

use crate::word::{COLOR, EM, FIRST_KEYWORD, NUMBER, PERCENT, PIXELS, REM};
use crate::{Color, KEYWORDS, Keyword, Value};
use stylo_base::Fixed;

impl Value {
    /// Which keyword the value is, or of which kind.
    pub fn word(self) -> u8
        ensures { result ≡ value_word self }
    {
        match self {
            Value::Keyword(keyword) => FIRST_KEYWORD + keyword as u8,
            Value::Color(_) => COLOR,
            Value::Pixels(_) => PIXELS,
            Value::Percent(_) => PERCENT,
            Value::Number(_) => NUMBER,
            Value::Em(_) => EM,
            Value::Rem(_) => REM,
        }
    }

    /// Its number: 0 for a keyword, the bits of a colour.
    pub fn amount(self) -> Fixed
        ensures amount { result ≡ value_amount self }
        ensures bytes { HasByteParts self }
    {
        match self {
            Value::Keyword(_) => Fixed::zero(),
            Value::Color(color) => Fixed::clamp(i128::from(color.bits())),
            Value::Pixels(amount)
            | Value::Percent(amount)
            | Value::Number(amount)
            | Value::Em(amount)
            | Value::Rem(amount) => amount,
        }
    }

    /// The value of this word and this number.
    pub fn of_word(word: u8, amount: Fixed) -> Value
        ensures { value_seen result ≡ value_of_word word amount }
    {
        match word {
            COLOR => Value::Color(Color::of_bits(amount)),
            PIXELS => Value::Pixels(amount),
            PERCENT => Value::Percent(amount),
            NUMBER => Value::Number(amount),
            EM => Value::Em(amount),
            REM => Value::Rem(amount),
            _ => Value::Keyword(keyword_at(word)),
        }
    }
}

/// The keyword of this word; the first, where it is of none.
fn keyword_at(word: u8) -> Keyword
    ensures { keyword (word_of result) ≡ keyword_value word }
{
    match KEYWORDS.get(usize::from(word.saturating_sub(FIRST_KEYWORD))) {
        Some(keyword) => *keyword,
        None => Keyword::Inline,
    }
}

impl Color {
    /// The four parts in one number, from red down to alpha.
    fn bits(self) -> u32
        ensures bits { result ≡ color_bits (color_of self) }
        ensures bytes { AreBytes (color_of self) }
    {
        ((u32::from(self.red) * 256 + u32::from(self.green)) * 256 + u32::from(self.blue)) * 256
            + u32::from(self.alpha)
    }

    /// The colour of these bits.
    fn of_bits(bits: Fixed) -> Color
        ensures { color_of result ≡ color_with bits }
    {
        let bits = bits.thousandths().unsigned_abs();
        Color {
            red: (bits / 16_777_216 % 256) as u8,
            green: (bits / 65_536 % 256) as u8,
            blue: (bits / 256 % 256) as u8,
            alpha: (bits % 256) as u8,
        }
    }
}
