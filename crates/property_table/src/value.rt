//! What a property can be set or computed to be.

ghost use Rattle.std.specs.Prelude.{◌≡◌, ◌++◌, ◌↔◌, IsTrue, OnErr, OnOk};
ghost use Rattle.value_model.specs.Value.{same_value, printed_value};
ghost use Rattle.value_model.specs.Style.{size_in};
ghost use Rattle.property_table.specs.View.{value_seen};

use crate::{Color, Keyword, initial_size};
use stylo_base::{Fixed, NUMBER_ROOM, NoMemory, Text};

/// Room for a number, and its unit after it.
const PIXELS: [u8; NUMBER_ROOM] = *b"                              px";

const PERCENT: [u8; NUMBER_ROOM] = *b"                               %";

const NUMBER: [u8; NUMBER_ROOM] = *b"                                ";

const EM: [u8; NUMBER_ROOM] = *b"                              em";

const REM: [u8; NUMBER_ROOM] = *b"                             rem";

/// A value of a property. Numbers are in thousandths.
#[derive(Clone, Copy, Debug, PartialEq, Eq)]
pub enum Value {
    Keyword(Keyword),
    Color(Color),
    /// A length in pixels.
    Pixels(Fixed),
    /// A percentage.
    Percent(Fixed),
    /// A number without a unit.
    Number(Fixed),
    /// A length in the font size of the element (css-values-4, section 6.1).
    Em(Fixed),
    /// A length in the font size of the root.
    Rem(Fixed),
}

impl Value {
    /// Whether the two are the same value.
    pub fn is_same(self, other: Value) -> bool
        ensures same { IsTrue result ↔ (value_seen self ≡ value_seen other) }
        ensures test { result ≡ same_value (value_seen self) (value_seen other) }
    {
        self == other
    }

    /// The size that a value of `font-size` is.
    pub fn font_size(self) -> Fixed
        ensures { result ≡ size_in (value_seen self) }
    {
        match self {
            Value::Pixels(size) => size,
            _ => initial_size(),
        }
    }

    /// Appends the value to `text`, as it is printed.
    pub fn write(self, text: &mut Text) -> Result<(), NoMemory>
        ensures ok { OnOk result (text.new ≡ text.old ++ printed_value (value_seen self)) }
        ensures err { OnErr result (text.new ≡ text.old) }
    {
        match self {
            Value::Keyword(keyword) => text.push_str(keyword.text()),
            Value::Color(color) => color.write(text),
            Value::Pixels(amount) => text.push_fixed(amount, PIXELS, NUMBER_ROOM - 2),
            Value::Percent(amount) => text.push_fixed(amount, PERCENT, NUMBER_ROOM - 1),
            Value::Number(amount) => text.push_fixed(amount, NUMBER, NUMBER_ROOM),
            Value::Em(amount) => text.push_fixed(amount, EM, NUMBER_ROOM - 2),
            Value::Rem(amount) => text.push_fixed(amount, REM, NUMBER_ROOM - 3),
        }
    }
}
