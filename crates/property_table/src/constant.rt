//! Values that stand in the table.

ghost use Rattle.std.specs.Prelude.{◌≡◌};
ghost use Rattle.value_model.specs.Style.{initial_size};
ghost use Rattle.property_table.specs.View.{constant_of, value_seen};

use crate::{Color, Keyword, Value};
use stylo_base::Fixed;

/// The initial `font-size`, in thousandths of a pixel.
const INITIAL_SIZE: i64 = 16_000;

/// The initial `font-size`: 16 pixels.
pub fn initial_size() -> Fixed
    ensures { result ≡ initial_size }
{
    Fixed::clamp(i128::from(INITIAL_SIZE))
}

/// A value that the table names, with numbers in whole thousandths: a constant can't make a `Fixed`.
#[derive(Clone, Copy, Debug)]
pub enum Constant {
    Keyword(Keyword),
    Color(Color),
    /// Thousandths of a pixel.
    Pixels(i64),
    /// Thousandths.
    Number(i64),
}

impl Constant {
    /// The value.
    pub fn value(self) -> Value
        ensures { value_seen result ≡ constant_of self }
    {
        match self {
            Constant::Keyword(keyword) => Value::Keyword(keyword),
            Constant::Color(color) => Value::Color(color),
            Constant::Pixels(thousandths) => Value::Pixels(Fixed::clamp(i128::from(thousandths))),
            Constant::Number(thousandths) => Value::Number(Fixed::clamp(i128::from(thousandths))),
        }
    }
}
