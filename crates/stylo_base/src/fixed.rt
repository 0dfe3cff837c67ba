//! Fixed-point numbers: whole thousandths within a range.

ghost use Rattle.std.specs.Prelude.{◌≡◌, ◌^◌, ◌<◌, ◌+ℤ◌, ◌*ℤ◌, ◌<ℤ◌, pos, unsigned_abs, IfOk};
ghost use Rattle.base_model.specs.Thousandths.{IsInRange, clamped, rounded, printed_number};

use crate::number_text::NUMBER_ROOM;
use crate::{NoMemory, Text};
use std::alloc::Global;
use std::marker::Model;

/// The greatest number of thousandths; the least is its negative.
const MOST: i64 = 2_000_000_000_000;

/// A number of whole thousandths, from -2,000,000,000 to 2,000,000,000. Contracts see the number
/// of thousandths.
#[derive(Clone, Copy, Debug, PartialEq, Eq, Hash)]
pub struct Fixed {
    thousandths: i64,
}

impl Model for Fixed {
    ghost use Rattle.std.specs.Prelude.{ℤ};
    ghost use Rattle.base_model.specs.Thousandths.{IsInRange};

    ghost Value = { ℤ };

    ghost view = { λ f. f.thousandths };

    ghost invariant = { λ f. IsInRange f.thousandths };

    ghost inverse = { λ z. record { thousandths = z } };
}

impl Fixed {
    /// The number 0.
    pub fn zero() -> Fixed
        ensures { result ≡ pos 0 }
    {
        Fixed { thousandths: 0 }
    }

    /// The number of the range that is nearest to so many thousandths.
    pub fn clamp(thousandths: i128) -> Fixed
        ensures { result ≡ clamped thousandths }
    {
        let most = i128::from(MOST);
        Fixed {
            thousandths: thousandths.clamp(-most, most) as i64,
        }
    }

    /// The number of thousandths.
    pub fn thousandths(self) -> i64
        ensures value { result ≡ self }
        ensures range { IsInRange self }
    {
        self.thousandths
    }

    /// The sum, or the end of the range that is nearest to it.
    pub fn add(self, other: Fixed) -> Fixed
        ensures { result ≡ clamped (self +ℤ other) }
    {
        Fixed::clamp(i128::from(self.thousandths) + i128::from(other.thousandths))
    }

    /// `n` parts of `d` of the number, rounded once to whole thousandths, halves away from 0, or
    /// the end of the range that is nearest to that.
    pub fn scale(self, n: i64, d: i64) -> Fixed
        requires { pos 0 <ℤ d }
        ensures { result ≡ clamped (rounded (self *ℤ n) (unsigned_abs d)) }
    {
        let product = i128::from(self.thousandths) * i128::from(n);
        Fixed::clamp(divide(product, d.unsigned_abs()))
    }

    /// The number in decimal digits: the whole part and, where needed, a point and up to three
    /// digits.
    pub fn write(self, alloc: Global) -> Result<Text, NoMemory>
        ensures { IfOk result (λ t. t ≡ printed_number self) }
    {
        let mut text = Text::new(alloc);
        text.push_fixed(self, [b' '; NUMBER_ROOM], NUMBER_ROOM)?;
        Ok(text)
    }
}

/// `z` parts of `d` as a whole number, halves away from 0.
fn divide(z: i128, d: u64) -> i128
    requires divisor { 0 < d }
    requires fits { unsigned_abs z < 2 ^ 120 }
    ensures { result ≡ rounded z d }
{
    let d = u128::from(d);
    let size = ((2 * z.unsigned_abs() + d) / (2 * d)) as i128;
    if z < 0 { -size } else { size }
}
