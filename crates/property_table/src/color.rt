//! Colours in sRGB, and how they are printed.

ghost use Rattle.std.specs.Prelude.{◌≡◌, ◌<◌, ◌++◌, ◌∷◌, ◌==◌, if◌then◌else◌, OnErr, OnOk};
ghost use Rattle.std.specs.Char.{digit_char};
ghost use Rattle.value_model.specs.Color.{color_text, two_digits};
ghost use Rattle.property_table.specs.View.{color_of};

use stylo_base::{NoMemory, Text};

/// The bytes of a colour's text with its alpha, and without.
const WITH_ALPHA: usize = 9;

const WITHOUT_ALPHA: usize = 7;

/// A colour in sRGB (css-color-4, section 4), each part from 0 to 255.
#[derive(Clone, Copy, Debug, PartialEq, Eq)]
pub struct Color {
    pub red: u8,
    pub green: u8,
    pub blue: u8,
    /// 0 is transparent, 255 is opaque.
    pub alpha: u8,
}

impl Color {
    /// Appends the colour to `text`: `#rrggbb`, or `#rrggbbaa` where it is not opaque, in lower
    /// case.
    pub fn write(self, text: &mut Text) -> Result<(), NoMemory>
        ensures ok { OnOk result (text.new ≡ text.old ++ color_text (color_of self)) }
        ensures err { OnErr result (text.new ≡ text.old) }
    {
        let bytes = self.digits();
        match std::str::from_utf8(&bytes[..self.printed()]) {
            Ok(digits) => text.push_str(digits),
            Err(_) => unreachable!(),
        }
    }

    /// How many of the digits are printed.
    fn printed(self) -> usize
        ensures { result ≡ if self.alpha == 255 then 7 else 9 }
    {
        if self.alpha == u8::MAX {
            WITHOUT_ALPHA
        } else {
            WITH_ALPHA
        }
    }

    /// `#rrggbbaa`, in ASCII.
    fn digits(self) -> [u8; WITH_ALPHA]
        ensures { result ≡ 35 ∷ (two_digits self.red ++ (two_digits self.green
            ++ (two_digits self.blue ++ two_digits self.alpha))) }
    {
        [
            b'#',
            digit(self.red / 16),
            digit(self.red % 16),
            digit(self.green / 16),
            digit(self.green % 16),
            digit(self.blue / 16),
            digit(self.blue % 16),
            digit(self.alpha / 16),
            digit(self.alpha % 16),
        ]
    }
}

/// A digit in hexadecimal, in ASCII.
fn digit(value: u8) -> u8
    requires { value < 16 }
    ensures { result ≡ digit_char value }
{
    if value < 10 {
        b'0' + value
    } else {
        b'a' + (value - 10)
    }
}
