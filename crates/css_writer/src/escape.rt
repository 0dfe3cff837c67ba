//! Characters that stand for themselves only in an escape.

ghost use Rattle.std.specs.Prelude.{◌≡◌, ◌++◌, ◌<◌, OnOk};
ghost use Rattle.syntax_model.specs.Written as model;

use crate::output::Output;
use stylo_base::NoMemory;

/// Appends the hexadecimal escape of an ASCII character: one or two digits, and a space.
pub(crate) fn push_hex_escape(out: &mut Output, c: char) -> Result<(), NoMemory>
    requires { c < 128 }
    ensures { OnOk result (out.new ≡ out.old ++ model.hex_escape c) }
{
    let code = u32::from(c);
    out.push('\\')?;
    if code >= 16 {
        out.push(hex_digit(code / 16))?;
    }
    out.push(hex_digit(code % 16))?;
    out.push(' ')
}

/// A hexadecimal digit, in lower case.
fn hex_digit(digit: u32) -> char
    requires { digit < 16 }
    ensures { result ≡ model.hex_digit digit }
{
    match digit {
        0..=9 => char::from(b'0' + digit as u8),
        _ => char::from(b'a' + (digit as u8 - 10)),
    }
}

/// U+0001 to U+001F, or U+007F.
pub(crate) fn is_control(c: char) -> bool
    ensures { result ≡ model.is_control c }
{
    matches!(c, '\u{1}'..='\u{1f}' | '\u{7f}')
}
