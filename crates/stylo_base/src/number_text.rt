//! Numbers in decimal digits.

ghost use Rattle.std.specs.Prelude.{◌≡◌, ◌+◌, ◌<◌, ◌≤◌, ◌++◌, ◌∷◌, [], ◌/◌, ◌%◌, IsAscii, OnErr, OnOk, decimal, drop, length};
ghost use Rattle.base_model.specs.Thousandths.{pointed, without_zeros, printed_number};

use crate::{Fixed, NoMemory, Text};

/// The bytes that a number and its unit are written in, from the end: a sign, digits, a point, three
/// digits and a unit of up to four bytes.
pub const NUMBER_ROOM: usize = 32;

impl Text {
    /// Appends a number in decimal digits, and its unit, which stands in the buffer from `unit` on. The
    /// number is a sign, the whole part and, where needed, a point and up to three digits.
    pub fn push_fixed(
        &mut self,
        number: Fixed,
        mut buffer: [u8; NUMBER_ROOM],
        unit: usize,
    ) -> Result<(), NoMemory>
        requires within { (28 ≤ unit) × (unit ≤ 32) }
        requires ascii { IsAscii (drop unit buffer) }
        ensures ok { OnOk result (self.new ≡ self.old ++ (printed_number number ++ drop unit buffer)) }
        ensures err { OnErr result (self.new ≡ self.old) }
    {
        let start = write_fixed(number, &mut buffer, unit);
        match std::str::from_utf8(&buffer[start..]) {
            Ok(written) => self.push_str(written),
            Err(_) => unreachable!(),
        }
    }
}

/// Writes a number in decimal digits so that it ends at `end`, and says where it begins: a sign, the
/// whole part and, where needed, a point and up to three digits.
fn write_fixed(number: Fixed, buffer: &mut [u8; NUMBER_ROOM], end: usize) -> usize
    requires { (28 ≤ end) × (end ≤ 32) }
    ensures within { result ≤ 32 }
    ensures written { drop result buffer.new ≡ printed_number number ++ drop end buffer.old }
    ensures ascii { IsAscii (printed_number number) }
{
    let thousandths = number.thousandths();
    let size = thousandths.unsigned_abs();
    let point = write_fraction(size, buffer, end);
    let start = write_whole(size / 1000, buffer, point);
    if thousandths < 0 {
        return write_byte(b'-', buffer, start);
    }
    start
}

/// Writes a whole number so that it ends at `end`, and says where it begins.
fn write_whole(number: u64, buffer: &mut [u8; NUMBER_ROOM], end: usize) -> usize
    requires { (length (decimal number) ≤ end) × (end ≤ 32) }
    ensures begin { result + length (decimal number) ≡ end }
    ensures written { drop result buffer.new ≡ decimal number ++ drop end buffer.old }
{
    let mut left = number;
    let mut at = end;
    while left >= 10 {
        at = write_digit(left % 10, buffer, at);
        left /= 10;
    }
    write_digit(left, buffer, at)
}

/// Writes the point and the digits after it of `n` thousandths, with no zeros at the end, so that they
/// end at `end`, and says where they begin.
fn write_fraction(n: u64, buffer: &mut [u8; NUMBER_ROOM], end: usize) -> usize
    requires { (4 ≤ end) × (end ≤ 32) }
    ensures begin { end ≤ result + 4 }
    ensures within { result ≤ end }
    ensures written { drop result buffer.new
        ≡ pointed (without_zeros (n / 100 % 10 ∷ n / 10 % 10 ∷ n % 10 ∷ [])) ++ drop end buffer.old }
{
    if n % 1000 == 0 {
        return end;
    }
    if n % 100 == 0 {
        return write_tenths(n / 100 % 10, buffer, end);
    }
    if n % 10 == 0 {
        let hundredths = write_digit(n / 10 % 10, buffer, end);
        return write_tenths(n / 100 % 10, buffer, hundredths);
    }
    let last = write_digit(n % 10, buffer, end);
    let hundredths = write_digit(n / 10 % 10, buffer, last);
    write_tenths(n / 100 % 10, buffer, hundredths)
}

/// Writes a point and a digit so that they end at `end`, and says where they begin.
fn write_tenths(digit: u64, buffer: &mut [u8; NUMBER_ROOM], end: usize) -> usize
    requires { (digit < 10) × (2 ≤ end) × (end ≤ 32) }
    ensures begin { result + 2 ≡ end }
    ensures written { drop result buffer.new ≡ 46 ∷ (48 + digit) ∷ drop end buffer.old }
{
    let tenths = write_digit(digit, buffer, end);
    write_byte(b'.', buffer, tenths)
}

/// Writes a digit so that it ends at `end`, and says where it begins.
#[inline]
fn write_digit(digit: u64, buffer: &mut [u8; NUMBER_ROOM], end: usize) -> usize
    requires { (digit < 10) × (1 ≤ end) × (end ≤ 32) }
    ensures begin { result + 1 ≡ end }
    ensures written { drop result buffer.new ≡ (48 + digit) ∷ drop end buffer.old }
{
    write_byte(b'0' + digit as u8, buffer, end)
}

/// Writes a byte so that it ends at `end`, and says where it begins.
#[inline]
fn write_byte(byte: u8, buffer: &mut [u8; NUMBER_ROOM], end: usize) -> usize
    requires { (1 ≤ end) × (end ≤ 32) }
    ensures begin { result + 1 ≡ end }
    ensures written { drop result buffer.new ≡ byte ∷ drop end buffer.old }
{
    buffer[end - 1] = byte;
    end - 1
}
