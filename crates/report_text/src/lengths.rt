//! How long a printed line is.

ghost use Rattle.std.specs.Prelude.{◌≡◌, ◌≢◌, ◌<◌, ◌≤◌, ◌+◌, ◌^◌, ◌++◌, encode_utf8_all, decimal, length, true};
ghost use Rattle.std.specs.Str.{chars};
ghost use Rattle.stylo_base.specs.Ascii.{is_all_ascii};
ghost use Rattle.value_model.specs.Printed.{printed_declarations};
ghost use Rattle.report_text.specs.Lines.{batch_line, element_line, refusal_text, refused_line};

use crate::lines::separator;
use style_value::Style;
use stylo_base::{EditRefused, Kind};

/// The bytes of the line of an element beside its number, its tag and its declarations: a space, two
/// braces and the line feed.
const FRAME: u128 = 4;

/// How many bytes the line of a batch has. It takes no memory.
pub fn batch_line_len(batch: u64, accepted: u64, refused: u64, matched: u64, cascaded: u64) -> u64
    ensures { result ≡ length (encode_utf8_all (batch_line batch accepted refused matched cascaded)) }
{
    let counts = count_len("batch ", batch)
        + count_len(": ", accepted)
        + count_len(" accepted, ", refused)
        + count_len(" refused, ", matched)
        + count_len(" matched, ", cascaded);
    (counts + " cascaded\n".len()) as u64
}

/// How many bytes the line of a refused edit has. It takes no memory.
pub fn refused_line_len(place: u64, why: &EditRefused) -> u64
    requires { why.now ≢ EditRefused.NoMemory }
    ensures { result ≡ length (encode_utf8_all (refused_line place why.now)) }
{
    (count_len("refused ", place) + ": ".len() + refusal_len(why) + "\n".len()) as u64
}

/// How many bytes the reason has that `push_refusal` appends.
fn refusal_len(why: &EditRefused) -> usize
    requires { why.now ≢ EditRefused.NoMemory }
    ensures length { result ≡ length (encode_utf8_all (refusal_text why.now)) }
    ensures bound { result < 64 }
{
    match why {
        EditRefused::UnknownNode(number) => count_len("unknown node ", *number),
        EditRefused::UnknownSheet(number) => count_len("unknown sheet ", *number),
        EditRefused::BadPlace => "bad place".len(),
        EditRefused::Limit(kind, most) => limit_len(*kind, *most),
        EditRefused::NoMemory => unreachable!(),
    }
}

/// How many bytes the kind of a limit and its number have that `push_limit` appends.
fn limit_len(kind: Kind, most: u64) -> usize
    ensures length { result ≡ length (encode_utf8_all (refusal_text (EditRefused.Limit kind most))) }
    ensures bound { result < 64 }
{
    "limit ".len() + kind.name().len() + count_len(" ", most)
}

/// How many bytes the line of an element has. It takes no memory.
pub fn element_line_len(number: u32, tag: &str, style: &Style) -> u128
    ensures { result ≡ length (encode_utf8_all (element_line number (chars tag.now) style.now)) }
{
    digits(u64::from(number)) as u128 + tag.len() as u128 + declarations_len(style) + FRAME
}

/// How many bytes the declarations have that `push_declarations` appends.
fn declarations_len(style: &Style) -> u128
    ensures length { result ≡ length (encode_utf8_all (printed_declarations style.now)) }
    ensures bound { result < 2 ^ 66 }
{
    let own = style.text();
    let custom = style.custom().text();
    own.len() as u128 + separator(own, custom).len() as u128 + custom.len() as u128
}

/// How many bytes a word in ASCII and a number have that `push_count` appends.
fn count_len(before: &str, count: u64) -> usize
    requires { is_all_ascii before.now ≡ true }
    ensures length { result ≡ length (encode_utf8_all (before.now ++ decimal count)) }
    ensures bound { result ≤ length before.now + 20 }
{
    before.len() + digits(count)
}

/// How many decimal digits a number has.
fn digits(number: u64) -> usize
    ensures count { result ≡ length (decimal number) }
    ensures bound { result ≤ 20 }
{
    let mut rest = number;
    let mut count = 1;
    while rest >= 10 {
        rest /= 10;
        count += 1;
    }
    count
}
