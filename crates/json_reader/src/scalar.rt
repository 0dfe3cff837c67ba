//! Values that hold no other values.

ghost use Rattle.std.specs.Prelude.{◌≡◌, ◌∷◌, ◌<◌, length, None, option_map, IfOk, OnOk, OnErr};
ghost use Rattle.json.specs.Reads.{token_of};
ghost use Rattle.serde_json.specs.Find.{as_str, as_bool};
ghost use Rattle.json_reader.specs.Taken.{taken, Says};
ghost use Rattle.json_reader.specs.Parts.{as_whole, string_at, boolean_at, whole_at};

use crate::number::whole_number;
use crate::passing::pass_after;
use json::{Invalid, Reader, Token};

/// Takes a value: its text, or None where it is no text.
pub fn text<'a>(reader: &mut Reader<'a>, depth: usize) -> Result<Option<&'a str>, Invalid>
    ensures ok { IfOk result (λ t. Says as_str (option_map (λ s. s.now) t)
        (taken depth reader.old) reader.new) }
    ensures shorter { OnOk result (length reader.new < length reader.old) }
    ensures err { OnErr result (taken depth reader.old ≡ None) }
{
    let token = reader.next().ok_or(Invalid)?;
    pass_after(token, reader, depth)?;
    Ok(text_at(token))
}

#[inline(always)]
fn text_at<'a>(token: Token<'a>) -> Option<&'a str>
    ensures { option_map (λ s. s.now) result ≡ string_at (token_of token.entry) }
{
    match token {
        Token::String(text) => Some(text),
        _ => None,
    }
}

/// Takes a value: whether it is true, or None where it is no boolean.
pub fn boolean(reader: &mut Reader<'_>, depth: usize) -> Result<Option<bool>, Invalid>
    ensures ok { IfOk result (λ b. Says as_bool b (taken depth reader.old) reader.new) }
    ensures shorter { OnOk result (length reader.new < length reader.old) }
    ensures err { OnErr result (taken depth reader.old ≡ None) }
{
    let token = reader.next().ok_or(Invalid)?;
    pass_after(token, reader, depth)?;
    Ok(boolean_at(token))
}

fn boolean_at(token: Token<'_>) -> Option<bool>
    ensures { result ≡ boolean_at (token_of token.entry) }
{
    match token {
        Token::Bool(value) => Some(value),
        _ => None,
    }
}

/// Takes a value: its number, or None where it is no whole number from 0 to 2^64 minus 1.
pub fn whole(reader: &mut Reader<'_>, depth: usize) -> Result<Option<u64>, Invalid>
    ensures ok { IfOk result (λ n. Says as_whole n (taken depth reader.old) reader.new) }
    ensures shorter { OnOk result (length reader.new < length reader.old) }
    ensures err { OnErr result (taken depth reader.old ≡ None) }
{
    let token = reader.next().ok_or(Invalid)?;
    let number = whole_at(token);
    if number.is_none() {
        pass_after(token, reader, depth)?;
    }
    Ok(number)
}

fn whole_at(token: Token<'_>) -> Option<u64>
    ensures { result ≡ whole_at (token_of token.entry) }
{
    match token {
        Token::Number(text) => whole_number(text),
        _ => None,
    }
}
