//! Preprocessing of the input.

ghost use Rattle.std.specs.Prelude.{◌≡◌, ◌++◌, IfOk, IsTrue, OnOk};
ghost use Rattle.std.specs.Str.{chars};
ghost use Rattle.std.specs.String.{string_bytes};
ghost use Rattle.syntax_model.specs.Preprocess.{is_preprocessed, preprocessed};
ghost use Rattle.syntax_model.specs.Preprocess as model;
ghost use Rattle.css_tokens.specs.Input.{given_by, replaced};

use crate::characters::push_character;
use std::alloc::{AllocError, Global};
use stylo_base::NoMemory;

/// The text with CR LF, CR and FF as LF, and with U+FFFD for U+0000 (css-syntax-3, section 3.3).
pub fn preprocess(alloc: Global, text: &str) -> Result<String, NoMemory>
    ensures text { IfOk result (λ s. chars (string_bytes s) ≡ preprocessed (chars text.now)) }
    ensures ready { IfOk result (λ s. IsTrue (is_preprocessed (chars (string_bytes s)))) }
{
    if is_ready(text) {
        return Ok(String::from_str(alloc, text)?);
    }
    preprocess_each(alloc, text)
}

/// Whether preprocessing leaves the text as it is: CR, FF and U+0000 are no part of any other
/// character, so its bytes tell.
fn is_ready(text: &str) -> bool
    ensures { result ≡ is_preprocessed (chars text.now) }
{
    are_clean(text.as_bytes())
}

/// Whether preprocessing leaves each byte as it is. It goes over all of them, so that many are looked at at once.
fn are_clean(bytes: &[u8]) -> bool
    ensures { result ≡ is_preprocessed bytes.now }
{
    let mut unclean = 0_u8;
    for byte in bytes {
        unclean = unclean.max(u8::from(!is_clean(*byte)));
    }
    unclean == 0
}

/// Whether preprocessing leaves the byte as it is.
fn is_clean(byte: u8) -> bool
    ensures { result ≡ model.is_clean byte }
{
    (byte != b'\r') & (byte != b'\x0c') & (byte != b'\0')
}

/// The text that preprocessing gives, character by character.
fn preprocess_each(alloc: Global, text: &str) -> Result<String, NoMemory>
    ensures text { IfOk result (λ s. chars (string_bytes s) ≡ preprocessed (chars text.now)) }
    ensures ready { IfOk result (λ s. IsTrue (is_preprocessed (chars (string_bytes s)))) }
{
    let mut out = String::with_capacity(alloc, text.len())?;
    let mut is_after_cr = false;
    for c in text.chars() {
        push_given(&mut out, is_after_cr, c)?;
        is_after_cr = c == '\r';
    }
    Ok(out)
}

/// Appends what a character gives to the text.
fn push_given(out: &mut String, is_after_cr: bool, c: char) -> Result<(), AllocError>
    ensures { OnOk result
        (chars (string_bytes out.new) ≡ chars (string_bytes out.old) ++ given_by is_after_cr c) }
{
    if c == '\n' && is_after_cr {
        return Ok(());
    }
    push_character(out, replaced(c))
}

/// The character that is read for one, unless it goes.
fn replaced(c: char) -> char
    ensures { result ≡ replaced c }
{
    match c {
        '\r' | '\u{c}' => '\n',
        '\0' => '\u{fffd}',
        _ => c,
    }
}
