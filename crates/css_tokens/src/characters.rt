//! Texts, character by character.

ghost use Rattle.std.specs.Prelude.{◌≡◌, ◌++◌, ◌∷◌, [], IfOk, OnOk};
ghost use Rattle.std.specs.Str.{chars};
ghost use Rattle.std.specs.String.{string_bytes};
ghost use Rattle.stylo_base.specs.Ascii.{is_all_ascii};

use std::alloc::{AllocError, Global};

/// The characters of a text.
pub fn characters_of(alloc: Global, text: &str) -> Result<Vec<char>, AllocError>
    ensures { IfOk result (λ list. list.items ≡ chars text.now) }
{
    let bytes = text.as_bytes();
    if are_ascii(bytes) {
        return widened(alloc, bytes);
    }
    text.chars().collect(alloc)
}

/// Whether all bytes are in ASCII. It goes over all of them, so that many are looked at at once.
fn are_ascii(bytes: &[u8]) -> bool
    ensures { result ≡ is_all_ascii bytes.now }
{
    let mut highest = 0_u8;
    for byte in bytes {
        highest = highest.max(*byte);
    }
    highest < 0x80
}

/// The bytes of a text in ASCII, each as the character that it is.
fn widened(alloc: Global, bytes: &[u8]) -> Result<Vec<char>, AllocError>
    ensures { IfOk result (λ list. list.items ≡ bytes.now) }
{
    bytes.iter().map(|byte| char::from(*byte)).collect(alloc)
}

/// Appends a character to a text.
pub fn push_character(text: &mut String, c: char) -> Result<(), AllocError>
    ensures { OnOk result
        (chars (string_bytes text.new) ≡ chars (string_bytes text.old) ++ c ∷ []) }
{
    text.push(c)?;
    Ok(())
}
