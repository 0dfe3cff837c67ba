//! Names as they are written.

ghost use Rattle.std.specs.Prelude.{◌≡◌, ◌++◌, ◌∷◌, OnOk};
ghost use Rattle.syntax_model.specs.Written as model;

use crate::escape::{is_control, push_hex_escape};
use crate::output::Output;
use css_tokens::letters::{is_digit, is_e, is_name_char};
use stylo_base::NoMemory;

/// Appends a name in which no place is the first.
pub(crate) fn push_name(out: &mut Output, name: &[char]) -> Result<(), NoMemory>
    ensures { OnOk result (out.new ≡ out.old ++ model.name_text name.now) }
{
    for c in name {
        push_name_char(out, *c)?;
    }
    Ok(())
}

fn push_name_char(out: &mut Output, c: char) -> Result<(), NoMemory>
    ensures { OnOk result (out.new ≡ out.old ++ model.name_char_text c) }
{
    if is_name_char(c) {
        out.push(c)
    } else if is_control(c) {
        push_hex_escape(out, c)
    } else {
        out.push('\\')?;
        out.push(c)
    }
}

/// Appends an identifier.
pub(crate) fn push_ident(out: &mut Output, name: &[char]) -> Result<(), NoMemory>
    ensures { OnOk result (out.new ≡ out.old ++ model.ident_text name.now) }
{
    let Some((first, rest)) = name.split_first() else {
        return Ok(());
    };
    if is_digit(*first) {
        push_hex_escape(out, *first)?;
        push_name(out, rest)
    } else if *first == '-' && rest.is_empty() {
        out.push('\\')?;
        out.push('-')
    } else if *first == '-' {
        out.push('-')?;
        push_after_hyphen(out, rest)
    } else {
        push_name(out, name)
    }
}

/// Appends what comes after a `-` in the first place.
fn push_after_hyphen(out: &mut Output, name: &[char]) -> Result<(), NoMemory>
    ensures { OnOk result (out.new ≡ out.old ++ model.after_hyphen name.now) }
{
    match name.split_first() {
        Some((first, rest)) if is_digit(*first) => {
            push_hex_escape(out, *first)?;
            push_name(out, rest)
        }
        _ => push_name(out, name),
    }
}

/// Appends the unit of a dimension.
pub(crate) fn push_unit(out: &mut Output, unit: &[char]) -> Result<(), NoMemory>
    ensures { OnOk result (out.new ≡ out.old ++ model.unit_text unit.now) }
{
    match unit.split_first() {
        Some((first, rest)) if looks_like_exponent(*first, rest) => {
            push_hex_escape(out, *first)?;
            push_name(out, rest)
        }
        _ => push_ident(out, unit),
    }
}

/// Whether a unit would be read as the exponent of the number before it.
fn looks_like_exponent(first: char, rest: &[char]) -> bool
    ensures { result ≡ model.looks_like_exponent (first ∷ rest.now) }
{
    is_e(first)
        && match rest {
            ['-', second, ..] => is_digit(*second),
            [second, ..] => is_digit(*second),
            [] => false,
        }
}
