//! Strings and urls as they are written.

ghost use Rattle.std.specs.Prelude.{◌≡◌, ◌++◌, OnOk, flat_map};
ghost use Rattle.syntax_model.specs.Written as model;

use crate::escape::{is_control, push_hex_escape};
use crate::output::Output;
use css_tokens::letters::is_quote;
use stylo_base::NoMemory;

/// Appends the text of a string, without its quotes.
pub(crate) fn push_string(out: &mut Output, text: &[char]) -> Result<(), NoMemory>
    ensures { OnOk result (out.new ≡ out.old ++ flat_map model.string_char_text text.now) }
{
    for c in text {
        push_string_char(out, *c)?;
    }
    Ok(())
}

fn push_string_char(out: &mut Output, c: char) -> Result<(), NoMemory>
    ensures { OnOk result (out.new ≡ out.old ++ model.string_char_text c) }
{
    if c == '"' || c == '\\' {
        out.push('\\')?;
        out.push(c)
    } else if is_control(c) {
        push_hex_escape(out, c)
    } else {
        out.push(c)
    }
}

/// Appends the text of a url.
pub(crate) fn push_url(out: &mut Output, text: &[char]) -> Result<(), NoMemory>
    ensures { OnOk result (out.new ≡ out.old ++ flat_map model.url_char_text text.now) }
{
    for c in text {
        push_url_char(out, *c)?;
    }
    Ok(())
}

fn push_url_char(out: &mut Output, c: char) -> Result<(), NoMemory>
    ensures { OnOk result (out.new ≡ out.old ++ model.url_char_text c) }
{
    if is_quote(c) || c == '(' || c == ')' || c == '\\' || c == ' ' || is_control(c) {
        push_hex_escape(out, c)
    } else {
        out.push(c)
    }
}
