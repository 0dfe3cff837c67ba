//! Custom properties as text (css-variables-1, section 2; cssom-1, section 2.1).

ghost use Rattle.std.specs.Prelude.{◌≡◌, ◌++◌, IfOk, OnOk};
ghost use Rattle.css_tokens.specs.CustomView.{entry_of};
ghost use Rattle.custom_model.specs.Printed as model;

use crate::name::push_ident;
use crate::output::Output;
use crate::writer::push_tokens;
use css_tokens::characters::characters_of;
use css_tokens::{CustomEntry, CustomMap};
use std::alloc::Global;
use stylo_base::{NoMemory, Text};

/// The declarations of the custom properties, in the order of their names.
pub fn custom_declarations(alloc: Global, map: &CustomMap) -> Result<Text, NoMemory>
    ensures { IfOk result (λ text. text ≡ model.custom_declarations map.now) }
{
    let Some((first, rest)) = map.entries().split_first() else {
        return Ok(Text::new(alloc));
    };
    let mut out = Output::new(alloc);
    push_declaration(alloc, &mut out, first)?;
    for entry in rest {
        out.push_all(&[';', ' '])?;
        push_declaration(alloc, &mut out, entry)?;
    }
    Ok(out.into_text())
}

/// Appends a name and its value.
fn push_declaration(alloc: Global, out: &mut Output, entry: &CustomEntry) -> Result<(), NoMemory>
    ensures { OnOk result (out.new ≡ out.old ++ model.custom_text (entry_of entry.now)) }
{
    let name = characters_of(alloc, entry.name.as_str())?;
    push_ident(out, &name)?;
    out.push_all(&[':', ' '])?;
    push_tokens(alloc, out, entry.value.tokens())
}
