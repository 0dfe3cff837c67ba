//! The declarations of a style, as they are printed.

ghost use Rattle.std.specs.Prelude.{◌≡◌, ◌++◌, IfOk, OnOk, codes, map};
ghost use Rattle.custom_model.specs.Printed.{joined};
ghost use Rattle.value_model.specs.Printed.{declaration_text};
ghost use Rattle.property_table.specs.View.{property_of, row_of, value_seen};
ghost use Rattle.style_value.specs.StyleText.{property_text, values_text};

use crate::value_columns::ValueColumns;
use property_table::{COUNT, PropId, Value, label};
use std::alloc::Global;
use stylo_base::{NoMemory, Text};

/// The bytes that are made room for beside the label of a property: a value of ten bytes, and `; `. A
/// text that is longer takes more memory.
const ROOM: usize = 12;

/// The declarations of the properties whose value is not the standing one. It takes memory at most
/// once, but where values are long, and none where nothing is printed.
pub(crate) fn values_text(alloc: Global, columns: &ValueColumns) -> Result<Text, NoMemory>
    ensures { IfOk result (λ text. text ≡ values_text columns.now) }
{
    let mut list = [PropId::Color; COUNT];
    let count = columns.printed(&mut list);
    declarations(alloc, columns, &list[..count])
}

/// The declarations of these properties.
fn declarations(alloc: Global, columns: &ValueColumns, ids: &[PropId]) -> Result<Text, NoMemory>
    ensures { let texts = map (property_text columns.now) (map property_of ids.now) in
        IfOk result (λ text. text ≡ joined (codes "; ") texts) }
{
    let mut text = Text::of_string(String::with_capacity(alloc, room(ids))?);
    let mut separator = "";
    for id in ids {
        text.push_str(separator)?;
        push_declaration(&mut text, *id, columns.value(*id))?;
        separator = "; ";
    }
    Ok(text)
}

/// Room for the declarations of these properties, in bytes.
fn room(ids: &[PropId]) -> usize {
    let mut room = 0usize;
    for id in ids {
        room = room.saturating_add(label(*id).len()).saturating_add(ROOM);
    }
    room
}

/// Appends a property and its value to the text. Out of memory, it may hold a part of them.
fn push_declaration(text: &mut Text, id: PropId, value: Value) -> Result<(), NoMemory>
    ensures { let declaration = declaration_text (row_of id) (value_seen value) in
        OnOk result (text.new ≡ text.old ++ declaration) }
{
    text.push_str(label(id))?;
    value.write(text)
}
