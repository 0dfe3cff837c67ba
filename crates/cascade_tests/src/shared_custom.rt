//! Custom properties that styles share, in a table of styles.

ghost use Rattle.std.specs.Prelude.{◌≡◌, ◌<◌, length, take};

use css_tokens::{CustomEntry, CustomMap, CustomName, CustomValue, preprocess, tokens};
use css_writer::custom_declarations;
use property_table::{Keyword, PropId, Value};
use std::alloc::Global;
use std::test::Fail;
use style_value::{Custom, Style, StyleDraft, StyleTable};
use stylo_base::{NoMemory, Text};

/// A map in which `--a` has this value, which nothing else shares.
fn custom_of(alloc: Global, value: &str) -> Result<Custom, NoMemory> {
    let text = preprocess(alloc, value)?;
    let list = tokens(alloc, text.as_str())?;
    let Some(value) = CustomValue::read(alloc, list.as_slice())? else {
        return Ok(Custom::none());
    };
    let name = CustomName::of_text(alloc, Text::of_str(alloc, "--a")?)?;
    let map = CustomMap::of_entries(alloc, vec![in alloc; CustomEntry { name, value }]?)?;
    let text = custom_declarations(alloc, &map)?;
    Custom::new(alloc, map, text)
}

/// A draft with this `display`, in which `--a` has a value by a map of its own.
fn apart(alloc: Global, display: Keyword, value: &str) -> Result<StyleDraft, NoMemory> {
    let mut draft = StyleDraft::inheriting(alloc, &Style::initial(alloc)?)?;
    draft.set(PropId::Display, Value::Keyword(display));
    draft.set_custom(custom_of(alloc, value)?);
    Ok(draft)
}

/// The number of a child's style, which shares the custom properties of `parent`.
fn child(alloc: Global, table: &mut StyleTable, parent: usize) -> Result<usize, NoMemory>
    requires { parent < length table.old }
    ensures { take (length table.old) table.new ≡ table.old }
{
    let draft = StyleDraft::inheriting(alloc, table.style(parent))?;
    table.add_over(alloc, draft, parent)
}

/// The numbers of the children of two parents whose equal maps are held apart, of another child of the
/// first, and of a child of a parent with another map.
fn children(alloc: Global) -> Result<[usize; 4], NoMemory> {
    let mut table = StyleTable::start(alloc, 64)?;
    let one = table.add(alloc, apart(alloc, Keyword::Block, "x")?)?;
    let other = table.add(alloc, apart(alloc, Keyword::None, "x")?)?;
    let third = table.add(alloc, apart(alloc, Keyword::Block, "y")?)?;
    Ok([
        child(alloc, &mut table, one)?,
        child(alloc, &mut table, other)?,
        child(alloc, &mut table, one)?,
        child(alloc, &mut table, third)?,
    ])
}

#[test]
fn equal_children_have_one_number(rt: HostRuntime) -> Result<(), Fail> {
    let numbers = children(rt.alloc())?;
    assert_eq!(rt; numbers, [3, 3, 3, 4]);
    Ok(())
}
