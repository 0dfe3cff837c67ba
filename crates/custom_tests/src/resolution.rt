use css_tokens::{CustomEntry, CustomMap, CustomName, CustomValue, preprocess, tokens};
use css_writer::write;
use custom_properties::{DeclaredEntry, DeclaredMap, resolve};
use std::alloc::Global;
use std::slice;
use std::test::Fail;
use stylo_base::{NoMemory, Text};

fn name_of(alloc: Global, text: &str) -> Result<CustomName, NoMemory> {
    CustomName::of_text(alloc, Text::of_str(alloc, text)?)
}

fn custom_value(alloc: Global, text: &str) -> Result<Option<CustomValue>, NoMemory> {
    let text = preprocess(alloc, text)?;
    let list = tokens(alloc, text.as_str())?;
    CustomValue::read(alloc, list.as_slice())
}

/// The map in which `--d` has this value.
fn inherited(alloc: Global, value: &str) -> Result<CustomMap, NoMemory> {
    let Some(value) = custom_value(alloc, value)? else {
        return Ok(CustomMap::empty());
    };
    let name = name_of(alloc, "--d")?;
    CustomMap::of_entries(alloc, vec![in alloc; CustomEntry { name, value }]?)
}

/// The entries of a map, each as its name and its value.
fn shown(alloc: Global, map: &CustomMap) -> Result<Text, NoMemory> {
    let mut text = Text::new(alloc);
    for entry in map.entries() {
        text.push_str(entry.name.as_str())?;
        text.push_str(":")?;
        text.push_str(write(alloc, entry.value.tokens())?.as_str())?;
        text.push_str(";")?;
    }
    Ok(text)
}

/// The custom properties where one is declared, over `--d: y`.
fn resolved(alloc: Global, name: &str, value: &str) -> Result<Text, NoMemory> {
    let name = name_of(alloc, name)?;
    let value = custom_value(alloc, value)?;
    let entry = DeclaredEntry {
        name: &name,
        value: value.as_ref(),
    };
    let mut list = Vec::new(alloc);
    list.extend_from_slice(slice::from_ref(&entry))?;
    let declared = DeclaredMap::of_entries(list);
    let map = resolve(alloc, &declared, &inherited(alloc, "y")?)?;
    shown(alloc, &map)
}

#[test]
fn values(rt: HostRuntime) -> Result<(), Fail> {
    let alloc = rt.alloc();
    let beside = resolved(alloc, "--c", "var(--d) x")?;
    assert_eq!(rt; beside.as_str(), "--c:y x;--d:y;");
    Ok(())
}
