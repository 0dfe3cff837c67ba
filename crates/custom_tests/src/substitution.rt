use css_tokens::{CustomEntry, CustomMap, CustomName, CustomValue, Token, preprocess, tokens};
use css_writer::write;
use custom_properties::substitute;
use std::alloc::Global;
use std::test::Fail;
use stylo_base::{NoMemory, Text};

fn tokens_of(alloc: Global, text: &str) -> Result<Vec<Token>, NoMemory> {
    let text = preprocess(alloc, text)?;
    tokens(alloc, text.as_str())
}

/// The map in which `--a` has this value.
fn map_of(alloc: Global, value: &str) -> Result<CustomMap, NoMemory> {
    let list = tokens_of(alloc, value)?;
    let Some(value) = CustomValue::read(alloc, list.as_slice())? else {
        return Ok(CustomMap::empty());
    };
    let name = CustomName::of_text(alloc, Text::of_str(alloc, "--a")?)?;
    CustomMap::of_entries(alloc, vec![in alloc; CustomEntry { name, value }]?)
}

/// The text of a value in which `--a` has another one.
fn expanded(alloc: Global, text: &str, value: &str) -> Result<Text, NoMemory> {
    let map = map_of(alloc, value)?;
    let list = tokens_of(alloc, text)?;
    match substitute(alloc, list.as_slice(), &map)? {
        Some(expansion) => write(alloc, expansion.as_slice()),
        None => Ok(Text::new(alloc)),
    }
}

#[test]
fn value(rt: HostRuntime) -> Result<(), Fail> {
    let text = expanded(rt.alloc(), "f(VAR( --a , z)) var(--b, var(--a) )", " x  y ")?;
    assert_eq!(rt; text.as_str(), "f(x y) x y");
    Ok(())
}

#[test]
fn no_value(rt: HostRuntime) -> Result<(), Fail> {
    let text = expanded(rt.alloc(), "x var(--A)", "y")?;
    assert_eq!(rt; text.as_str(), "");
    Ok(())
}
