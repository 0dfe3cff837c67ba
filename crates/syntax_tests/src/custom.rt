use css_tokens::{
    CustomEntry, CustomMap, CustomName, CustomValue, PartReader, PartStep, Token, is_custom_name,
    name_of, preprocess, tokens,
};
use std::alloc::Global;
use std::cmp::Ordering;
use std::test::Fail;
use stylo_base::{NoMemory, Text};

fn tokens_of(alloc: Global, text: &str) -> Result<Vec<Token>, NoMemory> {
    let text = preprocess(alloc, text)?;
    tokens(alloc, text.as_str())
}

/// The names of the tokens that are kept of a value, each after its kind.
fn shown(alloc: Global, value: &CustomValue) -> Result<String, NoMemory> {
    let mut out = String::new(alloc);
    for token in value.tokens() {
        write!(out, "{:?} {};", token.kind(), name_of(token).as_str())?;
    }
    Ok(out)
}

#[test]
fn value_in_normal_form(rt: HostRuntime) -> Result<(), Fail> {
    let list = tokens_of(rt.alloc(), " a \n/**/ (;) ")?;
    let value = CustomValue::read(rt.alloc(), list.as_slice())?;
    let Some(value) = value else {
        panic!(rt; "it is valid");
    };
    assert!(rt; value.is_plain());
    let text = shown(rt.alloc(), &value)?;
    assert_eq!(rt;
        text.as_str(),
        "Ident a;Whitespace ;OpenRound ;Semicolon ;CloseRound ;"
    );
    Ok(())
}

fn refers(alloc: Global, text: &str) -> Result<bool, NoMemory> {
    let list = tokens_of(alloc, text)?;
    let value = CustomValue::read_referring(alloc, list.as_slice())?;
    Ok(value.is_some())
}

#[test]
fn referring_values(rt: HostRuntime) -> Result<(), Fail> {
    let one = refers(rt.alloc(), "1px VAR( --b , c)")?;
    let none = refers(rt.alloc(), "1px")?;
    assert_eq!(rt; (one, none), (true, false));
    Ok(())
}

/// The steps of a text, as a value.
fn steps(alloc: Global, text: &str) -> Result<String, NoMemory> {
    let list = tokens_of(alloc, text)?;
    let mut reader = PartReader::new(alloc, list.as_slice());
    let mut out = String::new(alloc);
    for _ in 0..100 {
        match reader.next()? {
            PartStep::Token(token) => write!(out, "{:?};", token.kind())?,
            PartStep::Alone(name) => write!(out, "{};", name.as_str())?,
            PartStep::Begins(name) => write!(out, "{}<", name.as_str())?,
            PartStep::Ends => write!(out, ">")?,
            PartStep::Finished => break,
            PartStep::Invalid => return Ok(out),
        }
    }
    Ok(out)
}

#[test]
fn steps_of_a_value(rt: HostRuntime) -> Result<(), Fail> {
    let text = steps(rt.alloc(), "(var(--a)var(--b,[,)x")?;
    assert_eq!(rt; text.as_str(), "OpenRound;--a;--b<OpenSquare;Comma;");
    Ok(())
}

/// The value that is whitespace alone, which no text has.
fn space(alloc: Global) -> Result<CustomValue, NoMemory> {
    let mut list = Vec::new(alloc);
    list.push(Token::white_space(alloc))?;
    CustomValue::of_tokens(alloc, list)
}

fn one_entry(alloc: Global, name: CustomName) -> Result<CustomMap, NoMemory> {
    let value = space(alloc)?;
    let mut entries = Vec::new(alloc);
    entries.push(CustomEntry { name, value })?;
    CustomMap::of_entries(alloc, entries)
}

#[test]
fn map_of_one(rt: HostRuntime) -> Result<(), Fail> {
    let name = CustomName::of_text(rt.alloc(), Text::of_str(rt.alloc(), "--é")?)?;
    let map = one_entry(rt.alloc(), name.share()?)?;
    let copy = map.share()?;
    assert!(rt; map.is_same(&copy) && !map.is_empty());
    assert!(rt; map.get("--e").is_none());
    let Some(value) = copy.get(name.as_str()) else {
        panic!(rt; "it has a value");
    };
    let other = value.share()?;
    assert!(rt; value.is_same(&other));
    Ok(())
}

#[test]
fn names(rt: HostRuntime) -> Result<(), Fail> {
    let one = CustomName::of_text(rt.alloc(), Text::of_str(rt.alloc(), "--a")?)?;
    let other = CustomName::of_text(rt.alloc(), Text::of_str(rt.alloc(), "--é")?)?;
    assert!(rt; one.compare(&other) == Ordering::Less && !one.is_same(&other));
    assert!(rt; is_custom_name(other.as_str()) && !is_custom_name("--"));
    Ok(())
}

#[test]
fn bare_tokens(rt: HostRuntime) -> Result<(), Fail> {
    let list = tokens_of(rt.alloc(), "1e3px")?;
    for token in &list {
        let bare = token.bare(rt.alloc())?;
        assert!(rt; bare.span().is_none() && bare.says_same(token));
    }
    Ok(())
}
