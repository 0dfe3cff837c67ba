//! Texts, names and numbers.

use std::alloc::Global;
use std::test::Fail;
use stylo_base::{Atom, Fixed, Names, NoMemory, Text};

/// A text that grew by a piece of each kind.
fn grown(alloc: Global) -> Result<Text, NoMemory> {
    let mut text = Text::of_str(alloc, "batch")?;
    text.push_char(' ')?;
    text.push_number(12)?;
    text.push_str(" \u{e9}")?;
    Ok(text)
}

#[test]
fn grows(rt: HostRuntime) -> Result<(), Fail> {
    let text = grown(rt.alloc())?;
    assert_eq!(rt; text.as_str(), "batch 12 \u{e9}");
    Ok(())
}

/// A copy of a text, with the text behind it.
fn doubled(alloc: Global) -> Result<Text, NoMemory> {
    let text = Text::of_str(alloc, "\u{e9}1")?;
    let mut copy = text.copy(alloc)?;
    copy.push_text(&text)?;
    Ok(copy)
}

#[test]
fn copies(rt: HostRuntime) -> Result<(), Fail> {
    let text = doubled(rt.alloc())?;
    assert_eq!(rt; text.as_str(), "\u{e9}1\u{e9}1");
    Ok(())
}

fn copy_of_an_atom(alloc: Global) -> Result<Atom, NoMemory> {
    let atom = Atom::of_text(Text::of_str(alloc, "div")?);
    atom.copy(alloc)
}

#[test]
fn atoms(rt: HostRuntime) -> Result<(), Fail> {
    let atom = copy_of_an_atom(rt.alloc())?;
    assert_eq!(rt; atom.as_str(), "div");
    Ok(())
}

/// Names of two texts.
fn two_names(alloc: Global) -> Result<Names, NoMemory> {
    let mut names = Names::new(alloc);
    names.intern("div")?;
    names.intern("Div")?;
    names.copy(alloc)
}

#[test]
fn names(rt: HostRuntime) -> Result<(), Fail> {
    let names = two_names(rt.alloc())?;
    let seen = (
        names.len(),
        names.find("Div").is_some(),
        names.find("DIV").is_some(),
    );
    assert_eq!(rt; seen, (2, true, false));
    Ok(())
}

#[test]
fn numbers(rt: HostRuntime) -> Result<(), Fail> {
    let text = Fixed::clamp(-37_050).write(rt.alloc())?;
    assert_eq!(rt; text.as_str(), "-37.05");
    Ok(())
}
