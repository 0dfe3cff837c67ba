//! What is kept of sheets.

use layer_order::Origin;
use sheet_set::{SheetInput, Sheets};
use std::alloc::Global;
use std::test::Fail;
use stylo_base::{NoMemory, Text};

/// The sheets of a document with one author sheet.
fn author(alloc: Global, text: &str) -> Result<Box<Sheets>, NoMemory> {
    let sheet = SheetInput {
        origin: Origin::Author,
        enabled: true,
        text: Text::of_str(alloc, text)?,
    };
    Ok(Box::new(alloc, Sheets::start(alloc, &[sheet])?)?)
}

/// How many selectors and declarations the only rule has.
fn counts(sheets: &Sheets) -> (usize, usize) {
    match (sheets.rules(), sheets.selectors()) {
        ([rule], [selectors]) => (selectors.len(), rule.declarations().len()),
        _ => (0, 0),
    }
}

#[test]
fn one_rule(rt: HostRuntime) -> Result<(), Fail> {
    let sheets = author(rt.alloc(), "p,.a{color:red;colour:x;clear:both}")?;
    assert_eq!(rt; counts(&sheets), (2, 2));
    Ok(())
}

/// A shorthand with a value is one entry for each of its properties, and one with `var()` one alone.
#[test]
fn shorthands(rt: HostRuntime) -> Result<(), Fail> {
    let sheets = author(rt.alloc(), "p{margin:1px;padding:var(--a)}")?;
    assert_eq!(rt; counts(&sheets), (1, 5));
    Ok(())
}

/// Where the last rule of two stands: its sheet's position, and how many declarations come before it.
fn last_place(sheets: &Sheets) -> (u32, u32, u64) {
    match (sheets.rules(), sheets.positions()) {
        ([_, rule], [_, position]) => (rule.sheet(), *position, rule.first_index()),
        _ => (0, 0, 0),
    }
}

/// A disabled sheet, and an enabled one of two rules.
fn two_sheets(alloc: Global) -> Result<Box<Sheets>, NoMemory> {
    let disabled = SheetInput {
        origin: Origin::User,
        enabled: false,
        text: Text::of_str(alloc, "p{}")?,
    };
    let enabled = SheetInput {
        origin: Origin::User,
        enabled: true,
        text: Text::of_str(alloc, "p{margin:inherit}p{}")?,
    };
    let sheets = Sheets::start(alloc, &[disabled, enabled])?;
    Ok(Box::new(alloc, sheets)?)
}

#[test]
fn last_rule(rt: HostRuntime) -> Result<(), Fail> {
    let sheets = two_sheets(rt.alloc())?;
    assert_eq!(rt; last_place(&sheets), (2, 0, 4));
    Ok(())
}
