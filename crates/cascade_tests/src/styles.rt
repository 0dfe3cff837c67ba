//! Styles.

use property_table::{Keyword, PropId, Value};
use std::alloc::Global;
use std::sync::Arc;
use std::test::Fail;
use style_value::{Style, StyleDraft, StyleTable};
use stylo_base::NoMemory;

/// What is inherited of a style with one value that is, and one that is not. Nothing is adjusted, so
/// the borders keep their initial widths.
fn inherited(alloc: Global) -> Result<Style, NoMemory> {
    let mut draft = StyleDraft::inheriting(alloc, &Style::initial(alloc)?)?;
    draft.set(PropId::Display, Value::Keyword(Keyword::None));
    draft.set(PropId::Visibility, Value::Keyword(Keyword::Hidden));
    let style = draft.finish(alloc)?;
    style.inherited_part(alloc)
}

#[test]
fn values(rt: HostRuntime) -> Result<(), Fail> {
    let style = inherited(rt.alloc())?;
    assert_eq!(rt;
        style.text(),
        "visibility: hidden; border-top-width: 3px; border-right-width: 3px; \
         border-bottom-width: 3px; border-left-width: 3px"
    );
    Ok(())
}

/// A draft in which this is the value of `display`.
fn displayed(alloc: Global, display: Keyword) -> Result<StyleDraft, NoMemory> {
    let mut draft = StyleDraft::inheriting(alloc, &Style::initial(alloc)?)?;
    draft.set(PropId::Display, Value::Keyword(display));
    Ok(draft)
}

/// The numbers of a style, of another one, and of the first again.
fn numbers(alloc: Global) -> Result<(usize, usize, usize), NoMemory> {
    let mut table = StyleTable::start(alloc, 64)?;
    Ok((
        table.add(alloc, displayed(alloc, Keyword::Block)?)?,
        table.add(alloc, displayed(alloc, Keyword::None)?)?,
        table.add(alloc, displayed(alloc, Keyword::Block)?)?,
    ))
}

#[test]
fn equal_styles_have_one_number(rt: HostRuntime) -> Result<(), Fail> {
    let numbers = numbers(rt.alloc())?;
    assert_eq!(rt; numbers, (0, 1, 0));
    Ok(())
}

/// The parts of a style, of one with another `display`, and of one with another `visibility`.
fn parts(alloc: Global) -> Result<(usize, usize, usize), NoMemory> {
    let mut table = StyleTable::start(alloc, 64)?;
    let mut hidden = displayed(alloc, Keyword::Block)?;
    hidden.set(PropId::Visibility, Value::Keyword(Keyword::Hidden));
    let one = table.add(alloc, displayed(alloc, Keyword::Block)?)?;
    let other = table.add(alloc, displayed(alloc, Keyword::None)?)?;
    let third = table.add(alloc, hidden)?;
    Ok((table.part(one), table.part(other), table.part(third)))
}

#[test]
fn equal_inherited_parts_have_one_number(rt: HostRuntime) -> Result<(), Fail> {
    let parts = parts(rt.alloc())?;
    assert_eq!(rt; parts, (0, 0, 2));
    Ok(())
}

/// The numbers that a table with another style gives a style that is kept elsewhere, the same once more,
/// and its values.
fn adopted(alloc: Global) -> Result<(usize, usize, usize), NoMemory> {
    let style = Arc::new(alloc, displayed(alloc, Keyword::Block)?.finish(alloc)?)?;
    let mut table = StyleTable::start(alloc, 64)?;
    table.add(alloc, displayed(alloc, Keyword::None)?)?;
    Ok((
        table.adopt(&style)?,
        table.adopt(&style)?,
        table.add(alloc, displayed(alloc, Keyword::Block)?)?,
    ))
}

#[test]
fn a_style_is_adopted_once(rt: HostRuntime) -> Result<(), Fail> {
    let numbers = adopted(rt.alloc())?;
    assert_eq!(rt; numbers, (1, 1, 1));
    Ok(())
}

/// How many styles a table has, and how many once it is cleared, and the number of one that is added then.
fn cleared(alloc: Global) -> Result<(usize, usize, usize), NoMemory> {
    let mut table = StyleTable::start(alloc, 64)?;
    table.add(alloc, displayed(alloc, Keyword::Block)?)?;
    let filled = table.len();
    table.clear();
    let empty = table.len();
    Ok((
        filled,
        empty,
        table.add(alloc, displayed(alloc, Keyword::Block)?)?,
    ))
}

#[test]
fn a_table_is_cleared(rt: HostRuntime) -> Result<(), Fail> {
    let numbers = cleared(rt.alloc())?;
    assert_eq!(rt; numbers, (1, 0, 0));
    Ok(())
}
