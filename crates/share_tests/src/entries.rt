//! Which entries are kept.

use crate::documents::family;
use dom_tree::Doc;
use std::alloc::Global;
use std::sync::Arc;
use std::test::Fail;
use style_sharing::Share;
use style_value::Style;
use stylo_base::NoMemory;

/// Puts a style for an element.
fn put(alloc: Global, share: &mut Share, doc: &Doc, x: u32) -> Result<(), NoMemory> {
    let style = Arc::new(alloc, Style::initial(alloc)?)?;
    if doc.contains(x) {
        share.put(doc, x, &style)?;
    }
    Ok(())
}

/// A share in which a style was put for each of these elements, without rules.
pub(crate) fn filled(alloc: Global, doc: &Doc, size: u32, kept: &[u32]) -> Result<Share, NoMemory> {
    let mut share = Share::start(alloc, size, &[])?;
    for x in kept {
        put(alloc, &mut share, doc, *x)?;
    }
    Ok(share)
}

/// Whose entry serves an element.
pub(crate) fn asked(share: &mut Share, doc: &Doc, x: u32) -> Option<u32> {
    if doc.contains(x) {
        share.bring(doc, x)
    } else {
        None
    }
}

/// Whose entries serve 3 and 11, once 2's was looked for between two others, with room for two.
fn after_a_look(alloc: Global) -> Result<(Option<u32>, Option<u32>), NoMemory> {
    let doc = family(alloc)?;
    let mut share = filled(alloc, &doc, 2, &[2, 9])?;
    asked(&mut share, &doc, 3);
    put(alloc, &mut share, &doc, 5)?;
    Ok((asked(&mut share, &doc, 3), asked(&mut share, &doc, 11)))
}

#[test]
fn the_last_used_is_kept(rt: HostRuntime) -> Result<(), Fail> {
    let (found, gone) = after_a_look(rt.alloc())?;
    assert!(rt; found == Some(2) && gone == None);
    Ok(())
}

/// Whose entries serve 3 and 11, once a style was put for a twin of 2, with room for two.
fn after_a_twin(alloc: Global) -> Result<(Option<u32>, Option<u32>), NoMemory> {
    let doc = family(alloc)?;
    let mut share = filled(alloc, &doc, 2, &[2, 9, 3])?;
    Ok((asked(&mut share, &doc, 3), asked(&mut share, &doc, 11)))
}

#[test]
fn a_twin_drops_none(rt: HostRuntime) -> Result<(), Fail> {
    let (first, second) = after_a_twin(rt.alloc())?;
    assert!(rt; first == Some(2) && second == Some(9));
    Ok(())
}

/// Whether a style is found for 3, once 2's was put, with room for so many.
fn is_found(alloc: Global, size: u32) -> Result<bool, NoMemory> {
    let doc = family(alloc)?;
    let mut share = filled(alloc, &doc, size, &[2])?;
    Ok(doc.contains(3) && share.find(&doc, 3).is_some())
}

#[test]
fn sizes(rt: HostRuntime) -> Result<(), Fail> {
    let of_none = is_found(rt.alloc(), 0)?;
    let of_one = is_found(rt.alloc(), 1)?;
    assert!(rt; !of_none && of_one);
    Ok(())
}

/// Whose entries serve 3 once a share began anew, before 2's was put again and after it.
fn anew(alloc: Global, serves: bool) -> Result<(Option<u32>, Option<u32>), NoMemory> {
    let doc = family(alloc)?;
    let mut share = filled(alloc, &doc, 4, &[2])?;
    share.begin(serves);
    let before = asked(&mut share, &doc, 3);
    put(alloc, &mut share, &doc, 2)?;
    Ok((before, asked(&mut share, &doc, 3)))
}

#[test]
fn begun_anew(rt: HostRuntime) -> Result<(), Fail> {
    let (before, after) = anew(rt.alloc(), true)?;
    assert!(rt; before == None && after == Some(2));
    let (before, after) = anew(rt.alloc(), false)?;
    assert!(rt; before == None && after == None);
    Ok(())
}
