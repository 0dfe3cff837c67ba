//! Who is served by whose entry.

use crate::documents::{family, few};
use crate::entries::{asked, filled};
use std::alloc::Global;
use std::test::Fail;
use stylo_base::NoMemory;

/// Whose entry serves an element, where some have one.
fn served(alloc: Global, kept: &[u32], x: u32) -> Result<Option<u32>, NoMemory> {
    let doc = family(alloc)?;
    let mut share = filled(alloc, &doc, 8, kept)?;
    Ok(asked(&mut share, &doc, x))
}

#[test]
fn another_order_of_attributes_is_served(rt: HostRuntime) -> Result<(), Fail> {
    let twin = served(rt.alloc(), &[2], 3)?;
    assert!(rt; twin == Some(2));
    Ok(())
}

#[test]
fn all_else_is_compared(rt: HostRuntime) -> Result<(), Fail> {
    for x in [1, 4, 5, 6, 7, 8] {
        let twin = served(rt.alloc(), &[2], x)?;
        assert!(rt; twin == None);
    }
    Ok(())
}

#[test]
fn classes_the_other_way_round_are_another_value(rt: HostRuntime) -> Result<(), Fail> {
    let turned = served(rt.alloc(), &[9], 10)?;
    assert!(rt; turned == None);
    let equal = served(rt.alloc(), &[9], 11)?;
    assert!(rt; equal == Some(9));
    Ok(())
}

#[test]
fn a_root_serves_no_one(rt: HostRuntime) -> Result<(), Fail> {
    let twin = served(rt.alloc(), &[1], 1)?;
    assert!(rt; twin == None);
    Ok(())
}

/// Whose entry serves an element of the smaller document, where elements of the greater one have entries.
fn served_elsewhere(alloc: Global, kept: &[u32], x: u32) -> Result<Option<u32>, NoMemory> {
    let mut share = filled(alloc, &*family(alloc)?, 8, kept)?;
    Ok(asked(&mut share, &*few(alloc)?, x))
}

#[test]
fn an_element_that_is_gone_serves_none(rt: HostRuntime) -> Result<(), Fail> {
    let gone = served_elsewhere(rt.alloc(), &[11], 3)?;
    assert!(rt; gone == None);
    let there = served_elsewhere(rt.alloc(), &[2, 11], 3)?;
    assert!(rt; there == Some(2));
    Ok(())
}
