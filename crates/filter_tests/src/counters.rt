//! What a filter answers of names, and how far its counters go.

ghost use Rattle.scene_model.specs.Lookups.{IsElement};

use crate::documents::{chain, pair};
use ancestor_filter::{Ancestors, Filter, slot_of_key};
use dom_tree::Doc;
use std::alloc::Global;
use std::test::Fail;
use stylo_base::{NoMemory, key_of_text};

/// Whether a filter with an element of the class `aaa` may have a name.
fn beside_aaa(alloc: Global, name: &str) -> Result<bool, NoMemory> {
    let doc = pair(alloc, "p", "", "aaa")?;
    let mut filter = Filter::start(alloc)?;
    if doc.contains(2) {
        filter.push(&doc, 2);
    }
    Ok(filter.may_have(name))
}

#[test]
fn two_names_of_one_slot(rt: HostRuntime) -> Result<(), Fail> {
    let found = beside_aaa(rt.alloc(), "eie")?;
    assert!(rt; found);
    Ok(())
}

#[test]
fn two_names_of_two_slots(rt: HostRuntime) -> Result<(), Fail> {
    let found = beside_aaa(rt.alloc(), "aab")?;
    assert!(rt; !found);
    Ok(())
}

/// Adds an element so many times, and takes it away as often.
fn push_and_pop(filter: &mut Filter, doc: &Doc, x: u32, times: u32)
    requires { IsElement doc.now.elements x }
{
    for _ in 0..times {
        filter.push(doc, x);
    }
    for _ in 0..times {
        filter.pop(doc, x);
    }
}

/// Whether a filter may have the name `p`, once a `p` with that id and that class was there so many times.
fn after_pushes(alloc: Global, times: u32) -> Result<bool, NoMemory> {
    let doc = pair(alloc, "p", "p", "p p")?;
    let mut filter = Filter::start(alloc)?;
    if doc.contains(2) {
        push_and_pop(&mut filter, &doc, 2, times);
    }
    Ok(filter.may_have("p"))
}

#[test]
fn up_to_252_and_back(rt: HostRuntime) -> Result<(), Fail> {
    let found = after_pushes(rt.alloc(), 84)?;
    assert!(rt; !found);
    Ok(())
}

#[test]
fn up_to_255_and_never_back(rt: HostRuntime) -> Result<(), Fail> {
    let found = after_pushes(rt.alloc(), 85)?;
    assert!(rt; found);
    Ok(())
}

/// The counter of a name.
fn counter_of(filter: &Filter, name: &str) -> u8 {
    filter.counter(slot_of_key(key_of_text(name)))
}

/// Adds the elements up to a number.
fn push_up_to(filter: &mut Filter, doc: &Doc, last: u32) {
    for x in 1..last {
        if doc.contains(x) {
            filter.push(doc, x);
        }
    }
}

/// Takes the elements up to a number away.
fn pop_from(filter: &mut Filter, doc: &Doc, last: u32) {
    for x in (1..last).rev() {
        if doc.contains(x) {
            filter.pop(doc, x);
        }
    }
}

/// The counter of a class that so many elements of a chain have, once all are there, and once none is there any more.
fn of_chain(alloc: Global, more: u32) -> Result<(u8, u8), NoMemory> {
    let doc = chain(alloc, more, "c")?;
    let mut filter = Filter::start(alloc)?;
    push_up_to(&mut filter, &doc, 1_000);
    let there = counter_of(&filter, "c");
    pop_from(&mut filter, &doc, 1_000);
    Ok((there, counter_of(&filter, "c")))
}

#[test]
fn a_chain_of_254(rt: HostRuntime) -> Result<(), Fail> {
    let (there, gone) = of_chain(rt.alloc(), 254)?;
    assert!(rt; there == 254 && gone == 0);
    Ok(())
}

#[test]
fn a_chain_of_256(rt: HostRuntime) -> Result<(), Fail> {
    let (there, gone) = of_chain(rt.alloc(), 256)?;
    assert!(rt; there == 255 && gone == 255);
    Ok(())
}

/// Whether a saturated filter may have a name, and whether it has it still, once its element is reached.
fn after_saturating(alloc: Global, name: &str) -> Result<(bool, bool), NoMemory> {
    let doc = pair(alloc, "p", "", "a")?;
    let mut ancestors = Ancestors::start(alloc)?;
    ancestors.saturate();
    let before = ancestors.filter().may_have(name);
    if doc.contains(2) {
        ancestors.reach(&doc, 2)?;
    }
    Ok((before, ancestors.filter().may_have(name)))
}

#[test]
fn a_saturated_filter_begins_anew(rt: HostRuntime) -> Result<(), Fail> {
    let (before, after) = after_saturating(rt.alloc(), "a")?;
    assert!(rt; before && !after);
    Ok(())
}
