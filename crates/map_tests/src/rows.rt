//! Candidates by every kind of key.

use crate::documents::{Names, document, pair, push_element, root};
use crate::rules::rules_of;
use dom_tree::Doc;
use rule_maps::RuleMap;
use std::alloc::Global;
use std::test::Fail;
use stylo_base::NoMemory;

/// The candidates of an element among the rules of these lists.
fn candidates(alloc: Global, doc: &Doc, x: u32, texts: &[&str]) -> Result<Vec<u32>, NoMemory> {
    let rules = rules_of(alloc, texts)?;
    let map = RuleMap::of(alloc, &rules)?;
    if !doc.contains(x) {
        return Err(NoMemory);
    }
    map.candidates(alloc, doc, x)
}

/// The document `html` over two `p` and an `i`.
fn family(alloc: Global) -> Result<Box<Doc>, NoMemory> {
    let mut list = root(alloc)?;
    let first = Names {
        tag: "p",
        id: "",
        class: "a c a",
        attribute: "x",
    };
    let second = Names {
        tag: "p",
        id: "n",
        class: "b\ta",
        attribute: "x",
    };
    let third = Names {
        tag: "i",
        id: "",
        class: "",
        attribute: "x",
    };
    push_element(&mut list, 0, first)?;
    push_element(&mut list, 0, second)?;
    push_element(&mut list, 0, third)?;
    document(alloc, list)
}

/// The candidates of an element of that document among eight rules.
fn of_eight(alloc: Global, x: u32) -> Result<Vec<u32>, NoMemory> {
    let texts = [
        "p.a, #n",
        ".b.a",
        ":is(#n)",
        "*",
        "i, .c p",
        "p#n:hover",
        ".a .b ~ i, .z",
        ":not(.q)",
    ];
    let doc = family(alloc)?;
    candidates(alloc, &doc, x, &texts)
}

#[test]
fn of_the_root(rt: HostRuntime) -> Result<(), Fail> {
    let found = of_eight(rt.alloc(), 1)?;
    assert_eq!(rt; found.as_slice(), [2, 3, 7].as_slice());
    Ok(())
}

#[test]
fn of_classes_and_an_empty_id(rt: HostRuntime) -> Result<(), Fail> {
    let found = of_eight(rt.alloc(), 2)?;
    assert_eq!(rt; found.as_slice(), [0, 2, 3, 4, 7].as_slice());
    Ok(())
}

#[test]
fn of_classes_and_an_id(rt: HostRuntime) -> Result<(), Fail> {
    let found = of_eight(rt.alloc(), 3)?;
    assert_eq!(rt; found.as_slice(), [0, 1, 2, 3, 4, 5, 7].as_slice());
    Ok(())
}

#[test]
fn of_a_tag_alone(rt: HostRuntime) -> Result<(), Fail> {
    let found = of_eight(rt.alloc(), 4)?;
    assert_eq!(rt; found.as_slice(), [2, 3, 4, 6, 7].as_slice());
    Ok(())
}

/// The candidates of a `p` of one class, and of an attribute, among these rules.
fn of_one(
    alloc: Global,
    class: &str,
    attribute: &str,
    texts: &[&str],
) -> Result<Vec<u32>, NoMemory> {
    let names = Names {
        tag: "p",
        id: "",
        class,
        attribute,
    };
    let doc = pair(alloc, names)?;
    candidates(alloc, &doc, 2, texts)
}

#[test]
fn two_classes_of_one_key(rt: HostRuntime) -> Result<(), Fail> {
    let found = of_one(rt.alloc(), "BB", "x", &[".Aa", ".BB"])?;
    assert_eq!(rt; found.as_slice(), [1].as_slice());
    Ok(())
}

#[test]
fn an_attribute_that_is_not_there(rt: HostRuntime) -> Result<(), Fail> {
    let found = of_one(rt.alloc(), "a", "y", &["[x]", ":is()", ".b[y]"])?;
    assert_eq!(rt; found.as_slice(), [0, 1].as_slice());
    Ok(())
}

#[test]
fn no_rule(rt: HostRuntime) -> Result<(), Fail> {
    let found = of_one(rt.alloc(), "a", "x", &[])?;
    assert!(rt; found.is_empty());
    Ok(())
}
