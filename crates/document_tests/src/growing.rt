//! Documents that grow and shrink.

use dom_tree::{Doc, NodeInput, NodeList, States};
use std::alloc::Global;
use std::test::Fail;
use stylo_base::{NoMemory, Text};

/// A list of nodes: of each its tag, and the index of its parent, which the first has none of.
fn list_of(alloc: Global, nodes: &[(&str, u32)]) -> Result<NodeList, NoMemory> {
    let mut rest = nodes.iter();
    let root = match rest.next() {
        Some((tag, _)) => *tag,
        None => "html",
    };
    let mut list = NodeList::of_root(alloc, node(root))?;
    for (tag, parent) in rest {
        if (*parent as usize) < list.len() {
            list.push(*parent, node(tag))?;
        }
    }
    Ok(list)
}

/// A node with a tag alone.
fn node(tag: &str) -> NodeInput<'_> {
    NodeInput {
        tag,
        attrs: &[],
        states: States::default(),
    }
}

/// Three children of the root, the first and the last with the same tag, and two elements below these.
const TREE: [(&str, u32); 6] = [
    ("html", 0),
    ("p", 0),
    ("i", 1),
    ("b", 0),
    ("u", 3),
    ("p", 0),
];

/// The document of that list.
fn doc_of(alloc: Global) -> Result<Box<Doc>, NoMemory> {
    let list = list_of(alloc, &TREE)?;
    if list.len() > 65536 {
        return Err(NoMemory);
    }
    Ok(Box::new(alloc, Doc::of_list(alloc, list)?)?)
}

/// What there is, in tree order: each number with that of its parent, how many siblings are before it, and how many of
/// its type before and after it.
fn told(alloc: Global, doc: &Doc) -> Result<Text, NoMemory> {
    let mut text = Text::new(alloc);
    for x in doc.in_tree_order() {
        push_element(&mut text, doc, *x)?;
    }
    Ok(text)
}

/// Appends that of an element.
fn push_element(text: &mut Text, doc: &Doc, x: u32) -> Result<(), NoMemory> {
    if !doc.contains(x) {
        return Ok(());
    }
    text.push_number(x as u64)?;
    let places = [
        doc.parent(x).unwrap_or(0),
        doc.place(x),
        doc.place_of_type(x),
        doc.place_of_type_from_last(x),
    ];
    for place in places {
        text.push_str(" ")?;
        text.push_number(place as u64)?;
    }
    text.push_str("; ")
}

/// Takes an element out, if it has a parent, and tells what is left.
fn without(alloc: Global, x: u32) -> Result<Text, NoMemory> {
    let mut doc = doc_of(alloc)?;
    if doc.contains(x) && doc.parent(x).is_some() {
        doc.remove(x);
    }
    told(alloc, &doc)
}

#[test]
fn before_it_is_changed(rt: HostRuntime) -> Result<(), Fail> {
    let text = without(rt.alloc(), 1)?;
    assert_eq!(rt;
        text.as_str(),
        "1 0 0 0 0; 2 1 0 0 1; 3 2 0 0 0; 4 1 1 0 0; 5 4 0 0 0; 6 1 2 1 0; "
    );
    Ok(())
}

#[test]
fn taken_out(rt: HostRuntime) -> Result<(), Fail> {
    let text = without(rt.alloc(), 2)?;
    assert_eq!(rt;
        text.as_str(),
        "1 0 0 0 0; 4 1 0 0 0; 5 4 0 0 0; 6 1 1 0 0; "
    );
    Ok(())
}

/// What is asked of a number that was given.
fn asked(alloc: Global) -> Result<(usize, usize, bool, bool), NoMemory> {
    let mut doc = doc_of(alloc)?;
    if doc.contains(4) && doc.parent(4).is_some() {
        doc.remove(4);
    }
    Ok((doc.len(), doc.last(), doc.contains(5), doc.contains(6)))
}

#[test]
fn number_of_none(rt: HostRuntime) -> Result<(), Fail> {
    let facts = asked(rt.alloc())?;
    assert_eq!(rt; facts, (4, 6, false, true));
    Ok(())
}
