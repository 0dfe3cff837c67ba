//! A document to look for twins in.

use dom_tree::{Attr, Doc, NodeInput, NodeList, States};
use std::alloc::Global;
use stylo_base::NoMemory;

/// An attribute.
fn attr<'a>(name: &'a str, value: &'a str) -> Attr<'a> {
    Attr { name, value }
}

/// Appends an element to a list. Below a parent that is not there none is appended.
fn push_element(
    list: &mut NodeList,
    parent: u32,
    tag: &str,
    attrs: &[Attr<'_>],
    hover: bool,
) -> Result<(), NoMemory> {
    let states = States {
        hover,
        ..States::default()
    };
    let node = NodeInput { tag, attrs, states };
    if (parent as usize) < list.len() {
        list.push(parent, node)?;
    }
    Ok(())
}

/// The list of a root alone.
fn root(alloc: Global) -> Result<NodeList, NoMemory> {
    let node = NodeInput {
        tag: "html",
        attrs: &[],
        states: States::default(),
    };
    NodeList::of_root(alloc, node)
}

/// The document of a list, which is not too long for one.
fn document(alloc: Global, list: NodeList) -> Result<Box<Doc>, NoMemory> {
    if list.len() > 65_536 {
        return Err(NoMemory);
    }
    Ok(Box::new(alloc, Doc::of_list(alloc, list)?)?)
}

/// The elements 2 to 8: `p` with `class="a" k="1"`, the same in the other order; with another value, another tag and
/// another state; below the first of them; and with the value in another case.
fn push_first(list: &mut NodeList) -> Result<(), NoMemory> {
    let given = [attr("class", "a"), attr("k", "1")];
    let turned = [attr("k", "1"), attr("class", "a")];
    let other = [attr("class", "a"), attr("k", "2")];
    let upper = [attr("class", "A"), attr("k", "1")];
    push_element(list, 0, "p", &given, false)?;
    push_element(list, 0, "p", &turned, false)?;
    push_element(list, 0, "p", &other, false)?;
    push_element(list, 0, "i", &given, false)?;
    push_element(list, 0, "p", &given, true)?;
    push_element(list, 1, "p", &given, false)?;
    push_element(list, 0, "p", &upper, false)
}

/// The elements 9 to 11: `b` with two classes, with these the other way round, and as the first of them.
fn push_second(list: &mut NodeList) -> Result<(), NoMemory> {
    push_element(list, 0, "b", &[attr("class", "a b")], false)?;
    push_element(list, 0, "b", &[attr("class", "b a")], false)?;
    push_element(list, 0, "b", &[attr("class", "a b")], false)
}

/// A root with ten elements below it.
pub(crate) fn family(alloc: Global) -> Result<Box<Doc>, NoMemory> {
    let mut list = root(alloc)?;
    push_first(&mut list)?;
    push_second(&mut list)?;
    document(alloc, list)
}

/// The first eight elements of it.
pub(crate) fn few(alloc: Global) -> Result<Box<Doc>, NoMemory> {
    let mut list = root(alloc)?;
    push_first(&mut list)?;
    document(alloc, list)
}
