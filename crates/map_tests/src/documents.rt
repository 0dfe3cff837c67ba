//! Documents to look rules up for.

use dom_tree::{Attr, Doc, NodeInput, NodeList, States};
use std::alloc::Global;
use stylo_base::NoMemory;

/// An element: its tag, the values of its `id` and `class`, and the name of one more attribute.
#[derive(Clone, Copy)]
pub(crate) struct Names<'a> {
    pub(crate) tag: &'a str,
    pub(crate) id: &'a str,
    pub(crate) class: &'a str,
    pub(crate) attribute: &'a str,
}

/// Appends an element to a list. Below a parent that is not there none is appended.
pub(crate) fn push_element(
    list: &mut NodeList,
    parent: u32,
    names: Names<'_>,
) -> Result<(), NoMemory> {
    let attrs = [
        Attr {
            name: names.attribute,
            value: "1",
        },
        Attr {
            name: "id",
            value: names.id,
        },
        Attr {
            name: "class",
            value: names.class,
        },
    ];
    let node = NodeInput {
        tag: names.tag,
        attrs: &attrs,
        states: States::default(),
    };
    if (parent as usize) < list.len() {
        list.push(parent, node)?;
    }
    Ok(())
}

/// The list of a root alone, `html` without attributes.
pub(crate) fn root(alloc: Global) -> Result<NodeList, NoMemory> {
    let node = NodeInput {
        tag: "html",
        attrs: &[],
        states: States::default(),
    };
    NodeList::of_root(alloc, node)
}

/// The document of a list, which is not too long for one.
pub(crate) fn document(alloc: Global, list: NodeList) -> Result<Box<Doc>, NoMemory> {
    if list.len() > 65_536 {
        return Err(NoMemory);
    }
    Ok(Box::new(alloc, Doc::of_list(alloc, list)?)?)
}

/// The document `html` over an element with these names.
pub(crate) fn pair(alloc: Global, names: Names<'_>) -> Result<Box<Doc>, NoMemory> {
    let mut list = root(alloc)?;
    push_element(&mut list, 0, names)?;
    document(alloc, list)
}
