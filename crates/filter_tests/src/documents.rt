//! Documents to try a filter on.

use dom_tree::{Attr, Doc, NodeInput, NodeList, States};
use std::alloc::Global;
use stylo_base::NoMemory;

/// Appends a node with an id and classes to a list. Below a parent that is not there none is appended.
pub(crate) fn push_node(
    list: &mut NodeList,
    parent: u32,
    tag: &str,
    id: &str,
    class: &str,
) -> Result<(), NoMemory> {
    let attrs = [
        Attr {
            name: "id",
            value: id,
        },
        Attr {
            name: "class",
            value: class,
        },
    ];
    let node = NodeInput {
        tag,
        attrs: &attrs,
        states: States::default(),
    };
    if (parent as usize) < list.len() {
        list.push(parent, node)?;
    }
    Ok(())
}

/// The list of a root alone.
pub(crate) fn root(alloc: Global) -> Result<NodeList, NoMemory> {
    let node = NodeInput {
        tag: "html",
        attrs: &[],
        states: States::default(),
    };
    NodeList::of_root(alloc, node)
}

/// The document of a list, which is not too long for one.
pub(crate) fn document(alloc: Global, list: NodeList) -> Result<Box<Doc>, NoMemory> {
    if list.len() > 65_536 {
        return Err(NoMemory);
    }
    Ok(Box::new(alloc, Doc::of_list(alloc, list)?)?)
}

/// The document `html` over an element with an id and classes.
pub(crate) fn pair(alloc: Global, tag: &str, id: &str, class: &str) -> Result<Box<Doc>, NoMemory> {
    let mut list = root(alloc)?;
    push_node(&mut list, 0, tag, id, class)?;
    document(alloc, list)
}

/// The document of a root and so many more elements, each below the one before it, all but the root of one class.
pub(crate) fn chain(alloc: Global, more: u32, class: &str) -> Result<Box<Doc>, NoMemory> {
    let mut list = root(alloc)?;
    for parent in 0..more {
        push_node(&mut list, parent, "i", "", class)?;
    }
    document(alloc, list)
}
