//! Lists of nodes, and documents.

use dom_tree::{Attr, Doc, NodeInput, NodeList, States};
use std::alloc::Global;
use std::test::Fail;
use stylo_base::{Atom, NoMemory, State, Text};

/// A node with a tag alone.
fn node(tag: &str) -> NodeInput<'_> {
    NodeInput {
        tag,
        attrs: &[],
        states: States::default(),
    }
}

/// `html` over `p`.
fn pair(alloc: Global) -> Result<NodeList, NoMemory> {
    let mut list = NodeList::of_root(alloc, node("html"))?;
    list.push(0, node("p"))?;
    Ok(list)
}

fn depths_of(alloc: Global) -> Result<Vec<usize>, NoMemory> {
    let list = pair(alloc)?;
    Ok(Vec::from_slice(alloc, list.depths())?)
}

#[test]
fn depths(rt: HostRuntime) -> Result<(), Fail> {
    let depths = depths_of(rt.alloc())?;
    assert_eq!(rt; depths.as_slice(), [1, 2].as_slice());
    Ok(())
}

/// The document of the pair, which is copied.
fn started(alloc: Global) -> Result<Doc, Fail> {
    let list = pair(alloc)?;
    if list.len() > 2 {
        return Err(Fail::from("there are two nodes"));
    }
    Ok(Doc::start(alloc, &list)?)
}

fn order_of(alloc: Global) -> Result<Vec<u32>, Fail> {
    let doc = started(alloc)?;
    Ok(doc.tree_order(alloc)?)
}

#[test]
fn in_tree_order(rt: HostRuntime) -> Result<(), Fail> {
    let order = order_of(rt.alloc())?;
    assert_eq!(rt; order.as_slice(), [1, 2].as_slice());
    Ok(())
}

/// An element alone, active, with two attributes of one name.
fn alone(alloc: Global) -> Result<Doc, NoMemory> {
    let attrs = [
        Attr {
            name: "class",
            value: "\ta b a",
        },
        Attr {
            name: "class",
            value: "c",
        },
    ];
    let root = NodeInput {
        tag: "html",
        attrs: &attrs,
        states: States {
            active: true,
            ..States::default()
        },
    };
    let list = NodeList::of_root(alloc, root)?;
    Doc::of_list(alloc, list)
}

/// Whether the first element has these classes, and these states.
fn facts_of(doc: &Doc) -> (bool, bool, bool, bool) {
    if !doc.contains(1) {
        return (false, false, false, false);
    }
    (
        doc.has_class(1, "b"),
        doc.has_class(1, "c"),
        doc.state(1, State::Active),
        doc.state(1, State::Hover),
    )
}

#[test]
fn facts(rt: HostRuntime) -> Result<(), Fail> {
    let doc = alone(rt.alloc())?;
    assert_eq!(rt; facts_of(&doc), (true, false, true, false));
    Ok(())
}

/// An element with twelve classes, over one with another.
fn twelve(alloc: Global) -> Result<Doc, NoMemory> {
    let attrs = [Attr {
        name: "class",
        value: "l k j i h g f e d c b a k",
    }];
    let root = NodeInput {
        tag: "html",
        attrs: &attrs,
        states: States::default(),
    };
    let mut list = NodeList::of_root(alloc, root)?;
    let other = [Attr {
        name: "class",
        value: "m a",
    }];
    let child = NodeInput {
        tag: "p",
        attrs: &other,
        states: States::default(),
    };
    list.push(0, child)?;
    Doc::of_list(alloc, list)
}

/// Whether the first element has a class, by its text and by an atom.
fn has_both(alloc: Global, doc: &Doc, class: &str) -> Result<(bool, bool), NoMemory> {
    let atom = Atom::of_text(Text::of_str(alloc, class)?);
    if !doc.contains(1) {
        return Ok((false, false));
    }
    Ok((doc.has_class(1, class), doc.has_class_atom(1, &atom)))
}

/// The same of the twelve's last and first class, of the other element's, and of one that neither has.
fn found(alloc: Global) -> Result<[(bool, bool); 4], NoMemory> {
    let doc = Box::new(alloc, twelve(alloc)?)?;
    Ok([
        has_both(alloc, &doc, "l")?,
        has_both(alloc, &doc, "a")?,
        has_both(alloc, &doc, "m")?,
        has_both(alloc, &doc, "x")?,
    ])
}

#[test]
fn many_classes(rt: HostRuntime) -> Result<(), Fail> {
    let (both, none) = ((true, true), (false, false));
    let told = found(rt.alloc())?;
    assert_eq!(rt; told, [both, both, none, none]);
    Ok(())
}
