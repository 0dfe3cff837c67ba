//! The caller of docs/CALLING.md.

use dom_tree::{Doc, NodeInput, NodeList, States};
use layer_order::Origin;
use plain_style::style_all;
use property_table::{PropId, Value};
use sheet_set::{SheetInput, Sheets};
use std::alloc::Global;
use std::test::Fail;
use stylo_base::{Fixed, NoMemory, Text};

/// A node with a tag alone.
fn node(tag: &str) -> NodeInput<'_> {
    NodeInput {
        tag,
        attrs: &[],
        states: States::default(),
    }
}

/// The document `html` over `p`.
fn document(alloc: Global) -> Result<Doc, NoMemory> {
    let mut nodes = NodeList::of_root(alloc, node("html"))?;
    nodes.push(0, node("p"))?;
    Doc::of_list(alloc, nodes)
}

/// What is kept of one author sheet.
fn author_sheet(alloc: Global, text: &str) -> Result<Sheets, NoMemory> {
    let sheet = SheetInput {
        origin: Origin::Author,
        enabled: true,
        text: Text::of_str(alloc, text)?,
    };
    Sheets::start(alloc, &[sheet])
}

/// The computed `width` of the second element in tree order.
fn width_of_second(alloc: Global, doc: &Doc, sheets: &Sheets) -> Result<Option<Value>, NoMemory> {
    let styles = style_all(alloc, doc, sheets)?;
    match styles.get(1) {
        Some(style) => Ok(Some(style.value(PropId::Width))),
        None => Ok(None),
    }
}

fn width_of_p(alloc: Global, doc: &Doc) -> Result<Option<Value>, NoMemory> {
    let sheets = author_sheet(alloc, "html { font-size: 20px } p { width: 1.5em }")?;
    width_of_second(alloc, doc, &sheets)
}

#[test]
fn width(rt: HostRuntime) -> Result<(), Fail> {
    let doc = Box::new(rt.alloc(), document(rt.alloc())?)?;
    let found = width_of_p(rt.alloc(), &doc)?;
    assert_eq!(rt; found, Some(Value::Pixels(Fixed::clamp(30_000))));
    Ok(())
}
