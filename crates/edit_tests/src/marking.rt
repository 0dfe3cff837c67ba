//! Which elements an edit marks.

ghost use Rattle.std.specs.Prelude.{◌≡◌};

use css_tokens::{preprocess, tokens};
use dom_edits::{DocEdit, apply};
use dom_tree::{Doc, NodeInput, NodeList, States};
use invalidation_map::marks;
use selector_parser::selector_list;
use selector_types::Selector;
use std::alloc::Global;
use std::test::Fail;
use stylo_base::{NoMemory, Text};

/// A node with a tag alone.
fn node(tag: &str) -> NodeInput<'_> {
    NodeInput {
        tag,
        attrs: &[],
        states: States::default(),
    }
}

/// The document `html` over `p` over `i`.
fn document(alloc: Global) -> Result<Box<Doc>, NoMemory> {
    let mut list = NodeList::of_root(alloc, node("html"))?;
    list.push(0, node("p"))?;
    list.push(1, node("i"))?;
    Ok(Box::new(alloc, Doc::of_list(alloc, list)?)?)
}

/// The edit that gives the element 2 a class.
fn class_edit(alloc: Global, class: &str) -> Result<DocEdit, NoMemory> {
    let name = Text::of_str(alloc, "class")?;
    let value = Text::of_str(alloc, class)?;
    Ok(DocEdit::Set {
        node: 2,
        name,
        value,
    })
}

/// Reads a list of selectors.
fn selectors_of(alloc: Global, text: &str) -> Result<Vec<Selector>, NoMemory> {
    let text = preprocess(alloc, text)?;
    let list = tokens(alloc, text.as_str())?;
    selector_list(alloc, list.as_slice())?.ok_or(NoMemory)
}

/// Makes an edit of a document, which is as this one before it. The answer is whom it marks.
fn mark(
    alloc: Global,
    before: &Doc,
    doc: &mut Doc,
    selectors: &[Vec<Selector>],
    edit: &DocEdit,
) -> Result<Vec<u32>, NoMemory>
    requires { before.now ≡ doc.old }
{
    let Ok(touched) = apply(alloc, doc, edit) else {
        return Err(NoMemory);
    };
    marks(alloc, before, edit, &touched, doc, selectors)
}

/// The same of a document by one list of selectors.
fn marked_by(
    alloc: Global,
    doc: &mut Doc,
    text: &str,
    edit: &DocEdit,
) -> Result<Vec<u32>, NoMemory> {
    let before = Box::new(alloc, doc.copy(alloc)?)?;
    let selectors = vec![in alloc; selectors_of(alloc, text)?]?;
    mark(alloc, &before, doc, &selectors, edit)
}

/// Whom a class of the element 2 marks by a list of selectors.
fn marked(alloc: Global, class: &str, text: &str) -> Result<Vec<u32>, NoMemory> {
    let mut doc = document(alloc)?;
    let edit = class_edit(alloc, class)?;
    marked_by(alloc, &mut doc, text, &edit)
}

#[test]
fn by_a_class(rt: HostRuntime) -> Result<(), Fail> {
    let found = marked(rt.alloc(), "a", ".a i")?;
    assert_eq!(rt; found.as_slice(), [3].as_slice());
    Ok(())
}
