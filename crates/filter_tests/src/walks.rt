//! Walks over documents by chance: the filter of each element that is reached has the counters of a new one.

ghost use Rattle.std.specs.Prelude.{◌<◌};
ghost use Rattle.ancestor_filter.specs.Paths.{IsRight};

use crate::documents::{document, push_node, root};
use ancestor_filter::{Ancestors, Filter};
use dom_edits::{DocEdit, apply};
use dom_tree::Doc;
use std::alloc::Global;
use std::test::Fail;
use stylo_base::{NoMemory, Text};

/// So many documents are drawn.
const DOCUMENTS: u32 = 300;

/// What numbers are drawn from.
#[derive(Clone, Copy)]
struct Draws {
    state: u64,
}

impl Draws {
    /// A number from 0 to `most`.
    fn up_to(&mut self, most: u32) -> u32
        requires { most < 256 }
    {
        self.state = self
            .state
            .wrapping_mul(6_364_136_223_846_793_005)
            .wrapping_add(1_442_695_040_888_963_407);
        (self.state >> 33) as u32 % (most + 1)
    }
}

/// A tag.
fn tag(number: u32) -> &'static str {
    match number {
        0 => "p",
        1 => "i",
        _ => "aaa",
    }
}

/// An id, which may be empty.
fn id(number: u32) -> &'static str {
    match number {
        3 => "",
        _ => tag(number),
    }
}

/// A few classes, or none.
fn classes(number: u32) -> &'static str {
    match number {
        0 => "",
        1 => "p",
        2 => "eie aaa",
        3 => "a p\ta  i",
        _ => "a b c d e f g h i j k l m n o p q r s",
    }
}

/// A document of up to 60 elements, each below one of the last four before it.
fn drawn(alloc: Global, draws: &mut Draws) -> Result<Box<Doc>, NoMemory> {
    let mut list = root(alloc)?;
    for last in 0..draws.up_to(59) {
        let parent = last.saturating_sub(draws.up_to(3));
        let (tag, id) = (tag(draws.up_to(2)), id(draws.up_to(3)));
        push_node(&mut list, parent, tag, id, classes(draws.up_to(4)))?;
    }
    document(alloc, list)
}

/// The edit that gives an element other classes, or that moves it, or takes it out.
fn drawn_edit(alloc: Global, draws: &mut Draws) -> Result<DocEdit, NoMemory> {
    let node = u64::from(draws.up_to(20));
    match draws.up_to(2) {
        0 => {
            let name = Text::of_str(alloc, "class")?;
            let value = Text::of_str(alloc, classes(draws.up_to(4)))?;
            Ok(DocEdit::Set { node, name, value })
        }
        1 => Ok(DocEdit::Move {
            node,
            parent: u64::from(draws.up_to(20)),
            index: 0,
        }),
        _ => Ok(DocEdit::Remove { node }),
    }
}

/// Edits a document. One that is refused leaves it as it is.
fn edit(alloc: Global, doc: &mut Doc, draws: &mut Draws) -> Result<(), NoMemory> {
    let edit = drawn_edit(alloc, draws)?;
    drop(apply(alloc, doc, &edit));
    Ok(())
}

/// Some elements of a document, in any order.
fn drawn_elements(alloc: Global, doc: &Doc, draws: &mut Draws) -> Result<Vec<u32>, NoMemory> {
    let mut list = Vec::new(alloc);
    for _ in 0..20 {
        if let Some(x) = doc.in_tree_order().get(draws.up_to(59) as usize) {
            list.push(*x)?;
        }
    }
    Ok(list)
}

/// Adds the parent of an element, which is the answer. Of any other number nothing is added, and the answer is 0.
fn push_parent(filter: &mut Filter, doc: &Doc, x: u32) -> u32 {
    if !doc.contains(x) {
        return 0;
    }
    match doc.parent(x) {
        Some(p) if doc.contains(p) => {
            filter.push(doc, p);
            p
        }
        _ => 0,
    }
}

/// A new filter with the ancestors of an element.
fn of_ancestors(alloc: Global, doc: &Doc, x: u32) -> Result<Filter, NoMemory> {
    let mut filter = Filter::start(alloc)?;
    let mut at = x;
    for _ in 0..256 {
        at = push_parent(&mut filter, doc, at);
    }
    Ok(filter)
}

/// Whether two filters have the same counters.
fn are_alike(one: &Filter, other: &Filter) -> bool {
    for slot in 0..4_096 {
        if one.counter(slot) != other.counter(slot) {
            return false;
        }
    }
    true
}

/// Reaches an element. Whether the filter is then as a new one.
fn is_reached(alloc: Global, doc: &Doc, ancestors: &mut Ancestors, x: u32) -> Result<bool, NoMemory>
    requires { IsRight doc.now.elements ancestors.old }
    ensures { IsRight doc.now.elements ancestors.new }
{
    if !doc.contains(x) {
        return Ok(false);
    }
    ancestors.reach(doc, x)?;
    let other = of_ancestors(alloc, doc, x)?;
    Ok(are_alike(ancestors.filter(), &other))
}

/// One more, where that is so.
fn count_if(count: u32, is: bool) -> u32 {
    if is { count.saturating_add(1) } else { count }
}

/// Reaches elements one after another. The answer is at how many the filter is not as a new one.
fn count_unlike(
    alloc: Global,
    doc: &Doc,
    ancestors: &mut Ancestors,
    elements: &[u32],
) -> Result<u32, NoMemory>
    requires { IsRight doc.now.elements ancestors.old }
    ensures { IsRight doc.now.elements ancestors.new }
{
    let mut unlike = 0;
    for x in elements {
        let alike = is_reached(alloc, doc, ancestors, *x)?;
        unlike = count_if(unlike, !alike);
    }
    Ok(unlike)
}

/// Reaches all elements in tree order, and then some in any order. The answer is at how many the filter is not as a new
/// one.
fn walk(
    alloc: Global,
    doc: &Doc,
    ancestors: &mut Ancestors,
    draws: &mut Draws,
) -> Result<u32, NoMemory> {
    let drawn = drawn_elements(alloc, doc, draws)?;
    ancestors.clear();
    let in_order = count_unlike(alloc, doc, ancestors, doc.in_tree_order())?;
    let in_any_order = count_unlike(alloc, doc, ancestors, &drawn)?;
    Ok(in_order.saturating_add(in_any_order))
}

/// The same over a document that is drawn, and again once it is edited.
fn walk_twice(
    alloc: Global,
    ancestors: &mut Ancestors,
    draws: &mut Draws,
) -> Result<u32, NoMemory> {
    let mut doc = drawn(alloc, draws)?;
    let before = walk(alloc, &doc, ancestors, draws)?;
    edit(alloc, &mut doc, draws)?;
    let after = walk(alloc, &doc, ancestors, draws)?;
    Ok(before.saturating_add(after))
}

/// The same over many documents.
fn walk_all(alloc: Global) -> Result<u32, NoMemory> {
    let mut draws = Draws { state: 1 };
    let mut ancestors = Ancestors::start(alloc)?;
    let mut unlike: u32 = 0;
    for _ in 0..DOCUMENTS {
        unlike = unlike.saturating_add(walk_twice(alloc, &mut ancestors, &mut draws)?);
    }
    Ok(unlike)
}

#[test]
fn filters_are_as_new_ones(rt: HostRuntime) -> Result<(), Fail> {
    let unlike = walk_all(rt.alloc())?;
    assert_eq!(rt; unlike, 0);
    Ok(())
}
