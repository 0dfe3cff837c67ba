//! Edits that are planned and then made, beside the same edits made at once.

use dom_edits::{DocEdit, NewNodes, Touch, Touched, apply, commit, plan, refusal};
use dom_tree::{Doc, NodeInput, NodeList, States};
use std::alloc::Global;
use std::test::Fail;
use stylo_base::{EditRefused, NoMemory, State, Text};

/// So many edits are drawn.
const EDITS: u32 = 600;

/// A node with a tag alone.
fn node(tag: &str) -> NodeInput<'_> {
    NodeInput {
        tag,
        attrs: &[],
        states: States::default(),
    }
}

/// The nodes `p` over `i` and `b`.
fn nodes(alloc: Global) -> Result<NodeList, NoMemory> {
    let mut list = NodeList::of_root(alloc, node("p"))?;
    list.push(0, node("i"))?;
    list.push(0, node("b"))?;
    Ok(list)
}

/// What numbers are drawn from.
#[derive(Clone, Copy)]
struct Draws {
    state: u64,
}

impl Draws {
    /// A number from 0 to `most`, as long as that is no more than 255.
    fn up_to(&mut self, most: u8) -> u64 {
        self.state = self
            .state
            .wrapping_mul(6_364_136_223_846_793_005)
            .wrapping_add(1_442_695_040_888_963_407);
        (self.state >> 33) % (u64::from(most) + 1)
    }

    /// The number of the root, or one of the last: that an element has, had, or has not yet.
    fn number(&mut self, doc: &Doc) -> u64 {
        if self.up_to(3) == 0 {
            return 1;
        }
        let back = self.up_to(12);
        (doc.last() as u64 + 1).saturating_sub(back)
    }
}

/// A few classes, or none.
fn classes(alloc: Global, number: u64) -> Result<Text, NoMemory> {
    let text = match number {
        0 => "",
        1 => "a",
        2 => "b a",
        3 => "a longer-than-seven b",
        _ => "a b c d e f g h i j k l m n o p q r s",
    };
    Text::of_str(alloc, text)
}

/// An edit of a document, or one that it refuses.
fn drawn(alloc: Global, doc: &Doc, draws: &mut Draws) -> Result<DocEdit, NoMemory> {
    let node = draws.number(doc);
    let index = draws.up_to(2);
    let name = Text::of_str(alloc, if index == 0 { "id" } else { "class" })?;
    match draws.up_to(7) {
        0 | 1 => Ok(DocEdit::Insert {
            parent: node,
            index,
            nodes: NewNodes::of(alloc, nodes(alloc)?)?,
        }),
        2 => Ok(DocEdit::Remove { node }),
        3 | 4 => Ok(DocEdit::Move {
            node,
            parent: draws.number(doc),
            index,
        }),
        5 => Ok(DocEdit::Unset { node, name }),
        6 => Ok(DocEdit::State {
            node,
            state: State::Focus,
            on: index == 0,
        }),
        _ => {
            let value = classes(alloc, draws.up_to(4))?;
            Ok(DocEdit::Set { node, name, value })
        }
    }
}

/// Whether a document is as a plan told that it would be: its last number, and that an element is gone.
fn is_as_told(doc: &Doc, last: u32, taken: Option<u32>) -> bool {
    let gone = match taken {
        Some(x) => !doc.contains(x),
        None => true,
    };
    gone && doc.last() == last as usize
}

/// Whether what was touched is as a plan told: whether lists of children changed, and which element was moved.
fn is_touched_as_told(touched: &Touched, lists: bool, moved: Option<u32>) -> bool {
    let there = match moved {
        Some(x) => touched.at(&Touch::Positional).contains(&x),
        None => true,
    };
    there && lists != touched.at(&Touch::Empty).is_empty()
}

/// Plans an edit and makes it. The answer is what it touched, and whether all was as the plan told.
fn in_two_steps(
    alloc: Global,
    doc: &mut Doc,
    edit: &DocEdit,
) -> Result<(Touched, bool), EditRefused> {
    let planned = plan(doc, edit)?;
    let (last, lists) = (planned.last(), planned.changes_lists());
    let (taken, moved) = (planned.taken(), planned.moved());
    let touched = commit(alloc, doc, planned)?;
    let told = is_as_told(doc, last, taken) && is_touched_as_told(&touched, lists, moved);
    Ok((touched, told))
}

/// Whether two edits touched the same.
fn are_touched_alike(one: &Touched, other: &Touched) -> bool {
    let (touches, elements) = one.parts();
    for touch in touches {
        if other.at(touch) != elements {
            return false;
        }
    }
    one.at(&Touch::Empty) == other.at(&Touch::Empty)
        && one.at(&Touch::Positional) == other.at(&Touch::Positional)
        && other.parts().0.len() == touches.len()
}

/// Makes an edit of two documents, of the one in two steps and of the other at once. Whether all is alike, also why it
/// is refused.
fn are_alike(
    alloc: Global,
    one: &mut Doc,
    other: &mut Doc,
    edit: &DocEdit,
) -> Result<bool, NoMemory> {
    let why = refusal(one, edit);
    let first = in_two_steps(alloc, one, edit);
    let second = apply(alloc, other, edit);
    if one.in_tree_order() != other.in_tree_order() || one.last() != other.last() {
        return Ok(false);
    }
    match (first, second) {
        (Ok((touched, told)), Ok(at_once)) => {
            Ok(why.is_none() && told && are_touched_alike(&touched, &at_once))
        }
        (Err(first), Err(second)) => Ok(first == second && why == Some(first)),
        _ => Ok(false),
    }
}

/// One more, where that is so.
fn count_if(count: u32, is: bool) -> u32 {
    if is { count.saturating_add(1) } else { count }
}

/// How many edits were not alike, and how many of all were refused.
fn counted(alloc: Global, one: &mut Doc, other: &mut Doc) -> Result<(u32, u32), NoMemory> {
    let mut draws = Draws { state: 1 };
    let mut unlike: u32 = 0;
    let mut refused: u32 = 0;
    for _ in 0..EDITS {
        let edit = drawn(alloc, one, &mut draws)?;
        refused = count_if(refused, refusal(one, &edit).is_some());
        let alike = are_alike(alloc, one, other, &edit)?;
        unlike = count_if(unlike, !alike);
    }
    Ok((unlike, refused))
}

/// The document of a root alone.
fn document(alloc: Global) -> Result<Doc, NoMemory> {
    let list = NodeList::of_root(alloc, node("html"))?;
    Doc::of_list(alloc, list)
}

/// The same, of two documents that begin alike.
fn all(alloc: Global) -> Result<(u32, u32), NoMemory> {
    let mut one = Box::new(alloc, document(alloc)?)?;
    let mut other = Box::new(alloc, one.copy(alloc)?)?;
    counted(alloc, &mut one, &mut other)
}

#[test]
fn in_two_steps_or_at_once(rt: HostRuntime) -> Result<(), Fail> {
    let (unlike, refused) = all(rt.alloc())?;
    assert_eq!(rt; unlike, 0);
    assert!(rt; 50 < refused && refused < EDITS - 50);
    Ok(())
}
