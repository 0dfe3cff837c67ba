//! The caller of docs/CALLING.md that keeps a session, and what its calls are answered.

use crate::counting::CountingGate;
use dom_edits::{DocEdit, Edit};
use dom_tree::{NodeInput, NodeList, States};
use io_edges::OpenGate;
use layer_order::Origin;
use property_table::{PropId, Value};
use sheet_set::SheetInput;
use std::alloc::Global;
use std::test::Fail;
use std::thread::Threads;
use style_session::{Session, StyleAnswer};
use stylo_base::{EditRefused, Fixed, NoMemory, Text};

/// A node with a tag alone.
fn node(tag: &str) -> NodeInput<'_> {
    NodeInput {
        tag,
        attrs: &[],
        states: States::default(),
    }
}

/// An author sheet.
fn sheet_input(alloc: Global, text: &str) -> Result<SheetInput, NoMemory> {
    let text = Text::of_str(alloc, text)?;
    Ok(SheetInput {
        origin: Origin::Author,
        enabled: true,
        text,
    })
}

/// A session over the document `html` over `p`, and one author sheet.
fn start(alloc: Global, sheet: &str) -> Result<Session, NoMemory> {
    let mut nodes = NodeList::of_root(alloc, node("html"))?;
    nodes.push(0, node("p"))?;
    Session::start(alloc, &nodes, &[sheet_input(alloc, sheet)?], 1, 32)
}

/// The edit that gives an element a class.
fn class_edit(alloc: Global, node: u64, class: &str) -> Result<Edit, NoMemory> {
    let name = Text::of_str(alloc, "class")?;
    let value = Text::of_str(alloc, class)?;
    Ok(Edit::Document(DocEdit::Set { node, name, value }))
}

/// Gives an element a class.
fn set_class(
    alloc: Global,
    session: &mut Session,
    node: u64,
    class: &str,
) -> Result<(), EditRefused> {
    let edit = class_edit(alloc, node, class)?;
    session.edit(alloc, &edit)
}

/// The computed `width` of an element after all edits. None: there is no such element.
fn width<R: Threads + Sync>(
    rt: &R,
    alloc: Global,
    session: &mut Session,
    number: u32,
) -> Result<Option<Value>, NoMemory> {
    session.restyle(rt, alloc, &OpenGate)?;
    match session.style(number) {
        StyleAnswer::Kept(style) => Ok(Some(style.value(PropId::Width))),
        StyleAnswer::Stale | StyleAnswer::NoNode => Ok(None),
    }
}

/// The width of the element 2, and what it is once the element has a class.
fn widths<R: Threads + Sync>(
    rt: &R,
    alloc: Global,
    session: &mut Session,
) -> Result<(Option<Value>, Option<Value>), EditRefused> {
    let before = width(rt, alloc, session, 2)?;
    set_class(alloc, session, 2, "wide")?;
    Ok((before, width(rt, alloc, session, 2)?))
}

/// This width.
fn pixels(thousandths: i128) -> Option<Value> {
    Some(Value::Pixels(Fixed::clamp(thousandths)))
}

/// What a restyle counts, and how often its gate is passed.
fn counted<R: Threads + Sync>(
    rt: &R,
    alloc: Global,
    session: &mut Session,
) -> Result<(u64, u64, u64), NoMemory> {
    let gate = CountingGate::new();
    let counts = session.restyle(rt, alloc, &gate)?;
    Ok((counts.matched, counts.cascaded, gate.passes()))
}

/// The same, where what finds no memory is done once more.
fn counted_again<R: Threads + Sync>(
    rt: &R,
    alloc: Global,
    session: &mut Session,
) -> Result<(u64, u64, u64), NoMemory> {
    match counted(rt, alloc, session) {
        Err(NoMemory) => counted(rt, alloc, session),
        answer => answer,
    }
}

/// Whether the element 2 is told as stale, and 3 as none.
fn are_stale_and_none(session: &Session) -> bool {
    matches!(session.style(2), StyleAnswer::Stale)
        && matches!(session.style(3), StyleAnswer::NoNode)
}

/// The number that the refusal of an edit tells, where no element has it. Accepted: 0.
fn number_of(answer: Result<(), EditRefused>) -> Result<u64, EditRefused> {
    match answer {
        Ok(()) => Ok(0),
        Err(EditRefused::UnknownNode(number)) => Ok(number),
        Err(why) => Err(why),
    }
}

/// Whether the elements are told so before the first restyle, what is answered to the edit of an element that is not
/// there, and what that restyle counts.
type Answers = (bool, u64, (u64, u64, u64));

/// These answers of a session.
fn answers<R: Threads + Sync>(
    rt: &R,
    alloc: Global,
    session: &mut Session,
) -> Result<Answers, EditRefused> {
    let told = are_stale_and_none(session);
    let unknown = number_of(set_class(alloc, session, 3, "wide"))?;
    Ok((told, unknown, counted_again(rt, alloc, session)?))
}

/// What is answered, and then the widths.
type AnswersAndWidths = (Answers, (Option<Value>, Option<Value>));

/// These of a session.
fn answers_and_widths<R: Threads + Sync>(
    rt: &R,
    alloc: Global,
    session: &mut Session,
) -> Result<AnswersAndWidths, EditRefused> {
    let answers = answers(rt, alloc, session)?;
    Ok((answers, widths(rt, alloc, session)?))
}

/// The same of a session with a width for each class. No other function owns a session: what is let go at its end is
/// dear to prove.
fn all<R: Threads + Sync>(rt: &R, alloc: Global) -> Result<AnswersAndWidths, EditRefused> {
    let mut session = start(alloc, "p { width: 10px } .wide { width: 20px }")?;
    let told = answers_and_widths(rt, alloc, &mut session);
    drop(session);
    told
}

/// `rt try --test --fail-alloc N` has one allocation fail: a restyle that is tried again then is right. In
/// `checks/c_tests/no_memory.c` each allocation of each call fails in turn.
#[test]
fn one_of_each_kind(rt: HostRuntime) -> Result<(), Fail> {
    let (answers, widths) = all(&rt, rt.alloc())?;
    assert_eq!(rt; answers, (true, 3, (2, 2, 2)));
    assert_eq!(rt; widths, (pixels(10_000), pixels(20_000)));
    Ok(())
}
