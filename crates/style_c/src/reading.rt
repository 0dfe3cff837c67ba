//! Reading styles.

ghost use Rattle.std.specs.Prelude.{◌≡◌, IfOk, Option, Some, length};
ghost use Rattle.session_model.specs.Standing.{Standing};
ghost use Rattle.style_c.specs.Told.{AreChanged, Gives, IsTextOf, IsTold, bytes_told, no_why, style_told, text_told};

use crate::handle::{Handle, put, take};
use crate::told::{DONE, NO_MEMORY, NO_NODE, NO_ROOM, NO_SESSION, STALE, copy_out};
use report_text::{element_line, push_element_line};
use std::alloc::Global;
use style_session::{Session, StyleAnswer};
use stylo_base::{NoMemory, Text};

/// Copies the line of an element.
#[unsafe(no_mangle)]
pub extern "C" fn bokdrez_style(
    alloc: Global,
    session: &mut Handle,
    node: u64,
    buffer: &mut [u8],
    needed: &mut u64,
) -> u32
    ensures { Gives (style_told node (length buffer.old) session.old.session) session.old.session result no_why
        buffer.new needed.new session.new.session }
{
    *needed = 0;
    let Some(held) = take(alloc, session) else {
        return NO_SESSION;
    };
    let status = style_out(alloc, &held, node, buffer, needed);
    put(alloc, session, held);
    status
}

/// Copies the lines of all elements, in tree order.
#[unsafe(no_mangle)]
pub extern "C" fn bokdrez_text(
    alloc: Global,
    session: &mut Handle,
    buffer: &mut [u8],
    needed: &mut u64,
) -> u32
    ensures { Gives (text_told (length buffer.old) session.old.session) session.old.session result no_why
        buffer.new needed.new session.new.session }
{
    *needed = 0;
    let Some(held) = take(alloc, session) else {
        return NO_SESSION;
    };
    let status = text_out(alloc, &held, buffer, needed);
    put(alloc, session, held);
    status
}

/// Copies the numbers of the elements that the last restyle cascaded, in tree order as it was then. One that was
/// removed since stays on the list.
#[unsafe(no_mangle)]
pub extern "C" fn bokdrez_changed(
    alloc: Global,
    session: &mut Handle,
    numbers: &mut [u32],
    needed: &mut u64,
) -> u32
    ensures changed { AreChanged session.old.session result (length numbers.old) numbers.new needed.new }
    ensures kept { session.new.session ≡ session.old.session }
{
    *needed = 0;
    let Some(held) = take(alloc, session) else {
        return NO_SESSION;
    };
    let status = changed_out(&held, numbers, needed);
    put(alloc, session, held);
    status
}

/// Copies the line of an element that has a style.
fn style_out(
    alloc: Global,
    session: &Session,
    node: u64,
    buffer: &mut [u8],
    needed: &mut u64,
) -> u32
    requires { needed.old ≡ 0 }
    ensures { Gives (style_told node (length buffer.old) (Some session.now)) (Some session.now) result no_why buffer.new
        needed.new (Some session.now) }
{
    let doc = session.doc();
    if node > doc.last() as u64 {
        return NO_NODE;
    }
    let number = node as u32;
    let style = match session.style(number) {
        StyleAnswer::Kept(style) => style,
        StyleAnswer::Stale => return STALE,
        StyleAnswer::NoNode => return NO_NODE,
    };
    match element_line(alloc, number, doc.tag(number), style) {
        Ok(line) => bytes_out(line.as_str().as_bytes(), buffer, needed),
        Err(NoMemory) => NO_MEMORY,
    }
}

/// Copies the lines of all elements, where all have a style.
fn text_out(alloc: Global, session: &Session, buffer: &mut [u8], needed: &mut u64) -> u32
    requires { needed.old ≡ 0 }
    ensures { Gives (text_told (length buffer.old) (Some session.now)) (Some session.now) result no_why buffer.new
        needed.new (Some session.now) }
{
    match text_of(alloc, session) {
        Ok(Some(text)) => bytes_out(text.as_str().as_bytes(), buffer, needed),
        Ok(None) => STALE,
        Err(NoMemory) => NO_MEMORY,
    }
}

/// The lines of all elements, where none is stale.
fn text_of(alloc: Global, session: &Session) -> Result<Option<Text>, NoMemory>
    ensures { IfOk result (λ text. IsTextOf session.now text) }
{
    let mut text = Text::new(alloc);
    for number in session.doc().in_tree_order() {
        let StyleAnswer::Kept(style) = session.style(*number) else {
            return Ok(None);
        };
        push_element_line(&mut text, *number, session.doc().tag(*number), style)?;
    }
    Ok(Some(text))
}

/// Copies the numbers that the last restyle cascaded.
fn changed_out(session: &Session, numbers: &mut [u32], needed: &mut u64) -> u32
    ensures { AreChanged (Some session.now) result (length numbers.old) numbers.new needed.new }
{
    let changed = session.cascaded();
    *needed = changed.len() as u64;
    if changed.len() > numbers.len() {
        return NO_ROOM;
    }
    numbers[..changed.len()].copy_from_slice(changed);
    DONE
}

/// Copies bytes, where they fit.
fn bytes_out(bytes: &[u8], buffer: &mut [u8], needed: &mut u64) -> u32
    ensures { (session : Option Standing)
        → IsTold (bytes_told bytes.now (length buffer.old) session) result no_why buffer.new needed.new session }
{
    if copy_out(bytes, buffer, needed) {
        DONE
    } else {
        NO_ROOM
    }
}
