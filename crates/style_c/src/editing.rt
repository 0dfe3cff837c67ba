//! Edits of a session.

ghost use Rattle.std.specs.Prelude.{◌≡◌, ◌<◌, [], ℕ, IfOk, List, None, Some, MatchOption, false, nat_lt, true};
ghost use Rattle.std.specs.Str.{chars};
ghost use Rattle.dom_edits.specs.declared.edits.DocEdit.TheVariants as doc;
ghost use Rattle.dom_edits.specs.declared.edits.Edit as edits;
ghost use Rattle.dom_edits.specs.declared.edits.Edit.TheVariants.{Document};
ghost use Rattle.style_c.specs.Told.{Gives, applied_told, edit_told, is_named, is_text, set_told, state_numbered, state_told, unset_told};

use crate::handle::{Handle, put, take};
use crate::told::{BAD_ARGUMENT, DONE, NO_MEMORY, NO_SESSION, REFUSED, Why, tell, tell_fault};
use dom_edits::{DocEdit, Edit};
use job_json::{JobFault, is_name, read_edit};
use std::alloc::Global;
use style_session::Session;
use stylo_base::limits::INPUT_LIMIT;
use stylo_base::{EditRefused, Kind, NoMemory, State, Text};

/// Makes one edit, as a batch of a job has it.
#[unsafe(no_mangle)]
pub extern "C" fn bokdrez_edit(
    alloc: Global,
    session: &mut Handle,
    json: &[u8],
    why: &mut Why,
    path: &mut [u8],
    needed: &mut u64,
) -> u32
    ensures { Gives (edit_told json.now session.old.session) session.old.session result why.new path.new needed.new
        session.new.session }
{
    *needed = 0;
    let Some(mut held) = take(alloc, session) else {
        return tell(NO_SESSION, why);
    };
    let status = edit_by_json(alloc, &mut held, json, why, path, needed);
    put(alloc, session, held);
    status
}

/// Gives an attribute of an element a value.
#[unsafe(no_mangle)]
pub extern "C" fn bokdrez_set(
    alloc: Global,
    session: &mut Handle,
    node: u64,
    name: &[u8],
    value: &[u8],
    why: &mut Why,
) -> u32
    ensures { Gives (set_told node name.now value.now session.old.session) session.old.session result why.new [] 0
        session.new.session }
{
    let Some(mut held) = take(alloc, session) else {
        return tell(NO_SESSION, why);
    };
    let status = set(alloc, &mut held, node, name, value, why);
    put(alloc, session, held);
    status
}

/// Takes an attribute of an element away.
#[unsafe(no_mangle)]
pub extern "C" fn bokdrez_unset(
    alloc: Global,
    session: &mut Handle,
    node: u64,
    name: &[u8],
    why: &mut Why,
) -> u32
    ensures { Gives (unset_told node name.now session.old.session) session.old.session result why.new [] 0
        session.new.session }
{
    let Some(mut held) = take(alloc, session) else {
        return tell(NO_SESSION, why);
    };
    let status = unset(alloc, &mut held, node, name, why);
    put(alloc, session, held);
    status
}

/// Puts an element into a state, or takes it out of it: 0 is `:hover`, 1 `:active`, 2 `:focus`.
#[unsafe(no_mangle)]
pub extern "C" fn bokdrez_state(
    alloc: Global,
    session: &mut Handle,
    node: u64,
    which: u32,
    on: u32,
    why: &mut Why,
) -> u32
    ensures { Gives (state_told node which on session.old.session) session.old.session result why.new [] 0
        session.new.session }
{
    let Some(mut held) = take(alloc, session) else {
        return tell(NO_SESSION, why);
    };
    let status = put_state(alloc, &mut held, node, which, on, why);
    put(alloc, session, held);
    status
}

/// Makes the edit that the bytes say.
fn edit_by_json(
    alloc: Global,
    session: &mut Session,
    json: &[u8],
    why: &mut Why,
    path: &mut [u8],
    needed: &mut u64,
) -> u32
    requires { needed.old ≡ 0 }
    ensures { Gives (edit_told json.now (Some session.old)) (Some session.old) result why.new path.new needed.new
        (Some session.new) }
{
    if json.len() > INPUT_LIMIT {
        let fault = JobFault::Limit(Kind::Input, INPUT_LIMIT as u64);
        return tell_fault(&fault, why, path, needed);
    }
    match read_edit(alloc, json) {
        Ok(edit) => apply(alloc, session, &edit, why),
        Err(fault) => tell_fault(&fault, why, path, needed),
    }
}

/// Gives an attribute a value, where the name and the value are texts that it takes.
fn set(
    alloc: Global,
    session: &mut Session,
    node: u64,
    name: &[u8],
    value: &[u8],
    why: &mut Why,
) -> u32
    ensures { Gives (set_told node name.now value.now (Some session.old)) (Some session.old) result why.new [] 0
        (Some session.new) }
{
    let Some(name) = name_in(name) else {
        return tell(BAD_ARGUMENT, why);
    };
    let Some(value) = text_in(value) else {
        return tell(BAD_ARGUMENT, why);
    };
    match set_edit(alloc, node, name, value) {
        Ok(edit) => apply(alloc, session, &edit, why),
        Err(NoMemory) => tell(NO_MEMORY, why),
    }
}

/// Takes an attribute away, where the name is one.
fn unset(alloc: Global, session: &mut Session, node: u64, name: &[u8], why: &mut Why) -> u32
    ensures { Gives (unset_told node name.now (Some session.old)) (Some session.old) result why.new [] 0
        (Some session.new) }
{
    let Some(name) = name_in(name) else {
        return tell(BAD_ARGUMENT, why);
    };
    match Text::of_str(alloc, name) {
        Ok(name) => apply(
            alloc,
            session,
            &Edit::Document(DocEdit::Unset { node, name }),
            why,
        ),
        Err(NoMemory) => tell(NO_MEMORY, why),
    }
}

/// Puts an element into the state of a number, or takes it out of it, where there is such a state.
fn put_state(
    alloc: Global,
    session: &mut Session,
    node: u64,
    which: u32,
    on: u32,
    why: &mut Why,
) -> u32
    ensures { Gives (state_told node which on (Some session.old)) (Some session.old) result why.new [] 0
        (Some session.new) }
{
    if which > 2 || on > 1 {
        return tell(BAD_ARGUMENT, why);
    }
    let edit = DocEdit::State {
        node,
        state: state_numbered(which),
        on: on > 0,
    };
    apply(alloc, session, &Edit::Document(edit), why)
}

/// Makes an edit, and tells its refusal.
fn apply(alloc: Global, session: &mut Session, edit: &Edit, why: &mut Why) -> u32
    ensures { (buffer : List ℕ) → Gives (applied_told session.old edit.now) (Some session.old) result why.new buffer 0
        (Some session.new) }
{
    match session.edit(alloc, edit) {
        Ok(()) => tell(DONE, why),
        Err(EditRefused::NoMemory) => tell(NO_MEMORY, why),
        Err(refusal) => {
            *why = Why::refused(refusal);
            REFUSED
        }
    }
}

/// The edit that gives an attribute a value.
fn set_edit(alloc: Global, node: u64, name: &str, value: &str) -> Result<Edit, NoMemory>
    ensures { IfOk result (λ edit. edit ≡ Document (doc.Set node (chars name.now) (chars value.now))) }
{
    Ok(Edit::Document(DocEdit::Set {
        node,
        name: Text::of_str(alloc, name)?,
        value: Text::of_str(alloc, value)?,
    }))
}

/// The text that the bytes are, where they are within the limit of an input and UTF-8. A longer one is not read.
fn text_in(bytes: &[u8]) -> Option<&str>
    ensures { MatchOption result (is_text bytes.now ≡ false)
        (λ text. (is_text bytes.now ≡ true) × (text.now ≡ bytes.now)) }
{
    if bytes.len() > INPUT_LIMIT {
        return None;
    }
    match str::from_utf8(bytes) {
        Ok(text) => Some(text),
        Err(_) => None,
    }
}

/// The same, where it is a name.
fn name_in(bytes: &[u8]) -> Option<&str>
    ensures { MatchOption result (is_named bytes.now ≡ false)
        (λ text. (is_named bytes.now ≡ true) × (text.now ≡ bytes.now)) }
{
    let text = text_in(bytes)?;
    if is_name(text) { Some(text) } else { None }
}

/// The state of a number.
fn state_numbered(which: u32) -> State
    ensures { result ≡ state_numbered which }
{
    match which {
        0 => State::Hover,
        1 => State::Active,
        _ => State::Focus,
    }
}
