//! What any host knows of a session, whichever edits it makes: by the contracts of `Session` and the laws alone.

ghost use Rattle.std.specs.Prelude.{◌≡◌, ◌≤◌, ℕ, IfOk, false, filter, length};
ghost use Rattle.base_model.specs.Limits.{element_limit, sheet_limit};
ghost use Rattle.scene_model.specs.Lookups.{IsElement};
ghost use Rattle.scene_model.specs.Scene.{elements_of};
ghost use Rattle.dom_edits.specs.EditView.{edit_seen};
ghost use Rattle.session_model.specs.Standing.{edited, is_open, started};
ghost use Rattle.session_model.specs.StandingInvariant.{IsReached};
ghost use Rattle.session_model.specs.Walk.{results};
ghost use Rattle.style_session.specs.Laws.{KeepsStyle};
ghost use Rattle.style_session.specs.SessionView.{scene_from};

use dom_edits::Edit;
use dom_tree::NodeList;
use io_edges::OpenGate;
use sheet_set::SheetInput;
use std::alloc::Global;
use std::thread::Threads;
use style_session::laws::{not_open_style, report_counts};
use style_session::{Counts, Session};
use stylo_base::EditRefused;

/// Edits a session twice and restyles it. Whatever is answered, an element that is not open keeps the style that it
/// has; and the counts are those of what the walk of the restyle hands on.
pub fn edit_twice<R: Threads + Sync>(
    rt: &R,
    alloc: Global,
    session: &mut Session,
    first: &Edit,
    second: &Edit,
) -> Result<Counts, EditRefused>
    requires { IsReached session.old }
    ensures kept { (x : ℕ) → IsElement (elements_of session.new.scene) x → is_open session.new x ≡ false
        → KeepsStyle session.new x }
    ensures cascaded { IfOk result (λ counts. counts.cascaded
        ≡ length (results (edited (edited session.old (edit_seen first.now)) (edit_seen second.now)))) }
    ensures matched { IfOk result (λ counts. counts.matched ≡ length (filter (λ one. one.matched)
        (results (edited (edited session.old (edit_seen first.now)) (edit_seen second.now))))) }
{
    not_open_style();
    report_counts();
    session.edit(alloc, first)?;
    session.edit(alloc, second)?;
    Ok(session.restyle(rt, alloc, &OpenGate)?)
}

/// The same of a session that starts with these nodes and sheets.
pub fn start_and_edit_twice<R: Threads + Sync>(
    rt: &R,
    alloc: Global,
    nodes: &NodeList,
    sheets: &[SheetInput],
    first: &Edit,
    second: &Edit,
) -> Result<Counts, EditRefused>
    requires nodes { length nodes.now ≤ element_limit }
    requires sheets { length sheets.now ≤ sheet_limit }
    ensures { IfOk result (λ counts. counts.cascaded ≡ length (results
        (edited (edited (started (scene_from nodes.now sheets.now)) (edit_seen first.now)) (edit_seen second.now)))) }
{
    let mut session = Session::start(alloc, nodes, sheets, 1, 32)?;
    let told = edit_twice(rt, alloc, &mut session, first, second);
    drop(session);
    told
}
