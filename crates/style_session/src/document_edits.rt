//! Edits of the document of a session.

ghost use Rattle.std.specs.Prelude.{◌≡◌, IfErr, OnErr, OnOk, option_map, unwrap_or};
ghost use Rattle.stylo_base.specs.declared.refusal.EditRefused.TheVariants.{NoMemory as out_of_memory};
ghost use Rattle.edit_model.specs.Apply.{refusal as model_refusal};
ghost use Rattle.edit_model.specs.Edit.{IsShaped};
ghost use Rattle.dom_edits.specs.EditView.{doc_edit_seen, refusal_answered};
ghost use Rattle.dom_edits.specs.PlannedView.{Fits, Tells, planned_seen};
ghost use Rattle.invalidation_map.specs.RowView.{rows_in};
ghost use Rattle.sheet_set.specs.View.{sources_seen};
ghost use Rattle.style_session.specs.Edits.{EditsDocument, IsUnedited, IsUnmade, MakesEdit};
ghost use Rattle.style_session.specs.Sessions.{AreReady};

use crate::content::Content;
use crate::derived::Derived;
use crate::pending::Pending;
use dom_edits::{DocEdit, Planned, commit, plan};
use dom_tree::Doc;
use invalidation_map::InvalidationMap;
use std::alloc::Global;
use stylo_base::{EditRefused, NoMemory};

/// Edits the document. Adds what the edit marks, what it makes fresh, and the numbers of what it takes out. What
/// marks elements is made at the first edit, since the sheets are as they are, that nothing refuses. An error is the
/// first refusal, and where there is none, that memory ran out; after it all is as it was.
pub(crate) fn edit_document(
    alloc: Global,
    content: &mut Content,
    pending: &mut Pending,
    derived: &mut Derived,
    edit: &DocEdit,
) -> Result<(), EditRefused>
    requires { AreReady (sources_seen content.old.sheets) derived.old }
    ensures ok { OnOk result
        (EditsDocument content.old (doc_edit_seen edit.now) content.new pending.old pending.new) }
    ensures shaped { IsShaped (doc_edit_seen edit.now) }
    ensures refused { IfErr result (λ why. why ≡ unwrap_or (option_map refusal_answered
        (model_refusal content.old.doc (doc_edit_seen edit.now))) out_of_memory) }
    ensures kept { OnErr result (IsUnedited content.old content.new pending.old pending.new) }
    ensures ready { AreReady (sources_seen content.new.sheets) derived.new }
{
    let planned = plan(&content.doc, edit)?;
    derived.make_map(alloc, &content.sheets)?;
    let map = derived.map.as_ref().unwrap();
    make(alloc, &mut content.doc, pending, map, planned)?;
    Ok(())
}

/// Makes an edit that was planned. After an error the document is as it was, and nothing more is marked or fresh.
fn make(
    alloc: Global,
    doc: &mut Doc,
    pending: &mut Pending,
    map: &InvalidationMap,
    planned: Planned<'_>,
) -> Result<(), NoMemory>
    requires fits { Fits doc.old planned }
    requires tells { Tells doc.old planned }
    ensures ok { OnOk result
        (MakesEdit doc.old (planned_seen planned.entry) doc.new (rows_in map.now) pending.old pending.new) }
    ensures kept { OnErr result (IsUnmade doc.old doc.new pending.old pending.new) }
{
    pending.reserve(planned.last())?;
    // From here on only the edit itself takes memory, before it changes anything.
    pending.take_out(doc, &planned);
    let before = doc.last() as u32;
    let last = planned.last();
    let moved = planned.moved();
    let touched = commit(alloc, doc, planned)?;
    pending.freshen(doc, before, last, moved);
    pending.mark(doc, &touched, map);
    Ok(())
}
