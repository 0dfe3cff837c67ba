//! Edits of the style sheets of a session.

ghost use Rattle.std.specs.Prelude.{◌≡◌, IfErr, OnErr, OnOk, map, option_map, unwrap_or};
ghost use Rattle.selector_types.specs.SimpleView.{key_seen};
ghost use Rattle.stylo_base.specs.declared.refusal.EditRefused.TheVariants.{NoMemory as out_of_memory};
ghost use Rattle.edit_model.specs.SheetApply.{sheet_refusal};
ghost use Rattle.dom_edits.specs.EditView.{refusal_answered, sheet_edit_seen};
ghost use Rattle.invalidation_map.specs.SheetMarked.{is_sheet_marked};
ghost use Rattle.sheet_set.specs.View.{listed_seen, sources_seen};
ghost use Rattle.style_session.specs.Edits.{EditsSheets, IsUnedited};
ghost use Rattle.style_session.specs.PendingView.{MarksToo, without_room};
ghost use Rattle.style_session.specs.Sessions.{AreReady};

use crate::content::Content;
use crate::derived::Derived;
use crate::pending::Pending;
use dom_edits::SheetEdit;
use dom_tree::Doc;
use invalidation_map::sheet_marks;
use selector_types::SheetChange;
use std::alloc::Global;
use stylo_base::{EditRefused, NoMemory};

/// Edits style sheets, and adds what the edit marks. What was made of the sheets as they were goes with them. An error
/// is the first refusal in the order of unknown sheets, places and limits, and where there is none, that memory ran
/// out; after it all is seen as before.
pub(crate) fn edit_sheets(
    alloc: Global,
    content: &mut Content,
    pending: &mut Pending,
    derived: &mut Derived,
    edit: &SheetEdit,
) -> Result<(), EditRefused>
    requires { AreReady (sources_seen content.old.sheets) derived.old }
    ensures ok { OnOk result
        (EditsSheets content.old (sheet_edit_seen edit.now) content.new pending.old pending.new) }
    ensures refused { IfErr result (λ why. why ≡ unwrap_or (option_map refusal_answered
        (sheet_refusal (listed_seen content.old.sheets) (sheet_edit_seen edit.now))) out_of_memory) }
    ensures kept { OnErr result (IsUnedited content.old content.new pending.old pending.new) }
    ensures ready { AreReady (sources_seen content.new.sheets) derived.new }
{
    let plan = content.sheets.plan(alloc, edit)?;
    add_marks(alloc, &content.doc, plan.change(), pending)?;
    // From here on nothing takes memory.
    content.sheets.commit(plan);
    derived.clear();
    Ok(())
}

/// Adds the elements that a change of sheets marks.
fn add_marks(
    alloc: Global,
    doc: &Doc,
    change: &SheetChange,
    pending: &mut Pending,
) -> Result<(), NoMemory>
    ensures ok { OnOk result (MarksToo
        (is_sheet_marked doc.now.elements (map key_seen change.now.keys.items) change.now.swapped)
        pending.old pending.new) }
    ensures kept { OnErr result (without_room pending.new ≡ without_room pending.old) }
{
    let found = sheet_marks(alloc, doc, change)?;
    pending.reserve(doc.last() as u32)?;
    pending.add_marked(&found);
    Ok(())
}
