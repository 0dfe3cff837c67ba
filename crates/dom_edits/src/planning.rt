//! What an edit of a document will do, told before it is made.

ghost use Rattle.std.specs.Prelude.{◌≡◌, IfOk, None, option_map};
ghost use Rattle.std.specs.Result.{result_err};
ghost use Rattle.change_model.specs.Sound.{IsSound};
ghost use Rattle.edit_model.specs.Apply.{after, refusal as model_refusal};
ghost use Rattle.edit_model.specs.Edit.{DocEdit as ModelEdit, IsShaped};
ghost use Rattle.dom_edits.specs.AcceptedView.{accepted_seen};
ghost use Rattle.dom_edits.specs.EditView.{Says, doc_edit_seen, refusal_answered};
ghost use Rattle.dom_edits.specs.PlannedView.{Fits, Tells, planned_seen};

use crate::accepted::Accepted;
use crate::edits::DocEdit;
use crate::planned::Planned;
use crate::refusals::judge;
use dom_tree::Doc;
use stylo_base::EditRefused;

/// Plans an edit: what it will do in this document, as long as no other edit comes between. An error is the first
/// refusal in the order of unknown elements, places and limits. It takes no memory.
pub fn plan<'a>(doc: &Doc, edit: &'a DocEdit) -> Result<Planned<'a>, EditRefused>
    ensures planned { IfOk result (λ planned. planned_seen planned ≡ doc_edit_seen edit.now) }
    ensures fits { IfOk result (Fits doc.now) }
    ensures tells { IfOk result (Tells doc.now) }
    ensures refused { result_err result
        ≡ option_map refusal_answered (model_refusal doc.now (doc_edit_seen edit.now)) }
    ensures every { (said : ModelEdit) → Says edit.now said
        → result_err result ≡ option_map refusal_answered (model_refusal doc.now said) }
    ensures shaped { IsShaped (doc_edit_seen edit.now) }
    ensures sound { IsSound doc.now }
{
    let accepted = judge(doc, edit)?;
    let last = last_after(doc, &accepted);
    Ok(Planned { accepted, last })
}

/// Why an edit is refused: the first refusal in the order of unknown elements, places and limits. None:
/// it is accepted, where there is memory. It takes no memory.
pub fn refusal(doc: &Doc, edit: &DocEdit) -> Option<EditRefused>
    ensures refusal { result ≡ option_map refusal_answered (model_refusal doc.now (doc_edit_seen edit.now)) }
    ensures every { (said : ModelEdit) → Says edit.now said
        → result ≡ option_map refusal_answered (model_refusal doc.now said) }
{
    plan(doc, edit).err()
}

/// The last number that will have been given, once an edit is made that nothing refuses.
fn last_after(doc: &Doc, edit: &Accepted) -> u32
    requires sound { IsSound doc.now }
    requires shaped { IsShaped (accepted_seen edit.now) }
    requires accepted { model_refusal doc.now (accepted_seen edit.now) ≡ None }
    ensures { result ≡ (after doc.now (accepted_seen edit.now)).last }
{
    let last = doc.last();
    match edit {
        Accepted::Insert { nodes, .. } => (last + nodes.len()) as u32,
        _ => last as u32,
    }
}
