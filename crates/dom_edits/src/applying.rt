//! What an edit of a document does.

ghost use Rattle.std.specs.Prelude.{◌≡◌, IfErr, IfOk, None, OnErr, OnOk, option_map, unwrap_or};
ghost use Rattle.std.specs.List.{AllByRecursion};
ghost use Rattle.std.specs.List.Sorted.{IsPermutation};
ghost use Rattle.std.specs.Str.{chars};
ghost use Rattle.scene_model.specs.Lookups.{IsElement};
ghost use Rattle.change_model.specs.Sound.{IsSound};
ghost use Rattle.stylo_base.specs.StateView.{state_seen};
ghost use Rattle.stylo_base.specs.declared.refusal.EditRefused.TheVariants.{NoMemory as out_of_memory};
ghost use Rattle.edit_model.specs.Apply.{after, applied, refusal as model_refusal};
ghost use Rattle.edit_model.specs.Edit.{IsShaped, set, set_state as model_set_state, unset};
ghost use Rattle.edit_model.specs.Refusal.{accepted};
ghost use Rattle.edit_model.specs.TouchedBy.{AreTouched};
ghost use Rattle.edit_model.specs.TouchedPairs.{touched_pairs};
ghost use Rattle.dom_edits.specs.AcceptedView.{accepted_seen};
ghost use Rattle.dom_edits.specs.EditView.{doc_edit_seen, refusal_answered};
ghost use Rattle.dom_edits.specs.PlannedView.{Fits, planned_seen};

use crate::accepted::Accepted;
use crate::edits::DocEdit;
use crate::planned::Planned;
use crate::planning::plan;
use crate::subtrees::{insert, move_to, remove};
use crate::touched::Touched;
use crate::value_touches::{state_touches, value_touches};
use dom_tree::Doc;
use std::alloc::Global;
use stylo_base::{EditRefused, NoMemory, State};

/// Edits a document. The answer is what the edit touches: each pair of what is touched and an element of
/// the document once. An error is the first refusal in the order of unknown elements, places and limits,
/// and where there is none, that memory ran out; after it the document is as it was.
pub fn apply(alloc: Global, doc: &mut Doc, edit: &DocEdit) -> Result<Touched, EditRefused>
    ensures ok { OnOk result (applied doc.old (doc_edit_seen edit.now) ≡ accepted doc.new) }
    ensures touched { IfOk result (λ touched. AreTouched doc.old.elements doc.new.elements touched) }
    ensures elements { IfOk result (λ touched.
        AllByRecursion (λ pair. IsElement doc.new.elements pair.1) touched) }
    ensures refused { IfErr result (λ why. why
        ≡ unwrap_or (option_map refusal_answered (model_refusal doc.old (doc_edit_seen edit.now))) out_of_memory) }
    ensures kept { OnErr result (doc.new ≡ doc.old) }
{
    let planned = plan(doc, edit)?;
    let touched = commit(alloc, doc, planned)?;
    Ok(touched)
}

/// Makes an edit that was planned, in a document in which nothing refuses it. The answer is what the edit touches: each
/// pair of what is touched and an element of the document once. The only error is that memory ran out; then the
/// document is as it was.
pub fn commit(alloc: Global, doc: &mut Doc, planned: Planned<'_>) -> Result<Touched, NoMemory>
    requires { Fits doc.old planned }
    ensures ok { OnOk result (applied doc.old (planned_seen planned.entry) ≡ accepted doc.new) }
    ensures touched { IfOk result (λ touched. AreTouched doc.old.elements doc.new.elements touched) }
    ensures elements { IfOk result (λ touched.
        AllByRecursion (λ pair. IsElement doc.new.elements pair.1) touched) }
    ensures kept { OnErr result (doc.new ≡ doc.old) }
{
    let Planned { accepted, .. } = planned;
    let touched = make(alloc, doc, accepted)?;
    Ok(touched)
}

/// Makes an edit that nothing refuses.
fn make(alloc: Global, doc: &mut Doc, edit: Accepted) -> Result<Touched, NoMemory>
    requires sound { IsSound doc.old }
    requires shaped { IsShaped (accepted_seen edit) }
    requires accepted { model_refusal doc.old (accepted_seen edit) ≡ None }
    ensures ok { OnOk result (doc.new ≡ after doc.old (accepted_seen edit.entry)) }
    ensures touched { IfOk result (λ touched.
        IsPermutation (touched_pairs doc.old (accepted_seen edit.entry)) touched) }
    ensures kept { OnErr result (doc.new ≡ doc.old) }
{
    match edit {
        Accepted::Insert {
            parent,
            index,
            nodes,
        } => insert(alloc, doc, parent, index, nodes),
        Accepted::Remove { x } => remove(alloc, doc, x),
        Accepted::Move {
            x,
            parent,
            index,
            ..
        } => move_to(alloc, doc, x, parent, index),
        Accepted::Set { x, name, value } => set_attribute(alloc, doc, x, name, value),
        Accepted::Unset { x, name } => remove_attribute(alloc, doc, x, name),
        Accepted::State { x, state, on } => set_state(alloc, doc, x, state, on),
    }
}

/// Gives an attribute of an element a value.
fn set_attribute(
    alloc: Global,
    doc: &mut Doc,
    x: u32,
    name: &str,
    value: &str,
) -> Result<Touched, NoMemory>
    requires { IsElement doc.old.elements x }
    ensures ok { OnOk result (doc.new ≡ after doc.old (set x (chars name.now) (chars value.now))) }
    ensures touched { IfOk result (λ touched.
        IsPermutation (touched_pairs doc.old (set x (chars name.now) (chars value.now))) touched) }
    ensures kept { OnErr result (doc.new ≡ doc.old) }
{
    let touches = value_touches(alloc, doc, x, name, Some(value))?;
    let touched = Touched::at_one(alloc, x, touches);
    doc.set_attribute(alloc, x, name, value)?;
    Ok(touched)
}

/// Takes an attribute of an element away.
fn remove_attribute(alloc: Global, doc: &mut Doc, x: u32, name: &str) -> Result<Touched, NoMemory>
    requires { IsElement doc.old.elements x }
    ensures ok { OnOk result (doc.new ≡ after doc.old (unset x (chars name.now))) }
    ensures touched { IfOk result (λ touched.
        IsPermutation (touched_pairs doc.old (unset x (chars name.now))) touched) }
    ensures kept { OnErr result (doc.new ≡ doc.old) }
{
    let touches = value_touches(alloc, doc, x, name, None)?;
    let touched = Touched::at_one(alloc, x, touches);
    doc.remove_attribute(alloc, x, name)?;
    Ok(touched)
}

/// Puts an element into a state, or takes it out of it.
fn set_state(
    alloc: Global,
    doc: &mut Doc,
    x: u32,
    state: State,
    on: bool,
) -> Result<Touched, NoMemory>
    requires { IsElement doc.old.elements x }
    ensures ok { OnOk result (doc.new ≡ after doc.old (model_set_state x (state_seen state) on)) }
    ensures touched { IfOk result (λ touched.
        IsPermutation (touched_pairs doc.old (model_set_state x (state_seen state) on)) touched) }
    ensures kept { OnErr result (doc.new ≡ doc.old) }
{
    let touches = state_touches(alloc, state, doc.state(x, state), on)?;
    let touched = Touched::at_one(alloc, x, touches);
    doc.set_state(x, state, on);
    Ok(touched)
}
