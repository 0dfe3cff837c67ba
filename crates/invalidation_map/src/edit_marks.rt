//! The marks of one edit.

ghost use Rattle.std.specs.Prelude.{◌≡◌, ◌+◌, ℕ, IfOk, [], nat_eq};
ghost use Rattle.std.specs.List.{IsDistinct, flat_map};
ghost use Rattle.scene_model.specs.Document.{Document};
ghost use Rattle.scene_model.specs.Numbers.{is_in};
ghost use Rattle.selector_types.specs.View.{selectors_of};
ghost use Rattle.edit_model.specs.Apply.{applied};
ghost use Rattle.edit_model.specs.Marked.{is_marked};
ghost use Rattle.edit_model.specs.Refusal.{accepted};
ghost use Rattle.edit_model.specs.TouchedBy.{AreTouched};
ghost use Rattle.dom_edits.specs.EditView.{doc_edit_seen};
ghost use Rattle.invalidation_map.specs.Marks.{AreAfter, IsMarkedList};
ghost use Rattle.invalidation_map.specs.RowView.{rows_in};
ghost use Rattle.invalidation_map.specs.Steps.{HasRoom};

use crate::invalidator::Invalidator;
use crate::{EditSets, InvalidationMap};
use dom_edits::{DocEdit, Touched};
use dom_tree::Doc;
use selector_types::Selector;
use std::alloc::Global;
use stylo_base::NoMemory;
use stylo_base::limits::NUMBER_LIMIT;

/// The elements that an edit marks, each once: those whose matching it may have changed, and those whose
/// own style it changed. It makes all that marking needs, which a caller with many edits makes once.
pub fn marks(
    alloc: Global,
    before: &Doc,
    edit: &DocEdit,
    touched: &Touched,
    after: &Doc,
    selectors: &[Vec<Selector>],
) -> Result<Vec<u32>, NoMemory>
    requires edit { applied before.now (doc_edit_seen edit.now) ≡ accepted after.now }
    requires touched { AreTouched before.now.elements after.now.elements touched.now }
    ensures marked { IfOk result (λ v. (x : ℕ) → is_in x v.items
        ≡ is_marked before.now.elements after.now.elements
        (flat_map (λ list. selectors_of list.items) selectors.now) x) }
    ensures once { IfOk result (λ v. IsDistinct nat_eq v.items) }
{
    let last = last_after(before, edit)?;
    let map = InvalidationMap::of(alloc, selectors)?;
    let invalidator = Invalidator {
        doc: after,
        touched,
        map: &map,
    };
    let found = marked_by(alloc, &invalidator, last);
    drop(map);
    found
}

/// The elements that an edit marks by the rows of selectors, each once. No element has a number above `last`.
fn marked_by(alloc: Global, invalidator: &Invalidator<'_>, last: u32) -> Result<Vec<u32>, NoMemory>
    requires { HasRoom invalidator.now.doc.now.elements (last + 1) }
    ensures { IfOk result (λ v. IsMarkedList invalidator.now.doc.now.elements invalidator.now.touched.now
        (rows_in invalidator.now.map.now) v.items) }
{
    let mut sets = sets_up_to(alloc, last)?;
    invalidator.mark(&mut sets);
    let found = Vec::from_slice(alloc, sets.marked());
    drop(sets);
    Ok(found?)
}

/// Sets with room for the numbers up to `last`, in which there is none.
fn sets_up_to(alloc: Global, last: u32) -> Result<EditSets, NoMemory>
    ensures { IfOk result (λ sets. sets ≡ record { marked = []; fresh = []; gone = []; room = last + 1 }) }
{
    let mut sets = EditSets::new(alloc);
    sets.reserve(last)?;
    Ok(sets)
}

/// The last number that there is after an edit that nothing refuses. Where there would be more than the limit of
/// numbers, something does, and no memory is asked for.
fn last_after(before: &Doc, edit: &DocEdit) -> Result<u32, NoMemory>
    ensures { IfOk result (λ last. (after : Document) → applied before.now (doc_edit_seen edit.now) ≡ accepted after
        → AreAfter last before.now.elements after.elements) }
{
    let last = before.last();
    let more = edit.new_count();
    if more > NUMBER_LIMIT - last {
        return Err(NoMemory);
    }
    Ok((last + more) as u32)
}
