//! The marks of an edit of sheets.

ghost use Rattle.std.specs.Prelude.{◌≡◌, ℕ, IfOk, filter, map, nat_eq};
ghost use Rattle.std.specs.List.{IsDistinct};
ghost use Rattle.scene_model.specs.Lookups.{numbers};
ghost use Rattle.scene_model.specs.Numbers.{is_in};
ghost use Rattle.selector_types.specs.SimpleView.{key_seen};
ghost use Rattle.invalidation_map.specs.KeySets.{bears_one};
ghost use Rattle.invalidation_map.specs.SheetMarked.{is_sheet_marked};

use crate::key_sets::KeySets;
use dom_tree::Doc;
use selector_types::SheetChange;
use std::alloc::Global;
use stylo_base::NoMemory;

/// The elements that an edit of sheets marks, each once, in tree order: those that bear one of the keys of the change,
/// or all where layers are swapped. However many keys there are, it goes once over the elements, and without a key and
/// a swap it looks at none.
pub fn sheet_marks(alloc: Global, doc: &Doc, change: &SheetChange) -> Result<Vec<u32>, NoMemory>
    ensures marked { IfOk result (λ v. (x : ℕ) → is_in x v.items
        ≡ is_sheet_marked doc.now.elements (map key_seen change.now.keys.items) change.now.swapped x) }
    ensures once { IfOk result (λ v. IsDistinct nat_eq v.items) }
    ensures order { IfOk result (λ v. v.items
        ≡ filter (is_sheet_marked doc.now.elements (map key_seen change.now.keys.items) change.now.swapped)
        (numbers doc.now.elements)) }
{
    let marked = marked_in_order(alloc, doc, change)?;
    Ok(marked)
}

/// The elements that an edit of sheets marks, in tree order.
fn marked_in_order(alloc: Global, doc: &Doc, change: &SheetChange) -> Result<Vec<u32>, NoMemory>
    ensures order { IfOk result (λ v. v.items
        ≡ filter (is_sheet_marked doc.now.elements (map key_seen change.now.keys.items) change.now.swapped)
        (numbers doc.now.elements)) }
    ensures once { IfOk result (λ v. IsDistinct nat_eq v.items) }
{
    if change.keys.is_empty() && !change.swapped {
        return Ok(Vec::new(alloc));
    }
    let sets = KeySets::of(alloc, &change.keys, change.swapped)?;
    bearers(alloc, doc, &sets)
}

/// The elements that bear one of the keys of the sets, in tree order.
fn bearers(alloc: Global, doc: &Doc, sets: &KeySets) -> Result<Vec<u32>, NoMemory>
    ensures order { IfOk result (λ v.
        v.items ≡ filter (bears_one sets.now doc.now.elements) (numbers doc.now.elements)) }
    ensures once { IsDistinct nat_eq (numbers doc.now.elements) }
{
    let order = doc.in_tree_order();
    let mut found = Vec::new(alloc);
    for x in order {
        if sets.bears(doc, *x) {
            found.push(*x)?;
        }
    }
    Ok(found)
}
