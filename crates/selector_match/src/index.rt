//! Indexes among siblings (selectors-4, section 13).

ghost use Rattle.std.specs.Prelude.{◌≡◌, ◌+◌, ◌==◌, ◌&&◌, ◌<◌, ◌^◌, ◌↔◌, ◌*ℤ◌, ℕ, pos, IsTrue, false, true};
ghost use Rattle.scene_model.specs.Lookups.{IsElement, left_of, place_by as model_place_by, siblings};
ghost use Rattle.scene_model.specs.Valid.{IsValid};
ghost use Rattle.selector_model.specs.Comparisons.{is_nth as model_is_nth};
ghost use Rattle.selector_model.specs.Holds.{counts, index_by as model_index_by};
ghost use Rattle.selector_types.specs.SimpleView.{formula_of};

use dom_tree::Doc;
use selector_types::AnB;

/// The siblings before `x`, in tree order.
pub(crate) fn left_siblings(doc: &Doc, x: u32) -> &[u32]
    requires { IsElement doc.now.elements x }
    ensures siblings { result.now ≡ left_of x (siblings doc.now.elements x) }
    ensures valid { IsValid doc.now.elements }
{
    match doc.parent(x) {
        None => &[],
        Some(parent) => &doc.children(parent)[..doc.place(x) as usize],
    }
}

/// The place of `x` among its siblings, or among those of its type: how many of them are before it, or after it.
fn place_by(doc: &Doc, from_last: bool, of_type: bool, x: u32) -> usize
    requires { IsElement doc.now.elements x }
    ensures place { result ≡ model_place_by doc.now.elements from_last (counts doc.now.elements of_type x) x }
    ensures bound { result < 2 ^ 61 }
{
    match (from_last, of_type) {
        (false, false) => left_siblings(doc, x).len(),
        (false, true) => doc.place_of_type(x) as usize,
        (true, false) => doc.right_siblings(x).len(),
        (true, true) => doc.place_of_type_from_last(x) as usize,
    }
}

/// The index of `x` among its siblings from 1, from the first or from the last, among all of them or among those of
/// its type.
pub(crate) fn index_by(doc: &Doc, from_last: bool, of_type: bool, x: u32) -> usize
    requires { IsElement doc.now.elements x }
    ensures index { result ≡ model_index_by doc.now.elements from_last of_type x }
    ensures bound { result < 2 ^ 62 }
{
    place_by(doc, from_last, of_type, x) + 1
}

/// Whether `x` is the only one of its siblings, or the only one of its type.
pub(crate) fn is_only(doc: &Doc, of_type: bool, x: u32) -> bool
    requires { IsElement doc.now.elements x }
    ensures { result
        ≡ ((model_index_by doc.now.elements false of_type x == 1)
        && (model_index_by doc.now.elements true of_type x == 1)) }
{
    index_by(doc, false, of_type, x) == 1 && index_by(doc, true, of_type, x) == 1
}

/// Whether `index` is one of the indexes An+B.
pub(crate) fn is_nth(formula: AnB, index: usize) -> bool
    requires { index < 2 ^ 62 }
    ensures { result ≡ model_is_nth (formula_of formula) index }
{
    let gap = index as i64 - i64::from(formula.b);
    is_whole(gap, i64::from(formula.a))
}

/// Whether `gap` is some number of steps, from 0.
fn is_whole(gap: i64, step: i64) -> bool
    ensures { IsTrue result ↔ ((n : ℕ) × (step *ℤ pos n ≡ gap)) }
{
    let ahead = if step < 0 { gap <= 0 } else { 0 <= gap };
    ahead && gap.unsigned_abs().is_multiple_of(step.unsigned_abs())
}
