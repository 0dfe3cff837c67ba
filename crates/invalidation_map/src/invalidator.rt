//! Marks: the elements whose matching an edit may have changed.

ghost use Rattle.std.specs.Prelude.{◌≡◌, ◌&&◌, ◌||◌, ℕ, false};
ghost use Rattle.std.specs.List.{list_any};
ghost use Rattle.std.specs.Option.{option_map_or};
ghost use Rattle.std.proofs.Props.{props};
ghost use Rattle.scene_model.specs.Lookups.{IsElement};
ghost use Rattle.scene_model.specs.Numbers.{is_in};
ghost use Rattle.selector_model.specs.Bears.{bears as model_bears};
ghost use Rattle.selector_types.specs.SimpleView.{key_seen};
ghost use Rattle.edit_model.specs.TouchedBy.{is_listed};
ghost use Rattle.edit_model.specs.MarkedAfter.{touch_of_key};
ghost use Rattle.dom_edits.specs.TouchView.{touch_seen};
ghost use Rattle.dom_edits.specs.TouchedView.{list_touches};
ghost use Rattle.invalidation_map.specs.Steps.{AreElements, HasRoom};
ghost use Rattle.invalidation_map.specs.Rows.{AreTouchedIn, marks_by_row, marks_by_touch};
ghost use Rattle.invalidation_map.specs.SharedRows.{IsWithin, row_seen};
ghost use Rattle.invalidation_map.specs.RowView.{rows_in};
ghost use Rattle.invalidation_map.specs.Marks.{AddsMarked, AddsMarkedBy, AreAtElements, IsGrown};

use crate::ElementSet;
use crate::edit_sets::EditSets;
use crate::paths::walk;
use crate::rows::InvalidationMap;
use crate::selector_key::SelectorKey;
use crate::shared::DependencyRow;
use dom_edits::{Touch, Touched};
use dom_tree::Doc;
use selector_types::Key;

/// What marking is lent.
#[derive(Clone, Copy)]
pub(crate) struct Invalidator<'a> {
    /// The document after an edit.
    pub doc: &'a Doc,
    /// What the edit touched.
    pub touched: &'a Touched,
    /// What is marked by what is touched.
    pub map: &'a InvalidationMap,
    ghost at_elements: { AreAtElements doc.now.elements touched.now } by { Prim.hlevel props },
}

impl Invalidator<'_> {
    /// Marks the elements that the edit marks.
    pub(crate) fn mark(&self, sets: &mut EditSets)
        requires { HasRoom self.now.doc.now.elements sets.old.room }
        ensures { AddsMarkedBy self.now.doc.now.elements self.now.touched.now (rows_in self.now.map.now)
            sets.old sets.new }
    {
        sets.add_marked(self.touched.at(&self.map.style));
        let (touches, elements) = self.touched.parts();
        for touch in touches {
            self.mark_by_touch(sets, elements, touch);
        }
        let count = touches.len();
        if count != 0 {
            return;
        }
        self.mark_by_lists(sets);
    }

    /// Marks what an edit marks that changes lists of children, if it is such a one: what the rows of its three
    /// touches mark.
    fn mark_by_lists(&self, sets: &mut EditSets)
        requires { HasRoom self.now.doc.now.elements sets.old.room }
        ensures { AddsMarked (λ x. list_any (λ touch. marks_by_touch self.now.doc.now.elements self.now.touched.now
            (rows_in self.now.map.now) touch x) list_touches) sets.old sets.new }
    {
        self.mark_at(sets, &Touch::Empty);
        self.mark_at(sets, &Touch::Positional);
        self.mark_at(sets, &Touch::Sibling);
    }

    /// Marks what the rows of a touch mark.
    fn mark_at(&self, sets: &mut EditSets, touch: &Touch)
        requires { HasRoom self.now.doc.now.elements sets.old.room }
        ensures { AddsMarked (marks_by_touch self.now.doc.now.elements self.now.touched.now
            (rows_in self.now.map.now) (touch_seen touch.now)) sets.old sets.new }
    {
        let elements = self.touched.at(touch);
        self.mark_by_touch(sets, elements, touch);
    }

    /// Marks what the rows of a touch mark, which is at these elements. It looks at those alone whose touches have
    /// the same key.
    fn mark_by_touch(&self, sets: &mut EditSets, elements: &[u32], touch: &Touch)
        requires room { HasRoom self.now.doc.now.elements sets.old.room }
        requires elements { AreTouchedIn self.now.touched.now (touch_seen touch.now) elements.now }
        ensures { AddsMarked (marks_by_touch self.now.doc.now.elements self.now.touched.now
            (rows_in self.now.map.now) (touch_seen touch.now)) sets.old sets.new }
    {
        let key = touch.key();
        let (first, past) = self.map.index.near(key);
        for place in first..past {
            if self.map.is_of(place, touch, key) {
                self.mark_row(sets, elements, &self.map.rows[place]);
            }
        }
    }

    /// Marks what one row marks, at whose touch these elements are touched.
    fn mark_row(&self, sets: &mut EditSets, elements: &[u32], row: &DependencyRow)
        requires room { HasRoom self.now.doc.now.elements sets.old.room }
        requires elements { AreTouchedIn self.now.touched.now (touch_seen row.now.touch) elements.now }
        requires within { IsWithin self.now.map.now.shared row.now }
        ensures { AddsMarked (marks_by_row self.now.doc.now.elements self.now.touched.now
            (row_seen self.now.map.now.shared row.now)) sets.old sets.new }
    {
        if row.alone {
            sets.add_marked(elements);
            return;
        }
        let path = self.map.shared.paths[row.path as usize].as_slice();
        let key = &self.map.shared.keys[row.key as usize];
        let bearing = touched_in_key(self.touched, key);
        if path.is_empty() {
            add_bearing(self.doc, &key.key, elements, bearing, &mut sets.marked);
            return;
        }
        sets.from.clear();
        sets.from.add_all(elements);
        walk(self.doc, path, &mut sets.from, &mut sets.next);
        add_bearing(
            self.doc,
            &key.key,
            sets.from.as_slice(),
            bearing,
            &mut sets.marked,
        );
    }
}

/// The elements of which an edit may have changed whether they bear a key.
fn touched_in_key<'a>(touched: &'a Touched, key: &SelectorKey) -> &'a [u32]
    ensures elements { (x : ℕ) → is_in x result.now
        ≡ option_map_or (λ touch. is_listed touched.now touch x) (touch_of_key (key_seen key.now.key)) false }
{
    match &key.bearing {
        Some(touch) => touched.at(touch),
        None => &[],
    }
}

/// Adds those of `from` that bear the key, or are among those that bore it.
fn add_bearing(doc: &Doc, key: &Key, from: &[u32], bearing: &[u32], marks: &mut ElementSet)
    requires elements { AreElements doc.now.elements from.now }
    requires room { HasRoom doc.now.elements marks.old.room }
    ensures { IsGrown (λ x. (model_bears doc.now.elements (key_seen key.now) x || is_in x bearing.now)
        && is_in x from.now) marks.old marks.new }
{
    for x in from {
        if bears_around(doc, key, bearing, *x) {
            marks.add(*x);
        }
    }
}

/// Whether `x` bears the key, or is among those of which an edit changed that. An edit touches the id or
/// the classes of one element at most, so these are few.
fn bears_around(doc: &Doc, key: &Key, bearing: &[u32], x: u32) -> bool
    requires { IsElement doc.now.elements x }
    ensures { result ≡ (model_bears doc.now.elements (key_seen key.now) x || is_in x bearing.now) }
{
    bears(doc, key, x) || bearing.contains(&x)
}

/// Whether `x` bears the key.
fn bears(doc: &Doc, key: &Key, x: u32) -> bool
    requires { IsElement doc.now.elements x }
    ensures { result ≡ model_bears doc.now.elements (key_seen key.now) x }
{
    match key {
        Key::Id(id) => doc.has_id_atom(x, id),
        Key::Class(class) => doc.has_class_atom(x, class),
        Key::Type(tag) => doc.has_tag_atom(x, tag),
        Key::Any => true,
    }
}
