//! The rows by which edits mark.

ghost use Rattle.std.specs.Prelude.{◌≡◌, ◌<◌, get_or, length, map};
ghost use Rattle.edit_model.specs.TouchedBy.{same_touch};
ghost use Rattle.dom_edits.specs.TouchView.{touch_key, touch_seen};
ghost use Rattle.invalidation_map.specs.Rows.{style_touch};
ghost use Rattle.invalidation_map.specs.SharedRows.{AreWithin};

use crate::key_index::KeyIndex;
use crate::shared::{DependencyRow, Shared};
use dom_edits::Touch;

/// The rows of a list of selectors.
#[derive(Drop)]
pub struct InvalidationMap {
    /// In the order of the keys of their touches by `spread`.
    pub(crate) rows: Vec<DependencyRow>,
    /// The keys of their touches.
    pub(crate) index: KeyIndex,
    pub(crate) shared: Shared,
    /// The touch of an element's own style.
    pub(crate) style: Touch,
    ghost keyed: { index.keys.items ≡ map (λ row. touch_key (touch_seen row.touch)) rows.items },
    ghost within: { AreWithin shared rows.items },
    ghost styled: { touch_seen style ≡ style_touch },
}

impl InvalidationMap {
    /// Whether the row at a place is one of a touch, which has this key. The row is looked at only where its
    /// key is the same.
    pub(crate) fn is_of(&self, place: usize, touch: &Touch, key: u64) -> bool
        requires place { place < length self.now.rows.items }
        requires key { key ≡ touch_key (touch_seen touch.now) }
        ensures { (d : DependencyRow) → result
            ≡ same_touch (touch_seen (get_or self.now.rows.items place d).touch) (touch_seen touch.now) }
    {
        self.index.keys[place] == key && self.rows[place].touch.is(touch)
    }
}
