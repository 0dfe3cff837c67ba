//! Which elements an edit marks.
//!
//! `dom_edits::commit` edits the document and answers what it touched; a name in a touch of at most seven bytes is kept
//! as a number, so it takes no memory. An `InvalidationMap` has a row for each dependency of the selectors, made once
//! for the sheets, in buckets by the keys of what touches them, where the rows of a compound share its path and those
//! of a selector its key; `EditSets::mark` takes the rows of each touch, found in the bucket of its key, walks their
//! paths from the touched elements through sets that are as long as the document, and adds those that bear the
//! selector's key now, or are touched in it. A row without a path needs no sets; where its touch is that of its key
//! too, it adds all elements of the touch. It needs no document before the edit and takes no memory, so nothing that
//! comes after an accepted edit can fail.
#![tactic(auto)]

mod change_marks;
mod edit_marks;
mod edit_sets;
mod element_set;
mod gather;
mod invalidator;
mod key_index;
mod key_sets;
mod paths;
mod rows;
mod selector_key;
mod shared;
mod steps;

pub use change_marks::sheet_marks;
pub use edit_marks::marks;
pub use edit_sets::EditSets;
pub use element_set::ElementSet;
pub use rows::InvalidationMap;
