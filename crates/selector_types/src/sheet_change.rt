//! What an edit of sheets changed.

use crate::Key;

/// What an edit of sheets changed, as far as it tells whom it marks: the keys of the selectors of the kept rules of the
/// edit's sheet, of its text before if it was enabled and after if it is, and whether layers of one origin that are
/// there before and after changed their order.
#[derive(Debug, Drop)]
pub struct SheetChange {
    pub keys: Vec<Key>,
    pub swapped: bool,
}
