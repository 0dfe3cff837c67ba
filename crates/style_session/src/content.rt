//! What a session is given: its document and its style sheets.

use dom_tree::Doc;
use sheet_set::Sheets;

/// A document with its style sheets.
#[derive(Drop)]
pub(crate) struct Content {
    pub doc: Doc,
    pub sheets: Sheets,
}
