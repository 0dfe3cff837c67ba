//! Edits of a document: what refuses one, what it does, and what it touches; the edits of style sheets as data.
//!
//! An edit is planned first, and then made. `plan` judges it once, takes no memory, and tells what it will do, so that
//! a caller can make room for it; `commit` makes it and answers what it touched, and after it no memory is owed.
//! `apply` does both. The classes before a change of `class` are those that the document keeps, with their keys: they
//! are not cut and hashed again.
#![tactic(auto)]

mod accepted;
mod applying;
mod edits;
mod planned;
mod planning;
mod refusals;
mod subtrees;
mod touch;
mod touch_name;
mod touched;
mod value_touches;
mod word;
mod word_set;

pub use applying::{apply, commit};
pub use edits::{DocEdit, Edit, NewNodes, NodeLimit, SharedNodes, SheetEdit};
pub use planned::Planned;
pub use planning::{plan, refusal};
pub use touch::Touch;
pub use touch_name::TouchName;
pub use touched::Touched;
