//! Selectors as data, how specific they are, and the key by which their rules are found; and what an edit of sheets
//! changed.
//!
//! The comparison of an attribute, the longest of the simple tests, is in memory of its own, so that it does not make
//! every other test as long.
#![tactic(auto)]

mod complex;
mod keys;
pub mod measure;
mod selector;
mod sheet_change;
mod simple;
pub mod weight;

pub use complex::{Combinator, Complex, Compound, Left, Test};
pub use keys::{Key, key_of};
pub use measure::Measure;
pub use selector::Selector;
pub use sheet_change::SheetChange;
pub use simple::{AnB, AttributeOperator, AttributeTest, Nth, Simple};
pub use stylo_base::Specificity;
