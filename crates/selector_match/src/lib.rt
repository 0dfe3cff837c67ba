//! Where a selector holds (selectors-4).
//!
//! `matches` asks first whether the element bears the selector's key, for where it does not the selector does not hold;
//! `holds` leaves that to a caller who found the selector by its key.
#![tactic(auto)]

mod compared;
mod index;
mod key;
mod match_result;
mod matching;
mod simple;
mod two_way;

pub use matching::{holds, matches};
