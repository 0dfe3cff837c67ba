//! Reads JSON in one pass, from the tokens of `json` into what the caller keeps, with no tree
//! between. A value is what `serde_json` reads.
//!
//! Each reader takes one whole value, whatever its shape, so that nothing is set back: it answers
//! what the value says, or that it has another shape. An error means that no value is there.
//!
//! A reader takes one value of a text at a time from the tokens of the kit's `json::Reader`, whatever its shape, and
//! answers what it says or that it is of another shape.
#![tactic(auto)]

mod arrays;
mod number;
mod objects;
mod passing;
mod scalar;
mod stop;

pub use arrays::{KeepItems, array};
pub use objects::{KeepMembers, object};
pub use passing::pass;
pub use scalar::{boolean, text, whole};
pub use stop::Stop;
