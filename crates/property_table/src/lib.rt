//! The properties, the keywords, the colours and the values: what each property is called, whether
//! it is inherited, what it is where nothing sets it, what is not printed, and what it takes.
//! Nothing here takes memory, but for a text that a value is written to.
#![tactic(auto)]

mod color;
mod constant;
mod keyword;
mod property;
mod property_set;
mod rows;
mod value;
mod value_form;
mod value_parts;
pub mod word;

pub use color::Color;
pub use constant::{Constant, initial_size};
pub use keyword::{KEYWORDS, Keyword};
pub use property::{COUNT, PropId, PropertyRow, by_name, inherited, initial, label, standing};
pub use property_set::PropertySet;
pub use rows::{STANDING, WORDS, initial_amounts};
pub use value::Value;
pub use value_form::{ComputeRule, ValueForm};
