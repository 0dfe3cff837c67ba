//! Shorthands (css-cascade-5, section 3): which there are, the properties that each stands for, and
//! the parts of its value; and what a declaration declares. Nothing here takes memory.
#![tactic(auto)]

mod declared;
mod nested;
mod parts;
mod property_name;
mod short;
mod slices;
mod values;
mod word;

pub use declared::{Declared, Given, Target};
pub use parts::Parts;
pub use property_name::PropertyName;
pub use short::Short;
pub use values::split;
