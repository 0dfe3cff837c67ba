//! What a selector depends on: each simple test and each sibling combinator in it, with the way from
//! the elements that it looks at to those that the selector is asked of.
#![tactic(auto)]

mod dep;
mod gather;

pub use dep::{Dep, Part, PathStep};
pub use gather::deps;
