//! A filter of the names that the ancestors of an element have: their tags, ids and classes. Where it says that no
//! ancestor has a name, a selector that asks for one with that name doesn't hold, and need not be tried.
//!
//! A name has one of 4,096 slots, by its key (`slot_of_key`), and a `Filter` has a counter of a byte for each slot. An
//! element is pushed and popped by its names (`Doc::names`), with one look at one byte a name: nothing is hashed, and
//! no memory is taken. A counter that comes to 255 stays there, since it is known no longer for how many names it
//! stands; so the filter never says no of a name that is there.
//!
//! `Ancestors` keeps the list of the elements that were pushed beside the filter. `reach` makes it the ancestors of any
//! element: from one element to the next in tree order it pushes one, or pops some, or does nothing. Nothing of a
//! document is kept but numbers: who edits it clears them.
#![tactic(auto)]

mod ancestors;
mod filter;
pub mod laws;
mod slots;

pub use ancestors::Ancestors;
pub use filter::Filter;
pub use slots::slot_of_key;
