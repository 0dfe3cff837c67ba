//! Rules by the names that an element must have to match them: an element looks at a few pieces of a list, and at no
//! other rule.
//!
//! Each selector is in one bucket: by the first id of its subject, else the first class, else the type, else by the
//! first attribute that the subject tests, else in the one of what any element may match. The buckets of a kind are a
//! `Table`: the names sorted by their 64-bit key, and those of one key by text, each with a part of one flat list of
//! pairs (rule, selector, slots). A name is found by halves, and texts are compared among equal keys alone. There is no
//! hash map: who writes a sheet picks the names, and a hash whose seed is known lets them all fall into one place.
//!
//! `RuleMap::buckets` goes over what an element looks at: what any element may match, then a piece for its tag, its id,
//! each of its classes and the name of each of its attributes. Nothing is copied, sorted or hashed there, and no memory
//! is taken. Beside each selector stand the slots of the first four of its ancestor names (`Pair::passes`): where the
//! filter of an element's ancestors has none of one of them, the selector doesn't hold, and need not be tried.
//!
//! Rules are not ranked: a caller sorts what it found by the number of the rule.
#![tactic(auto)]

mod ancestor_slots;
mod asking;
mod bucket;
mod buckets;
mod gather;
pub mod laws;
mod map;
mod name_order;
mod order;
mod pair;
mod rows;
mod table;

pub use asking::asks_ancestors;
pub use buckets::Buckets;
pub use map::RuleMap;
pub use pair::Pair;
