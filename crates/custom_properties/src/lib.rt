//! Computes the custom properties of an element, and puts their values in the place of `var()`
//! (css-variables-1).
//!
//! Custom properties come before the other properties. At an element, `cascade_core` sorts the declarations of custom
//! properties that apply by name and key, walks each name as it walks a property that is taken back, and hands what is
//! declared to `custom_properties`. There the names on cycles are found by a search in linear time whose answer is
//! checked (`cycle_search`): not the search is proved, but the check; where it fails, the plain definition is computed
//! (`plain.rt`). Values are then computed in an order in which each comes after those that it refers to. An element
//! without declarations of custom properties shares its parent's.
#![tactic(auto)]

mod computed;
mod declared_map;
mod expander;
mod expansion;
mod graph;
mod known;
mod merged;
mod ordered;
mod output;
mod plain;
mod resolution;
mod substitution;
mod values;

pub use declared_map::{DeclaredEntry, DeclaredMap};
pub use resolution::{changed, resolve};
pub use substitution::substitute;
