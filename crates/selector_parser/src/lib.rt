//! Reads tokens as a list of selectors (selectors-4).
#![tactic(auto)]

mod an_plus_b;
mod attribute;
mod combinator;
mod complex;
mod compound;
mod count;
mod function;
mod integer;
mod kinds;
mod linear;
mod list;
mod names;
mod nested;
mod offset;
mod pseudo;
mod pseudo_class;
mod single;

pub use list::selector_list;
