//! Searches a graph for the places on cycles, and for an order of the others, and checks what is found.
#![tactic(auto)]

mod components;
mod confirmed;
mod mark;

pub use components::search;
pub use confirmed::are_confirmed;
pub use mark::{Edge, GraphMarks, Mark};
