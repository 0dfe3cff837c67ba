//! Edits that nothing refuses.

use dom_tree::NodeList;
use stylo_base::State;

/// An edit that nothing refuses. It names elements by number.
#[derive(Clone, Copy)]
pub(crate) enum Accepted<'a> {
    /// Puts nodes in.
    Insert {
        parent: u32,
        index: usize,
        nodes: &'a NodeList,
    },
    /// Takes a subtree out.
    Remove {
        x: u32,
    },
    /// Moves a subtree.
    Move {
        x: u32,
        parent: u32,
        index: usize,
        /// Whether it is there already.
        still: bool,
    },
    /// Gives an attribute a value.
    Set {
        x: u32,
        name: &'a str,
        value: &'a str,
    },
    /// Takes an attribute away.
    Unset {
        x: u32,
        name: &'a str,
    },
    /// Sets a state, or takes it away.
    State {
        x: u32,
        state: State,
        on: bool,
    },
}
