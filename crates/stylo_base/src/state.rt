//! The states that an element may be in.

/// A state of an element, which the document sets.
#[derive(Clone, Copy, Debug, PartialEq, Eq)]
pub enum State {
    /// `:hover` holds.
    Hover,
    /// `:active` holds.
    Active,
    /// `:focus` holds.
    Focus,
}
