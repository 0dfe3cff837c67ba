//! The pseudo-classes with brackets.

/// What a pseudo-class asks of the tokens in its brackets.
#[derive(Clone, Copy, PartialEq, Eq)]
pub(crate) enum Function {
    /// An+B, from the first or from the last, among all siblings or among those of the same type.
    Index { from_last: bool, of_type: bool },
    Is,
    Where,
    Not,
}
