//! What parts of a list of tokens are between.

/// A kind of token that lists are cut at.
#[derive(Clone, Copy, Debug, PartialEq, Eq)]
pub enum Separator {
    Comma,
    Semicolon,
}
