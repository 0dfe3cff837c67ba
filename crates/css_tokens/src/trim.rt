//! Whitespace at the ends of token lists.

ghost use Rattle.std.specs.Prelude.{◌≡◌, reverse};
ghost use Rattle.syntax_model.specs.TokenKinds.{trimmed, without_white};

use crate::Token;

/// The tokens without whitespace at the beginning.
pub fn without_white(tokens: &[Token]) -> &[Token]
    ensures { result.now ≡ without_white tokens.now }
{
    let mut left = tokens;
    while let Some((first, rest)) = left.split_first() {
        if !first.is_white() {
            break;
        }
        left = rest;
    }
    left
}

/// The tokens without whitespace at the end.
pub fn without_white_end(tokens: &[Token]) -> &[Token]
    ensures { result.now ≡ reverse (without_white (reverse tokens.now)) }
{
    let mut left = tokens;
    while let Some((last, rest)) = left.split_last() {
        if !last.is_white() {
            break;
        }
        left = rest;
    }
    left
}

/// The tokens without whitespace at both ends.
pub fn trimmed(tokens: &[Token]) -> &[Token]
    ensures { result.now ≡ trimmed tokens.now }
{
    without_white_end(without_white(tokens))
}
