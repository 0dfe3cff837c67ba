//! What the grammar of selectors asks of a token's kind.

ghost use Rattle.std.specs.Prelude.{◌≡◌};
ghost use Rattle.sheet_model.specs.SelectorTokens as model;

use css_tokens::{Token, TokenKind};

/// Whether it is an identifier or a string.
pub(crate) fn is_text(token: &Token) -> bool
    ensures { result ≡ model.is_text token.now.kind }
{
    matches!(token.kind(), TokenKind::Ident | TokenKind::String)
}

/// Whether it is an integer.
pub(crate) fn is_integer_number(token: &Token) -> bool
    ensures { result ≡ model.is_integer_number token.now.kind }
{
    match token.kind() {
        TokenKind::Number { is_integer } => is_integer,
        _ => false,
    }
}

/// Whether it is an integer with a unit.
pub(crate) fn is_integer_dimension(token: &Token) -> bool
    ensures { result ≡ model.is_integer_dimension token.now.kind }
{
    match token.kind() {
        TokenKind::Dimension { is_integer } => is_integer,
        _ => false,
    }
}
