//! Which tokens end a fallback, and which make a value invalid (css-variables-1, section 2).

ghost use Rattle.std.specs.Prelude.{◌≡◌, ◌&&◌, ◌||◌};
ghost use Rattle.custom_model.specs.Parts.{is_unfit};
ghost use Rattle.css_tokens.specs.Opened.{brackets_in, is_in_fallback};
ghost use Rattle.css_tokens.specs.View.{kind_of};
ghost use Rattle.syntax_model.specs.TokenKinds.{is_close_round, is_delim, is_semicolon};
ghost use Rattle.syntax_model.specs.Signs.{exclamation_mark};
ghost use Rattle.syntax_model.specs.Written.{is_broken};

use crate::TokenKind;
use crate::open_stack::OpenStack;

/// Whether a token of this kind is the `)` with which a fallback and its `var()` end here.
pub(crate) fn is_end(stack: &OpenStack, kind: TokenKind) -> bool
    ensures { result ≡ (is_in_fallback stack.now && is_close_round (kind_of kind)) }
{
    kind.is_close_round() && stack.is_in_fallback()
}

/// Whether a token of this kind makes the value invalid here.
pub(crate) fn is_unfit(stack: &OpenStack, kind: TokenKind) -> bool
    ensures { result ≡ is_unfit (brackets_in stack.now) (kind_of kind) }
{
    is_broken(kind) || stack.is_unmatched(kind) || (!stack.is_in_bracket() && is_stop(kind))
}

/// A bad string, a bad url, or a `\` alone.
fn is_broken(kind: TokenKind) -> bool
    ensures { result ≡ is_broken (kind_of kind) }
{
    match kind {
        TokenKind::BadString | TokenKind::BadUrl => true,
        TokenKind::Delim(c) => c == '\\',
        _ => false,
    }
}

/// What is allowed within brackets alone: `;` and `!`.
fn is_stop(kind: TokenKind) -> bool
    ensures { result ≡ (is_semicolon (kind_of kind) || is_delim exclamation_mark (kind_of kind)) }
{
    match kind {
        TokenKind::Semicolon => true,
        TokenKind::Delim(c) => c == '!',
        _ => false,
    }
}
