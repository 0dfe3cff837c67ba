//! Combinators.

ghost use Rattle.std.specs.Prelude.{◌≡◌, option_map};
ghost use Rattle.selector_types.specs.ComplexView.{combinator_of};
ghost use Rattle.sheet_model.specs.SelectorsIn.{combinator_after, combinator_at, combinator_by};
ghost use Rattle.syntax_model.specs.TokenKinds.{begins_with, is_white};

use css_tokens::{Cursor, Token};
use selector_types::Combinator;

/// Consumes a combinator with the whitespace around it, or whitespace alone.
pub(crate) fn combinator(left: &mut Cursor) -> Option<Combinator>
    ensures { option_map (λ combinator. (combinator_of combinator, left.new)) result ≡ combinator_at left.old }
{
    let is_apart = begins_with_white(left);
    left.skip_whitespace();
    combinator_after(is_apart, left)
}

/// Whether whitespace is next.
fn begins_with_white(left: &Cursor) -> bool
    ensures { result ≡ begins_with is_white left.now }
{
    match left.peek() {
        Some(first) => first.is_white(),
        None => false,
    }
}

/// The same after whitespace, or without any before.
fn combinator_after(is_apart: bool, left: &mut Cursor) -> Option<Combinator>
    ensures { option_map (λ combinator. (combinator_of combinator, left.new)) result
        ≡ combinator_after is_apart left.old }
{
    if let Some(combinator) = combinator_by(left.peek()?) {
        left.next();
        left.skip_whitespace();
        return Some(combinator);
    }
    if !is_apart {
        return None;
    }
    Some(Combinator::Descendant)
}

/// The combinator that a character is.
fn combinator_by(token: &Token) -> Option<Combinator>
    ensures { option_map combinator_of result ≡ combinator_by token.now.kind }
{
    if token.is_delim('>') {
        Some(Combinator::Child)
    } else if token.is_delim('+') {
        Some(Combinator::NextSibling)
    } else if token.is_delim('~') {
        Some(Combinator::LaterSibling)
    } else {
        None
    }
}
