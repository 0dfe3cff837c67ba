//! The words of a value: what stands between whitespace outside brackets.

ghost use Rattle.std.specs.Prelude.{◌≡◌, ◌∷◌, ◌≤◌, [], length, option_map};
ghost use Rattle.syntax_model.specs.Brackets.{open_past, with_opened};
ghost use Rattle.syntax_model.specs.TokenKinds.{is_white};
ghost use Rattle.syntax_model.specs.Outside.{from_first};
ghost use Rattle.css_tokens.specs.View.{bracket_of};
ghost use Rattle.shorthands.specs.Blocks.{after_closer};

use crate::nested::Nested;
use css_tokens::{Bracket, Token};

/// The tokens from the first whitespace outside brackets on.
pub(crate) fn from_white(tokens: &[Token]) -> &[Token]
    ensures rest { result.now ≡ from_first is_white tokens.now }
    ensures within { length result.now ≤ length tokens.now }
{
    let mut rest = tokens;
    // The proof calls the loop by this label.
    'tokens: while let Some((first, after)) = rest.split_first() {
        if first.is_white() {
            break;
        }
        rest = after_one(first, after);
    }
    rest
}

/// What comes after a token, and after the bracket that it opens if it opens one.
fn after_one<'a>(token: &Token, tokens: &'a [Token]) -> &'a [Token]
    ensures rest { result.now ≡ after_closer (open_past [] token.now) tokens.now }
    ensures within { length result.now ≤ length tokens.now }
{
    match token.kind().opens() {
        Some(bracket) => after_block(bracket, tokens),
        None => tokens,
    }
}

/// What comes after the token that closes the bracket: nothing, if none does.
#[cycle(block)]
fn after_block(bracket: Bracket, tokens: &[Token]) -> &[Token]
    ensures rest { result.now ≡ after_closer (bracket_of bracket ∷ []) tokens.now }
    ensures within { length result.now ≤ length tokens.now }
{
    let mut nested = Nested::one(bracket);
    let mut rest = tokens;
    // The proof calls the loop by this label.
    'tokens: while !nested.is_empty() {
        let Some((first, after)) = rest.split_first() else {
            break;
        };
        nested.close(first.kind().closes());
        rest = opened(&mut nested, first.kind().opens(), after);
    }
    rest
}

/// Opens a bracket, if any, where there is room for it, and else goes past it: what is left.
#[cycle(block)]
fn opened<'a>(nested: &mut Nested, bracket: Option<Bracket>, tokens: &'a [Token]) -> &'a [Token]
    ensures rest { after_closer nested.new result.now
        ≡ after_closer (with_opened (option_map bracket_of bracket) nested.old) tokens.now }
    ensures within { length result.now ≤ length tokens.now }
{
    if let Some(bracket) = bracket {
        if !nested.open(bracket) {
            return after_block(bracket, tokens);
        }
    }
    tokens
}
