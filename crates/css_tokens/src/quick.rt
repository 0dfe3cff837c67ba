//! The tokens that take one look: whitespace, marks, and identifiers without escapes.

ghost use Rattle.std.specs.Prelude.{◌≡◌, IfSome, length, true};
ghost use Rattle.syntax_model.specs.Pieces as model;
ghost use Rattle.syntax_model.specs.Token as token;
ghost use Rattle.css_tokens.specs.Scanned.{IsFirst, IsMark, is_lone_point};
ghost use Rattle.css_tokens.specs.View.{kind_of};

use crate::TokenKind;
use crate::letters::{is_blank, is_name_start};
use crate::number::begins_digit;
use crate::pieces::{blank_len, next_is};
use crate::text_unit::Grammar;

/// A token with neither name nor number, of so many characters.
#[derive(Clone, Copy)]
pub(crate) struct Simple {
    pub kind: TokenKind,
    pub len: usize,
}

/// The token that a text begins with, where its first characters tell that it is whitespace or a mark.
pub(crate) fn simple_token(text: &[char]) -> Option<Simple>
    ensures { IfSome result (λ found. IsFirst (model.plain (kind_of found.kind) found.len) text.now) }
{
    let (first, rest) = text.split_first()?;
    if is_blank(*first) {
        return Some(Simple {
            kind: TokenKind::Whitespace,
            len: blank_len(text),
        });
    }
    let kind = mark(*first, rest)?;
    Some(Simple { kind, len: 1 })
}

/// The kind of a character that is a token alone, whatever is after it, or of a point that begins no number.
fn mark(first: char, rest: &[char]) -> Option<TokenKind>
    ensures { IfSome result (λ kind. IsMark (kind_of kind) first rest.now) }
{
    match first {
        ',' => Some(TokenKind::Comma),
        ':' => Some(TokenKind::Colon),
        ';' => Some(TokenKind::Semicolon),
        '(' => Some(TokenKind::OpenRound),
        ')' => Some(TokenKind::CloseRound),
        '[' => Some(TokenKind::OpenSquare),
        ']' => Some(TokenKind::CloseSquare),
        '{' => Some(TokenKind::OpenCurly),
        '}' => Some(TokenKind::CloseCurly),
        _ if is_lone_point(first, rest) => Some(TokenKind::Delim(first)),
        _ => None,
    }
}

/// Whether it is a point that begins no number.
fn is_lone_point(first: char, rest: &[char]) -> bool
    ensures { result ≡ is_lone_point first rest.now }
{
    first == '.' && !begins_digit(rest)
}

/// The identifier that a text begins with, where no escape is in it, and neither an escape nor `(` after it.
pub(crate) fn plain_ident(text: &[char]) -> Option<&[char]>
    ensures { IfSome result (λ name. IsFirst (model.named token.ident name.now (length name.now)) text.now) }
{
    let (first, _) = text.split_first()?;
    if !is_name_start(*first) {
        return None;
    }
    let len = Grammar::Name.plain_len(text);
    let (name, rest) = text.split_at(len);
    if next_is(rest, '(') || next_is(rest, '\\') {
        return None;
    }
    Some(name)
}
