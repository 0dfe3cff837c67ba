//! Tokens as text.

ghost use Rattle.std.specs.Prelude.{◌≡◌, ◌++◌, IfOk, OnOk};
ghost use Rattle.css_tokens.specs.View.{kind_of};
ghost use Rattle.syntax_model.specs.Written as model;

use crate::output::Output;
use crate::token_text::push_token;
use css_tokens::{Token, TokenKind};
use std::alloc::Global;
use stylo_base::{NoMemory, Text};

/// The text of the tokens: each as it is written, with an empty comment between two that would read
/// as others without it.
pub fn write(alloc: Global, tokens: &[Token]) -> Result<Text, NoMemory>
    ensures { IfOk result (λ text. text ≡ model.written tokens.now) }
{
    let mut out = Output::new(alloc);
    push_tokens(alloc, &mut out, tokens)?;
    Ok(out.into_text())
}

/// Appends the text of the tokens.
pub(crate) fn push_tokens(alloc: Global, out: &mut Output, tokens: &[Token]) -> Result<(), NoMemory>
    ensures { OnOk result (out.new ≡ out.old ++ model.written tokens.now) }
{
    let mut rest = tokens;
    while let Some((token, after)) = rest.split_first() {
        push_token(alloc, out, token)?;
        push_gap(out, token.kind(), after)?;
        rest = after;
    }
    Ok(())
}

/// Appends an empty comment after a token of this kind, where the next one needs it.
fn push_gap(out: &mut Output, kind: TokenKind, rest: &[Token]) -> Result<(), NoMemory>
    ensures { OnOk result (out.new ≡ out.old ++ model.gap (kind_of kind) rest.now) }
{
    match rest.first() {
        Some(next) if !ends_itself(kind) && !begins_itself(next.kind()) => {
            out.push_all(&['/', '*', '*', '/'])
        }
        _ => Ok(()),
    }
}

/// Whether nothing after a token of this kind can be taken for a part of it.
fn ends_itself(kind: TokenKind) -> bool
    ensures { result ≡ model.ends_itself (kind_of kind) }
{
    !matches!(
        kind,
        TokenKind::Ident
            | TokenKind::AtKeyword
            | TokenKind::Hash { .. }
            | TokenKind::Number { .. }
            | TokenKind::Dimension { .. }
            | TokenKind::Delim(_)
            | TokenKind::BadString
            | TokenKind::BadUrl
    )
}

/// Whether a token of this kind can be taken for a part of no other before it.
fn begins_itself(kind: TokenKind) -> bool
    ensures { result ≡ model.begins_itself (kind_of kind) }
{
    matches!(
        kind,
        TokenKind::Whitespace
            | TokenKind::Comma
            | TokenKind::Colon
            | TokenKind::Semicolon
            | TokenKind::String
            | TokenKind::OpenSquare
            | TokenKind::CloseSquare
            | TokenKind::CloseRound
            | TokenKind::OpenCurly
            | TokenKind::CloseCurly
    )
}
