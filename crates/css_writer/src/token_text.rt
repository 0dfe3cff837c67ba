//! The text of a token.

ghost use Rattle.std.specs.Prelude.{◌≡◌, ◌++◌, ◌∷◌, [], None, OnOk, codes, flat_map, if◌then◌else◌};
ghost use Rattle.base_model.specs.Ascii.{number_sign, right_parenthesis};
ghost use Rattle.css_tokens.specs.View.{kind_of, token_seen};
ghost use Rattle.syntax_model.specs.Signs.{quotation_mark};
ghost use Rattle.syntax_model.specs.Written as model;
ghost use Rattle.css_writer.specs.Marks.{mark_text};

use crate::name::{push_ident, push_name, push_unit};
use crate::output::Output;
use crate::quoted::{push_string, push_url};
use css_tokens::characters::characters_of;
use css_tokens::{Token, TokenKind, name_of, spelling_of};
use std::alloc::Global;
use stylo_base::NoMemory;

/// Appends the text of a token.
pub(crate) fn push_token(alloc: Global, out: &mut Output, token: &Token) -> Result<(), NoMemory>
    ensures { OnOk result (out.new ≡ out.old ++ model.token_text token.now) }
{
    let name = characters_of(alloc, name_of(token).as_str())?;
    push_parts(out, token.kind(), name.as_slice(), spelling_of(token))
}

/// Appends the text of a token of these parts.
fn push_parts(
    out: &mut Output,
    kind: TokenKind,
    name: &[char],
    spelling: &[char],
) -> Result<(), NoMemory>
    ensures { OnOk result (out.new ≡ out.old
        ++ model.token_text (token_seen (kind_of kind) name.now spelling.now None)) }
{
    match kind {
        TokenKind::Ident => push_ident(out, name),
        TokenKind::Function => {
            push_ident(out, name)?;
            out.push('(')
        }
        TokenKind::AtKeyword => {
            out.push('@')?;
            push_ident(out, name)
        }
        TokenKind::Hash { is_id } => push_hash(out, is_id, name),
        TokenKind::String => push_quoted(out, name),
        TokenKind::Url => push_url_token(out, name),
        TokenKind::Number { .. } => out.push_all(spelling),
        TokenKind::Percentage => {
            out.push_all(spelling)?;
            out.push('%')
        }
        TokenKind::Dimension { .. } => {
            out.push_all(spelling)?;
            push_unit(out, name)
        }
        TokenKind::Delim(c) => out.push(c),
        _ => out.push_all(mark_text(kind)),
    }
}

fn push_hash(out: &mut Output, is_id: bool, name: &[char]) -> Result<(), NoMemory>
    ensures { OnOk result (out.new ≡ out.old
        ++ number_sign ∷ (if is_id then model.ident_text name.now else model.name_text name.now)) }
{
    out.push('#')?;
    if is_id {
        push_ident(out, name)
    } else {
        push_name(out, name)
    }
}

fn push_quoted(out: &mut Output, text: &[char]) -> Result<(), NoMemory>
    ensures { OnOk result (out.new ≡ out.old
        ++ quotation_mark ∷ flat_map model.string_char_text text.now ++ quotation_mark ∷ []) }
{
    out.push('"')?;
    push_string(out, text)?;
    out.push('"')
}

fn push_url_token(out: &mut Output, text: &[char]) -> Result<(), NoMemory>
    ensures { OnOk result (out.new ≡ out.old
        ++ codes "url(" ++ flat_map model.url_char_text text.now ++ right_parenthesis ∷ []) }
{
    out.push_all(&['u', 'r', 'l', '('])?;
    push_url(out, text)?;
    out.push(')')
}

/// The text of a token that has neither name nor number, and is no delim.
fn mark_text(kind: TokenKind) -> &'static [char]
    ensures { result.now ≡ mark_text (kind_of kind) }
{
    match kind {
        TokenKind::BadString => &['"', '\n'],
        TokenKind::BadUrl => &['u', 'r', 'l', '(', '(', ')'],
        TokenKind::Whitespace => &[' '],
        TokenKind::Cdo => &['<', '!', '-', '-'],
        TokenKind::Cdc => &['-', '-', '>'],
        TokenKind::Colon => &[':'],
        TokenKind::Semicolon => &[';'],
        TokenKind::Comma => &[','],
        TokenKind::OpenSquare => &['['],
        TokenKind::CloseSquare => &[']'],
        TokenKind::OpenRound => &['('],
        TokenKind::CloseRound => &[')'],
        TokenKind::OpenCurly => &['{'],
        TokenKind::CloseCurly => &['}'],
        _ => &[],
    }
}
