//! Tokens.

ghost use Rattle.std.specs.Prelude.{◌≡◌, ◌↔◌, ◌+◌, ◌^◌, ◌<◌, IfOk, IsTrue, length};
ghost use Rattle.std.specs.Option.{option_map};
ghost use Rattle.syntax_model.specs.Brackets.{closer};
ghost use Rattle.syntax_model.specs.TokenKinds as kinds;
ghost use Rattle.syntax_model.specs.Pieces.{named, plain, token_of};
ghost use Rattle.syntax_model.specs.Token.{ident, said};
ghost use Rattle.custom_model.specs.Value.{unplaced, white_space};
ghost use Rattle.css_tokens.specs.View as view;
ghost use Rattle.css_tokens.specs.Scanned.{piece_of};
ghost use Rattle.css_tokens.specs.View.{bracket_of, kind_of, span_of};

use crate::extent::Extent;
use crate::run::{plain_text, text_of};
use crate::scan::Scan;
use crate::spelling::Spelling;
use crate::{Bracket, Separator, TokenKind};
use std::alloc::Global;
use std::marker::Model;
use std::mem::size_of;
use stylo_base::{NoMemory, Text};

/// Where the text of a token is, in characters of the preprocessed text, without the one at `end`.
#[derive(Clone, Copy, Debug, PartialEq, Eq)]
pub struct Span {
    pub start: usize,
    pub end: usize,
}

/// A token, independent of its source text. Contracts see the record of its kind, its name, the
/// spelling of its number, and its span.
#[derive(Debug, Drop)]
pub struct Token {
    kind: TokenKind,
    name: Text,
    spelling: Spelling,
    extent: Extent,
}

const _: () = prove!(size_of::<Token>() == 88);

impl Model for Token {
    ghost use Rattle.syntax_model.specs.Token as model;
    ghost use Rattle.css_tokens.specs.Extents.{extent_of};
    ghost use Rattle.css_tokens.specs.Spelled.{spelled};
    ghost use Rattle.css_tokens.specs.View.{kind_of};
    ghost use Rattle.css_tokens.specs.View.{token_seen};

    ghost Value = { model.Token };

    ghost view = { λ t. token_seen (kind_of t.kind) t.name (spelled t.spelling) (extent_of t.extent) };
}

impl Token {
    /// The token that was found at an offset.
    pub(crate) fn of_scan(alloc: Global, start: usize, scan: &Scan) -> Result<Token, NoMemory>
        requires fits { start + scan.now.len < 2 ^ 64 }
        ensures { IfOk result (λ t. t ≡ token_of start (piece_of scan.now)) }
    {
        Ok(Token {
            kind: scan.kind,
            name: text_of(alloc, scan.name)?,
            spelling: Spelling::of_slice(alloc, scan.spelling)?,
            extent: Extent::new(start, scan.len),
        })
    }

    /// A token that has neither name nor number. It takes no memory.
    #[inline]
    pub(crate) fn simple(alloc: Global, kind: TokenKind, start: usize, len: usize) -> Token
        requires fits { start + len < 2 ^ 64 }
        ensures { result ≡ token_of start (plain (kind_of kind) len) }
    {
        Token {
            kind,
            name: Text::new(alloc),
            spelling: Spelling::empty(),
            extent: Extent::new(start, len),
        }
    }

    /// The identifier of this name, which stands at an offset as it is.
    pub(crate) fn ident(alloc: Global, start: usize, name: &[char]) -> Result<Token, NoMemory>
        requires fits { start + length name.now < 2 ^ 64 }
        ensures { IfOk result (λ t. t ≡ token_of start (named ident name.now (length name.now))) }
    {
        Ok(Token {
            kind: TokenKind::Ident,
            name: plain_text(alloc, name)?,
            spelling: Spelling::empty(),
            extent: Extent::new(start, name.len()),
        })
    }

    /// The closer of a bracket that the end of input adds. It has no span, and takes no memory.
    pub fn closer(alloc: Global, bracket: Bracket) -> Token
        ensures { result ≡ closer (bracket_of bracket) }
    {
        Token {
            kind: bracket.closer(),
            name: Text::new(alloc),
            spelling: Spelling::empty(),
            extent: Extent::nowhere(),
        }
    }

    /// The kind.
    pub fn kind(&self) -> TokenKind
        ensures { kind_of result ≡ self.now.kind }
    {
        self.kind
    }

    /// Where the text of the token is, if it is of a text.
    pub fn span(&self) -> Option<Span>
        ensures { option_map span_of result ≡ self.now.span }
    {
        self.extent.get()
    }

    /// Whether it is whitespace.
    pub fn is_white(&self) -> bool
        ensures { result ≡ kinds.is_white self.now.kind }
    {
        matches!(self.kind(), TokenKind::Whitespace)
    }

    /// Whether it is an identifier.
    pub fn is_ident(&self) -> bool
        ensures { result ≡ kinds.is_ident self.now.kind }
    {
        matches!(self.kind(), TokenKind::Ident)
    }

    /// Whether it is a function's name and `(`.
    pub fn is_function(&self) -> bool
        ensures { result ≡ kinds.is_function self.now.kind }
    {
        matches!(self.kind(), TokenKind::Function)
    }

    /// Whether it is a hash.
    pub fn is_hash(&self) -> bool
        ensures { result ≡ kinds.is_hash self.now.kind }
    {
        matches!(self.kind(), TokenKind::Hash { .. })
    }

    /// Whether it is a hash that is an identifier.
    pub fn is_id_hash(&self) -> bool
        ensures { result ≡ kinds.is_id_hash self.now.kind }
    {
        match self.kind() {
            TokenKind::Hash { is_id } => is_id,
            _ => false,
        }
    }

    /// Whether it is a comma.
    pub fn is_comma(&self) -> bool
        ensures { result ≡ kinds.is_comma self.now.kind }
    {
        matches!(self.kind(), TokenKind::Comma)
    }

    /// Whether it is a colon.
    pub fn is_colon(&self) -> bool
        ensures { result ≡ kinds.is_colon self.now.kind }
    {
        matches!(self.kind(), TokenKind::Colon)
    }

    /// Whether it is a semicolon.
    pub fn is_semicolon(&self) -> bool
        ensures { result ≡ kinds.is_semicolon self.now.kind }
    {
        matches!(self.kind(), TokenKind::Semicolon)
    }

    /// Whether it is `[`.
    pub fn is_open_square(&self) -> bool
        ensures { result ≡ kinds.is_open_square self.now.kind }
    {
        matches!(self.kind(), TokenKind::OpenSquare)
    }

    /// Whether it is `{`.
    pub fn is_open_curly(&self) -> bool
        ensures { result ≡ kinds.is_open_curly self.now.kind }
    {
        matches!(self.kind(), TokenKind::OpenCurly)
    }

    /// Whether it is skipped between declarations.
    pub fn is_between(&self) -> bool
        ensures { result ≡ kinds.is_between self.now.kind }
    {
        self.is_white() || self.is_semicolon()
    }

    /// Whether it is this character alone.
    pub fn is_delim(&self, c: char) -> bool
        ensures { result ≡ kinds.is_delim c self.now.kind }
    {
        match self.kind() {
            TokenKind::Delim(d) => d == c,
            _ => false,
        }
    }

    /// Whether lists are cut at it.
    pub fn separates(&self, separator: Separator) -> bool
        ensures { result ≡ view.separates separator self.now.kind }
    {
        match separator {
            Separator::Comma => self.is_comma(),
            Separator::Semicolon => self.is_semicolon(),
        }
    }

    /// Another token that says the same.
    pub fn copy(&self, alloc: Global) -> Result<Token, NoMemory>
        ensures { IfOk result (λ t. t ≡ self.now) }
    {
        Ok(Token {
            kind: self.kind,
            name: self.name.copy(alloc)?,
            spelling: self.spelling.copy(alloc)?,
            extent: self.extent,
        })
    }

    /// A token that says the same, and is of no text.
    pub fn bare(&self, alloc: Global) -> Result<Token, NoMemory>
        ensures { IfOk result (λ t. t ≡ unplaced (said self.now)) }
    {
        Ok(Token {
            kind: self.kind,
            name: self.name.copy(alloc)?,
            spelling: self.spelling.copy(alloc)?,
            extent: Extent::nowhere(),
        })
    }

    /// Whitespace of no text. It takes no memory.
    pub fn white_space(alloc: Global) -> Token
        ensures { result ≡ unplaced white_space }
    {
        Token {
            kind: TokenKind::Whitespace,
            name: Text::new(alloc),
            spelling: Spelling::empty(),
            extent: Extent::nowhere(),
        }
    }

    /// Whether both say the same, wherever they are.
    pub fn says_same(&self, other: &Token) -> bool
        ensures { IsTrue result ↔ (said self.now ≡ said other.now) }
    {
        self.kind == other.kind
            && self.name.is_same(&other.name)
            && self.spelling.as_slice() == other.spelling.as_slice()
    }

    /// Whether it is an at-keyword.
    pub fn is_at_keyword(&self) -> bool
        ensures { result ≡ kinds.is_at_keyword self.now.kind }
    {
        matches!(self.kind(), TokenKind::AtKeyword)
    }

    /// Whether it is `<!--`.
    pub fn is_cdo(&self) -> bool
        ensures { result ≡ kinds.is_cdo self.now.kind }
    {
        matches!(self.kind(), TokenKind::Cdo)
    }

    /// Whether it is `-->`.
    pub fn is_cdc(&self) -> bool
        ensures { result ≡ kinds.is_cdc self.now.kind }
    {
        matches!(self.kind(), TokenKind::Cdc)
    }

    /// Whether it is `}`.
    pub fn is_close_curly(&self) -> bool
        ensures { result ≡ kinds.is_close_curly self.now.kind }
    {
        matches!(self.kind(), TokenKind::CloseCurly)
    }
}

/// The name of a token, empty where it has none.
pub fn name_of(token: &Token) -> &Text
    ensures { result.now ≡ token.now.name }
{
    &token.name
}

/// The spelling of the number in a number, a percentage or a dimension; empty in any other token.
pub fn spelling_of(token: &Token) -> &[char]
    ensures { result.now ≡ token.now.spelling }
{
    token.spelling.as_slice()
}
