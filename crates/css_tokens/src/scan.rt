//! The piece that a text begins with: a comment, or the text of a token (css-syntax-3, section 4.3).
//! Finding it takes no memory.

ghost use Rattle.std.specs.Prelude.{◌≡◌, true, false};
ghost use Rattle.syntax_model.specs.Pieces as model;
ghost use Rattle.css_tokens.specs.Scanned.{piece_of, said_in};
ghost use Rattle.css_tokens.specs.View.{kind_of};

use crate::TokenKind;
use crate::run::Said;

/// The piece that a text begins with.
#[derive(Clone, Copy)]
pub(crate) struct Scan<'a> {
    /// A comment is no token, and of no kind.
    pub is_comment: bool,
    pub kind: TokenKind,
    /// The run that says the name.
    pub name: Said<'a>,
    /// The text of the number.
    pub spelling: &'a [char],
    /// How many characters the piece has.
    pub len: usize,
}

impl<'a> Scan<'a> {
    /// A token with neither name nor number.
    pub(crate) fn plain(kind: TokenKind, len: usize) -> Scan<'a>
        ensures piece { piece_of result ≡ model.plain (kind_of kind) len }
        ensures token { result.is_comment ≡ false }
    {
        Scan::numeric(kind, &[], Said::Plain(&[]), len)
    }

    /// A token with a name.
    pub(crate) fn named(kind: TokenKind, name: Said<'a>, len: usize) -> Scan<'a>
        ensures piece { piece_of result ≡ model.named (kind_of kind) (said_in name.entry) len }
        ensures token { result.is_comment ≡ false }
    {
        Scan {
            is_comment: false,
            kind,
            name,
            spelling: &[],
            len,
        }
    }

    /// A token with a number, and maybe a unit.
    pub(crate) fn numeric(
        kind: TokenKind,
        spelling: &'a [char],
        unit: Said<'a>,
        len: usize,
    ) -> Scan<'a>
        ensures piece { piece_of result ≡ record {
          kind = kind_of kind;
          name = said_in unit.entry;
          spelling = spelling.now;
          length = len;
        } }
        ensures token { result.is_comment ≡ false }
    {
        Scan {
            is_comment: false,
            kind,
            name: unit,
            spelling,
            len,
        }
    }

    /// A comment.
    pub(crate) fn comment(len: usize) -> Scan<'a>
        ensures comment { result.is_comment ≡ true }
        ensures len { result.len ≡ len }
    {
        Scan {
            is_comment: true,
            kind: TokenKind::Whitespace,
            name: Said::Plain(&[]),
            spelling: &[],
            len,
        }
    }
}
