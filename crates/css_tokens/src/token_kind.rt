//! The kinds of tokens.

ghost use Rattle.std.specs.Prelude.{◌≡◌, ◌||◌, is_some};
ghost use Rattle.std.specs.Option.{option_map};
ghost use Rattle.syntax_model.specs.TokenKinds.{is_close_round};
ghost use Rattle.syntax_model.specs.Brackets.{closed_by, opened_by};
ghost use Rattle.css_tokens.specs.View.{bracket_of, kind_of};

use crate::Bracket;

/// The kind of a token.
#[derive(Clone, Copy, Debug, PartialEq, Eq)]
pub enum TokenKind {
    Ident,
    Function,
    AtKeyword,
    /// `#` and a name; it may be used as an id where the name is an identifier.
    Hash { is_id: bool },
    String,
    BadString,
    Url,
    BadUrl,
    /// A character that is no other token.
    Delim(char),
    Number { is_integer: bool },
    Percentage,
    Dimension { is_integer: bool },
    /// A run of whitespace.
    Whitespace,
    /// `<!--`
    Cdo,
    /// `-->`
    Cdc,
    Colon,
    Semicolon,
    Comma,
    OpenSquare,
    CloseSquare,
    OpenRound,
    CloseRound,
    OpenCurly,
    CloseCurly,
}

impl TokenKind {
    /// The bracket that a token of the kind opens; a function opens a round one too.
    pub fn opens(self) -> Option<Bracket>
        ensures { option_map bracket_of result ≡ opened_by (kind_of self) }
    {
        match self {
            TokenKind::OpenSquare => Some(Bracket::Square),
            TokenKind::OpenRound | TokenKind::Function => Some(Bracket::Round),
            TokenKind::OpenCurly => Some(Bracket::Curly),
            _ => None,
        }
    }

    /// The bracket that a token of the kind closes, where it is open.
    pub fn closes(self) -> Option<Bracket>
        ensures { option_map bracket_of result ≡ closed_by (kind_of self) }
    {
        match self {
            TokenKind::CloseSquare => Some(Bracket::Square),
            TokenKind::CloseRound => Some(Bracket::Round),
            TokenKind::CloseCurly => Some(Bracket::Curly),
            _ => None,
        }
    }

    /// Whether a token of the kind opens a bracket, or closes one.
    pub fn is_bracket(self) -> bool
        ensures { result ≡ (is_some (opened_by (kind_of self)) || is_some (closed_by (kind_of self))) }
    {
        match self {
            TokenKind::Function => true,
            TokenKind::OpenSquare | TokenKind::OpenRound | TokenKind::OpenCurly => true,
            TokenKind::CloseSquare | TokenKind::CloseRound | TokenKind::CloseCurly => true,
            _ => false,
        }
    }

    /// Whether it is `)`.
    pub fn is_close_round(self) -> bool
        ensures { result ≡ is_close_round (kind_of self) }
    {
        matches!(self, TokenKind::CloseRound)
    }
}
