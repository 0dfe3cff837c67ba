//! Brackets.

ghost use Rattle.std.specs.Prelude.{◌≡◌};
ghost use Rattle.syntax_model.specs.Brackets.{closer_kind};
ghost use Rattle.css_tokens.specs.View.{bracket_of, kind_of};

use crate::TokenKind;

/// A bracket that some token opens and another closes.
#[derive(Clone, Copy, Debug, PartialEq, Eq)]
pub enum Bracket {
    Square,
    Round,
    Curly,
}

impl Bracket {
    /// The kind of the token that closes the bracket.
    pub fn closer(self) -> TokenKind
        ensures { kind_of result ≡ closer_kind (bracket_of self) }
    {
        match self {
            Bracket::Square => TokenKind::CloseSquare,
            Bracket::Round => TokenKind::CloseRound,
            Bracket::Curly => TokenKind::CloseCurly,
        }
    }
}
