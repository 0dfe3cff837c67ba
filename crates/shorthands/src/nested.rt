//! The brackets that are open, up to 64, in no memory of their own.

ghost use Rattle.std.specs.Prelude.{◌≡◌, ◌∷◌, ◌<◌, [], true, false, option_map};
ghost use Rattle.base_model.specs.Lists.{is_nil};
ghost use Rattle.syntax_model.specs.Brackets.{without_closed};
ghost use Rattle.css_tokens.specs.View.{bracket_of};
ghost use Rattle.shorthands.specs.Digits.{bracket_at, first_bracket};

use css_tokens::Bracket;
use std::marker::Model;

/// The least number that has 64 digits in base 4.
const FULL: u128 = 85_070_591_730_234_615_865_843_651_857_942_052_864;

/// Up to 64 brackets that are open. Contracts see their list, the innermost first.
#[derive(Drop)]
pub(crate) struct Nested {
    /// A digit in base 4 for each, from 1 to 3, the innermost last.
    digits: u128,
}

impl Model for Nested {
    ghost use Rattle.std.specs.Prelude.{List};
    ghost use Rattle.syntax_model.specs.Brackets.{Bracket};
    ghost use Rattle.shorthands.specs.Digits.{brackets_in};

    ghost Value = { List Bracket };

    ghost view = { λ n. brackets_in n.digits };
}

impl Nested {
    /// One bracket is open.
    pub fn one(bracket: Bracket) -> Nested
        ensures { result ≡ bracket_of bracket ∷ [] }
    {
        Nested {
            digits: digit_of(bracket),
        }
    }

    /// Whether none is open.
    pub fn is_empty(&self) -> bool
        ensures { result ≡ is_nil self.now }
    {
        self.digits == 0
    }

    /// Goes past a token that closes this bracket, if any: it does if it is the innermost.
    pub fn close(&mut self, bracket: Option<Bracket>)
        ensures { self.new ≡ without_closed self.old (option_map bracket_of bracket) }
    {
        if let (Some(innermost), Some(closed)) = (self.innermost(), bracket) {
            if innermost == closed {
                self.digits /= 4;
            }
        }
    }

    /// Opens one more, if there is room for it, and says whether there is.
    pub fn open(&mut self, bracket: Bracket) -> bool
        ensures opened { result ≡ true → self.new ≡ bracket_of bracket ∷ self.old }
        ensures full { result ≡ false → self.new ≡ self.old }
    {
        if self.digits >= FULL {
            return false;
        }
        self.digits = self.digits * 4 + digit_of(bracket);
        true
    }

    /// The innermost.
    fn innermost(&self) -> Option<Bracket>
        ensures { option_map bracket_of result ≡ first_bracket self.now }
    {
        if self.is_empty() {
            return None;
        }
        Some(match self.digits % 4 {
            1 => Bracket::Square,
            2 => Bracket::Round,
            _ => Bracket::Curly,
        })
    }
}

/// The digit of a bracket.
fn digit_of(bracket: Bracket) -> u128
    ensures bracket { bracket_at result ≡ bracket_of bracket }
    ensures digit { result < 4 }
    ensures some { 0 < result }
{
    match bracket {
        Bracket::Square => 1,
        Bracket::Round => 2,
        Bracket::Curly => 3,
    }
}
