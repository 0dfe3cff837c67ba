//! What stands between whitespace outside brackets.

ghost use Rattle.std.specs.Prelude.{◌≡◌, ◌∷◌, [], MatchOption};
ghost use Rattle.sheet_model.specs.Shorthands.{slices};

use crate::word::from_white;
use css_tokens::{Token, without_white};
use std::marker::Model;

/// What stands between whitespace outside brackets in a list of tokens. Contracts see the slices that
/// are left.
#[derive(Drop)]
pub(crate) struct Slices<'a> {
    rest: &'a [Token],
}

impl<'a> Model for Slices<'a> {
    ghost use Rattle.std.specs.Prelude.{List};
    ghost use Rattle.syntax_model.specs.Token as model;
    ghost use Rattle.sheet_model.specs.Shorthands.{slices};

    ghost Value = { List (List model.Token) };

    ghost view = { λ s. slices s.rest.now };
}

impl<'a> Slices<'a> {
    /// All slices of the tokens.
    pub fn new(tokens: &'a [Token]) -> Slices<'a>
        ensures { result ≡ slices tokens.now }
    {
        Slices { rest: tokens }
    }

    /// Consumes the next slice.
    pub fn next(&mut self) -> Option<&'a [Token]>
        ensures { MatchOption result (self.old ≡ []) (λ slice. self.old ≡ slice.now ∷ self.new) }
    {
        let tokens = without_white(self.rest);
        if tokens.is_empty() {
            return None;
        }
        let rest = from_white(tokens);
        self.rest = rest;
        Some(&tokens[..tokens.len() - rest.len()])
    }
}
