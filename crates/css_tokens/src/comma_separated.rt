//! Lists of tokens with commas between their parts.

ghost use Rattle.std.specs.Prelude.{◌≡◌, ◌∷◌, [], IfOk, MatchOption};
ghost use Rattle.syntax_model.specs.Outside.{parts_between};
ghost use Rattle.syntax_model.specs.TokenKinds.{is_comma};

use crate::{Cursor, Separator, Token};
use std::alloc::Global;
use std::marker::Model;
use stylo_base::NoMemory;

/// The parts between the commas outside brackets, one by one. Contracts see those that are left.
#[derive(Drop)]
pub struct CommaSeparated<'a> {
    /// The next part, and all after it. None after the last.
    rest: Option<&'a [Token]>,
}

impl<'a> Model for CommaSeparated<'a> {
    ghost use Rattle.std.specs.Prelude.{List, option_copied};
    ghost use Rattle.css_tokens.specs.Separated.{parts_left};
    ghost use Rattle.syntax_model.specs.Token as model;

    ghost Value = { List (List model.Token) };

    ghost view = { λ c. parts_left (option_copied c.rest) };
}

impl<'a> CommaSeparated<'a> {
    /// Before the first part.
    pub fn new(tokens: &'a [Token]) -> CommaSeparated<'a>
        ensures { result ≡ parts_between is_comma tokens.now }
    {
        CommaSeparated { rest: Some(tokens) }
    }

    /// Consumes the next part, and the comma after it.
    pub fn next(&mut self, alloc: Global) -> Result<Option<&'a [Token]>, NoMemory>
        ensures { IfOk result (λ found.
            MatchOption found (self.old ≡ []) (λ part. self.old ≡ part.now ∷ self.new)) }
    {
        let Some(tokens) = self.rest else {
            return Ok(None);
        };
        let mut left = Cursor::new(tokens);
        let part = left.until(alloc, Separator::Comma)?;
        self.rest = match left.next() {
            Some(_comma) => Some(left.rest()),
            None => None,
        };
        Ok(Some(part.tokens))
    }
}
