//! Lists of tokens.

ghost use Rattle.std.specs.Prelude.{◌≡◌};

use crate::Token;
use std::marker::Model;

/// A list of tokens.
#[derive(Debug, Drop)]
pub struct TokenList {
    list: Vec<Token>,
}

impl Model for TokenList {
    ghost use Rattle.std.specs.Prelude.{List};
    ghost use Rattle.syntax_model.specs.Token as model;

    ghost Value = { List model.Token };

    ghost view = { λ t. t.list.items };
}

impl TokenList {
    /// The tokens of `list`. It takes no memory.
    pub fn of_vec(list: Vec<Token>) -> TokenList
        ensures { result ≡ list.items }
    {
        TokenList { list }
    }

    /// The tokens.
    pub fn as_slice(&self) -> &[Token]
        ensures { result.now ≡ self.now }
    {
        self.list.as_slice()
    }
}
