//! The brackets that are open.

ghost use Rattle.std.specs.Prelude.{◌≡◌, ◌∷◌, ◌++◌, [], IfOk, List, MatchOption, OnOk, length};
ghost use Rattle.base_model.specs.Lists.{is_nil};
ghost use Rattle.css_tokens.specs.View.{bracket_of, kind_of};
ghost use Rattle.syntax_model.specs.Brackets as model;
ghost use Rattle.syntax_model.specs.Brackets.{closed_by, closers, open_past, opened_by, with_opened, without_closed};

use crate::open_stack::OpenStack;
use crate::{Bracket, Token, TokenKind};
use std::alloc::Global;
use std::marker::Model;
use stylo_base::NoMemory;

/// The brackets that are open. Contracts see their list, the innermost first.
#[derive(Debug, Drop)]
pub struct OpenBrackets {
    stack: OpenStack,
}

impl Model for OpenBrackets {
    ghost use Rattle.std.specs.Prelude.{List};
    ghost use Rattle.css_tokens.specs.Opened.{AreBrackets, brackets_in};
    ghost use Rattle.syntax_model.specs.Brackets as model;

    ghost Value = { List model.Bracket };

    ghost view = { λ o. brackets_in o.stack };

    ghost invariant = { λ o. AreBrackets o.stack };
}

impl OpenBrackets {
    /// No bracket is open.
    pub fn new(alloc: Global) -> OpenBrackets
        ensures { result ≡ [] }
    {
        OpenBrackets {
            stack: OpenStack::new(alloc),
        }
    }

    /// One bracket is open.
    pub fn one(alloc: Global, bracket: Bracket) -> Result<OpenBrackets, NoMemory>
        ensures { IfOk result (λ brackets. brackets ≡ bracket_of bracket ∷ []) }
    {
        let mut stack = OpenStack::new(alloc);
        stack.begin_bracket(bracket)?;
        Ok(OpenBrackets { stack })
    }

    /// Whether no bracket is open.
    #[inline]
    pub fn is_empty(&self) -> bool
        ensures { result ≡ is_nil self.now }
    {
        self.stack.is_empty()
    }

    /// How many brackets are open.
    pub fn len(&self) -> usize
        ensures { result ≡ length self.now }
    {
        self.stack.len()
    }

    /// Goes on after a token.
    #[inline]
    pub fn pass(&mut self, token: &Token) -> Result<(), NoMemory>
        ensures { OnOk result (self.new ≡ open_past self.old token.now) }
    {
        self.pass_kind(token.kind())
    }

    /// Goes on after a token of this kind. Most kinds are no bracket, and change nothing.
    #[inline]
    pub fn pass_kind(&mut self, kind: TokenKind) -> Result<(), NoMemory>
        ensures { OnOk result
            (self.new ≡ with_opened (opened_by (kind_of kind)) (without_closed self.old (closed_by (kind_of kind)))) }
    {
        if kind.is_bracket() {
            return self.stack.pass(kind);
        }
        Ok(())
    }

    /// The innermost bracket that is open.
    pub fn innermost(&self) -> Option<Bracket>
        ensures { MatchOption result (self.now ≡ [])
            (λ bracket. (outer : List model.Bracket) × (self.now ≡ bracket_of bracket ∷ outer)) }
    {
        self.stack.innermost()
    }

    /// Appends the closers of what is open to the tokens.
    pub fn append_closers(mut self, alloc: Global, tokens: &mut Vec<Token>) -> Result<(), NoMemory>
        ensures { OnOk result (tokens.new.items ≡ tokens.old.items ++ closers self) }
    {
        while let Some(bracket) = self.stack.pop_bracket() {
            tokens.push(Token::closer(alloc, bracket))?;
        }
        Ok(())
    }
}
