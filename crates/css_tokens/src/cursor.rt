//! A reader of tokens.

ghost use Rattle.std.specs.Prelude.{◌≡◌, ◌≤◌, ◌&&◌, ◌∷◌, [], IfOk, OnOk, MatchOption, true, false, length, drop, take, List};
ghost use Rattle.base_model.specs.Lists.{is_nil};
ghost use Rattle.syntax_model.specs.Brackets.{inside, inside_len, open_after, past};
ghost use Rattle.syntax_model.specs.TokenKinds.{is_colon, is_delim, is_function, is_id_hash, is_ident, is_open_square, without_white};
ghost use Rattle.syntax_model.specs.Outside.{from_first, length_before, up_to};
ghost use Rattle.syntax_model.specs.Token as model;
ghost use Rattle.css_tokens.specs.Taken.{IsKept, IsNameTaken, IsTaken};
ghost use Rattle.css_tokens.specs.View.{bracket_of, separates};

use crate::trim::without_white;
use crate::{Bracket, OpenBrackets, Separator, Token, name_of};
use std::alloc::Global;
use std::marker::Model;
use stylo_base::{NoMemory, Text};

/// A place in a list of tokens. Contracts see the tokens that are left.
#[derive(Drop)]
pub struct Cursor<'a> {
    rest: &'a [Token],
}

impl<'a> Model for Cursor<'a> {
    ghost use Rattle.std.specs.Prelude.{List};
    ghost use Rattle.syntax_model.specs.Token as model;

    ghost Value = { List model.Token };

    ghost view = { λ c. c.rest.now };
}

/// Tokens, and the brackets that they leave open.
#[derive(Drop)]
pub struct Part<'a> {
    pub tokens: &'a [Token],
    pub brackets: OpenBrackets,
}

impl<'a> Cursor<'a> {
    /// Before the first token.
    pub fn new(tokens: &'a [Token]) -> Cursor<'a>
        ensures { result ≡ tokens.now }
    {
        Cursor { rest: tokens }
    }

    /// Another cursor at the same place.
    pub fn fork(&self) -> Cursor<'a>
        ensures { result ≡ self.now }
    {
        Cursor { rest: self.rest }
    }

    /// Whether no token is left.
    pub fn is_at_end(&self) -> bool
        ensures { result ≡ is_nil self.now }
    {
        self.rest.is_empty()
    }

    /// The tokens that are left.
    pub fn rest(&self) -> &'a [Token]
        ensures { result.now ≡ self.now }
    {
        self.rest
    }

    /// The next token.
    pub fn peek(&self) -> Option<&'a Token>
        ensures { MatchOption result (self.now ≡ [])
            (λ token. (after : List model.Token) × (self.now ≡ token.now ∷ after)) }
    {
        self.rest.first()
    }

    /// Consumes the next token.
    pub fn next(&mut self) -> Option<&'a Token>
        ensures first { MatchOption result (self.old ≡ []) (λ token. self.old ≡ token.now ∷ self.new) }
        ensures rest { self.new ≡ drop 1 self.old }
    {
        let (first, rest) = self.rest.split_first()?;
        self.rest = rest;
        Some(first)
    }

    /// Consumes whitespace.
    pub fn skip_whitespace(&mut self)
        ensures { self.new ≡ without_white self.old }
    {
        self.rest = without_white(self.rest);
    }

    /// Consumes an identifier, if one is next, and gives its name.
    pub fn take_ident(&mut self) -> Option<&'a Text>
        ensures { MatchOption result (IsKept is_ident self.old self.new)
            (λ name. IsNameTaken is_ident name.now self.old self.new) }
    {
        let (first, rest) = self.rest.split_first()?;
        if !first.is_ident() {
            return None;
        }
        self.rest = rest;
        Some(name_of(first))
    }

    /// Consumes a function's name with its opening bracket, if one is next, and gives the name.
    pub fn take_function(&mut self) -> Option<&'a Text>
        ensures { MatchOption result (IsKept is_function self.old self.new)
            (λ name. IsNameTaken is_function name.now self.old self.new) }
    {
        let (first, rest) = self.rest.split_first()?;
        if !first.is_function() {
            return None;
        }
        self.rest = rest;
        Some(name_of(first))
    }

    /// Consumes a hash that is an identifier, if one is next, and gives its name.
    pub fn take_id_hash(&mut self) -> Option<&'a Text>
        ensures { MatchOption result (IsKept is_id_hash self.old self.new)
            (λ name. IsNameTaken is_id_hash name.now self.old self.new) }
    {
        let (first, rest) = self.rest.split_first()?;
        if !first.is_id_hash() {
            return None;
        }
        self.rest = rest;
        Some(name_of(first))
    }

    /// Consumes this character, if it is next as a token alone, and says whether it is.
    pub fn take_delim(&mut self, c: char) -> bool
        ensures taken { result ≡ true → IsTaken (is_delim c) self.old self.new }
        ensures kept { result ≡ false → IsKept (is_delim c) self.old self.new }
    {
        match self.rest.split_first() {
            Some((first, rest)) if first.is_delim(c) => {
                self.rest = rest;
                true
            }
            _ => false,
        }
    }

    /// Consumes a colon, if one is next, and says whether it is.
    pub fn take_colon(&mut self) -> bool
        ensures taken { result ≡ true → IsTaken is_colon self.old self.new }
        ensures kept { result ≡ false → IsKept is_colon self.old self.new }
    {
        match self.rest.split_first() {
            Some((first, rest)) if first.is_colon() => {
                self.rest = rest;
                true
            }
            _ => false,
        }
    }

    /// Consumes `[`, if it is next, and says whether it is.
    pub fn take_open_square(&mut self) -> bool
        ensures taken { result ≡ true → IsTaken is_open_square self.old self.new }
        ensures kept { result ≡ false → IsKept is_open_square self.old self.new }
    {
        match self.rest.split_first() {
            Some((first, rest)) if first.is_open_square() => {
                self.rest = rest;
                true
            }
            _ => false,
        }
    }

    /// Consumes what is in a bracket that was just opened, and its closer, and gives what is in it: all that is left,
    /// if nothing closes it.
    pub fn inside(&mut self, alloc: Global, bracket: Bracket) -> Result<&'a [Token], NoMemory>
        ensures tokens { IfOk result (λ tokens. tokens.now ≡ inside (bracket_of bracket) self.old) }
        ensures rest { OnOk result (self.new ≡ past (bracket_of bracket) self.old) }
    {
        let len = inside_len(alloc, bracket, self.rest)?;
        let (tokens, closed) = self.rest.split_at(len);
        self.rest = closed;
        self.next();
        Ok(tokens)
    }

    /// Consumes the tokens before the first separator outside brackets: all, if there is none.
    pub fn until(&mut self, alloc: Global, separator: Separator) -> Result<Part<'a>, NoMemory>
        ensures tokens { IfOk result (λ part.
            part.tokens.now ≡ up_to (separates separator) self.old) }
        ensures brackets { IfOk result (λ part. part.brackets ≡ open_after [] part.tokens.now) }
        ensures rest { OnOk result (self.new ≡ from_first (separates separator) self.old) }
    {
        let Length { len, brackets } = length_before(alloc, self.rest, separator)?;
        let (tokens, rest) = self.rest.split_at(len);
        self.rest = rest;
        Ok(Part { tokens, brackets })
    }
}

/// How many tokens come before a separator, and the brackets that they leave open.
#[derive(Drop)]
struct Length {
    len: usize,
    brackets: OpenBrackets,
}

/// The tokens before the first separator outside brackets.
fn length_before(alloc: Global, tokens: &[Token], separator: Separator) -> Result<Length, NoMemory>
    ensures len { IfOk result (λ found.
        found.len ≡ length_before (separates separator) [] tokens.now) }
    ensures inside { IfOk result (λ found. found.len ≤ length tokens.now) }
    ensures brackets { IfOk result (λ found. found.brackets ≡ open_after [] (take found.len tokens.now)) }
{
    let mut brackets = OpenBrackets::new(alloc);
    for (len, token) in tokens.iter().enumerate() {
        if ends(&brackets, token, separator) {
            return Ok(Length { len, brackets });
        }
        brackets.pass(token)?;
    }
    Ok(Length {
        len: tokens.len(),
        brackets,
    })
}

/// Outside brackets a separator ends a part.
fn ends(brackets: &OpenBrackets, token: &Token, separator: Separator) -> bool
    ensures { result ≡ (is_nil brackets.now && separates separator token.now.kind) }
{
    brackets.is_empty() && token.separates(separator)
}

/// How many tokens come before the closer of a bracket that was just opened: all, if there is none.
fn inside_len(alloc: Global, bracket: Bracket, tokens: &[Token]) -> Result<usize, NoMemory>
    ensures value { IfOk result (λ len. len ≡ inside_len (bracket_of bracket ∷ []) tokens.now) }
    ensures inside { IfOk result (λ len. len ≤ length tokens.now) }
{
    let mut brackets = OpenBrackets::one(alloc, bracket)?;
    for (len, token) in tokens.iter().enumerate() {
        brackets.pass(token)?;
        if brackets.is_empty() {
            return Ok(len);
        }
    }
    Ok(tokens.len())
}
