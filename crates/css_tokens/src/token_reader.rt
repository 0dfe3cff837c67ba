//! A reader of the tokens of a text.

ghost use Rattle.std.specs.Prelude.{◌≡◌, ◌≤◌, ◌++◌, ◌∷◌, [], IfOk, IsTrue, MatchOption, OnOk, drop, false, length};
ghost use Rattle.std.specs.Str.{chars};
ghost use Rattle.syntax_model.specs.Pieces.{starts_comment};
ghost use Rattle.syntax_model.specs.Preprocess.{is_preprocessed};
ghost use Rattle.syntax_model.specs.TokensIn.{tokens_in};
ghost use Rattle.css_tokens.specs.Reader.{IsAppended, IsPassed, tokens_left};
ghost use Rattle.css_tokens.specs.View.{kind_of};

use crate::characters::characters_of;
use crate::pieces::scan;
use crate::production::starts_comment;
use crate::quick::{Simple, plain_ident, simple_token};
use crate::{Token, TokenKind};
use std::alloc::Global;
use std::marker::Model;
use stylo_base::NoMemory;

/// Reads the tokens of a text one by one. Contracts see the tokens that are left.
#[derive(Drop)]
pub struct TokenReader {
    text: Vec<char>,
    place: usize,
}

impl Model for TokenReader {
    ghost use Rattle.std.specs.Prelude.{◌≤◌, List, length as len};
    ghost use Rattle.syntax_model.specs.Token as model;
    ghost use Rattle.css_tokens.specs.Reader.{tokens_left};

    ghost Value = { List model.Token };

    ghost view = { λ r. tokens_left r.place r.text.items };

    ghost invariant = { λ r. r.place ≤ len r.text.items };
}

impl TokenReader {
    /// Before the first token of a text that `preprocess` gave (css-syntax-3, section 4).
    pub fn new(alloc: Global, text: &str) -> Result<TokenReader, NoMemory>
        requires { IsTrue (is_preprocessed (chars text.now)) }
        ensures { IfOk result (λ reader. reader ≡ tokens_in (chars text.now)) }
    {
        let text = characters_of(alloc, text)?;
        Ok(TokenReader { text, place: 0 })
    }

    /// Reads the next token. After an error nothing is known of the tokens that are left.
    pub fn next(&mut self, alloc: Global) -> Result<Option<Token>, NoMemory>
        ensures first { IfOk result (λ first. MatchOption first (self.old ≡ [])
            (λ token. self.old ≡ token ∷ self.new)) }
        ensures rest { OnOk result (self.new ≡ drop 1 self.old) }
    {
        let all = self.text.as_slice();
        let start = past_comments(all, self.place);
        let text = all.split_at(start).1;
        if text.is_empty() {
            self.place = start;
            return Ok(None);
        }
        let scan = scan(text);
        let token = Token::of_scan(alloc, start, &scan)?;
        self.place = start + scan.len;
        Ok(Some(token))
    }

    /// Reads the next token, appends it to a list, and says of which kind it is. After an error nothing is known of the
    /// tokens that are left.
    pub fn append(
        &mut self,
        alloc: Global,
        list: &mut Vec<Token>,
    ) -> Result<Option<TokenKind>, NoMemory>
        ensures first { IfOk result (λ first. MatchOption first
            ((self.old ≡ []) × (list.new ≡ list.old))
            (λ kind. IsAppended (kind_of kind) self.old self.new list.old.items list.new.items)) }
        ensures rest { OnOk result (self.new ≡ drop 1 self.old) }
    {
        let text = self.text.as_slice().split_at(self.place).1;
        if let Some(Simple { kind, len }) = simple_token(text) {
            list.push(Token::simple(alloc, kind, self.place, len))?;
            self.place += len;
            return Ok(Some(kind));
        }
        if let Some(name) = plain_ident(text) {
            let len = name.len();
            list.push(Token::ident(alloc, self.place, name)?)?;
            self.place += len;
            return Ok(Some(TokenKind::Ident));
        }
        self.append_found(alloc, list)
    }

    /// The same, by all productions.
    fn append_found(
        &mut self,
        alloc: Global,
        list: &mut Vec<Token>,
    ) -> Result<Option<TokenKind>, NoMemory>
        ensures first { IfOk result (λ first. MatchOption first
            ((self.old ≡ []) × (list.new ≡ list.old))
            (λ kind. IsAppended (kind_of kind) self.old self.new list.old.items list.new.items)) }
        ensures rest { OnOk result (self.new ≡ drop 1 self.old) }
    {
        let Some(token) = self.next(alloc)? else {
            return Ok(None);
        };
        let kind = token.kind();
        list.push(token)?;
        Ok(Some(kind))
    }

    /// Passes the next token, and says of which kind it is. It takes no memory.
    pub fn pass(&mut self) -> Option<TokenKind>
        ensures first { MatchOption result (self.old ≡ [])
            (λ kind. IsPassed (kind_of kind) self.old self.new) }
        ensures rest { self.new ≡ drop 1 self.old }
    {
        let all = self.text.as_slice();
        let start = past_comments(all, self.place);
        let text = all.split_at(start).1;
        if text.is_empty() {
            self.place = start;
            return None;
        }
        let scan = scan(text);
        self.place = start + scan.len;
        Some(scan.kind)
    }
}

/// The place after the comments that begin at a place.
fn past_comments(text: &[char], place: usize) -> usize
    requires { place ≤ length text.now }
    ensures same { tokens_left place text.now ≡ tokens_left result text.now }
    ensures inside { result ≤ length text.now }
    ensures past { starts_comment (drop result text.now) ≡ false }
{
    let mut start = place;
    let mut rest = text.split_at(place).1;
    while starts_comment(rest) {
        let len = scan(rest).len;
        start += len;
        rest = rest.split_at(len).1;
    }
    start
}
