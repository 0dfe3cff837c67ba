//! The parts of a value (css-variables-1, section 3): tokens, and `var()`s.

ghost use Rattle.std.specs.Prelude.{◌≡◌, ◌<◌, IfOk, IfSome, length, map};
ghost use Rattle.custom_model.specs.Steps.{steps_in};
ghost use Rattle.custom_model.specs.Parts.{is_name, is_var};
ghost use Rattle.css_tokens.specs.Opened.{Opened, front_in, in_var, steps_from};
ghost use Rattle.css_tokens.specs.Steps.{IsNext, steps_behind};
ghost use Rattle.syntax_model.specs.Token.{said};

use super::name::is_custom_name;
use super::unfit::{is_end, is_unfit};
use crate::open_stack::OpenStack;
use crate::trim::without_white;
use crate::wide::is_word;
use crate::{Token, name_of};
use std::alloc::Global;
use std::marker::Model;
use stylo_base::{NoMemory, Text};

/// One step of a reading.
#[derive(Debug, Drop)]
pub enum PartStep<'a> {
    /// A token that stands for itself.
    Token(&'a Token),
    /// A `var()` of this name, without a fallback.
    Alone(&'a Text),
    /// A `var()` of this name, whose fallback begins.
    Begins(&'a Text),
    /// A fallback ends, and its `var()`.
    Ends,
    /// The value ends.
    Finished,
    /// The value is invalid.
    Invalid,
}

/// Reads a value step by step. It holds what is open in a stack of its own, so it takes values of any
/// depth. Contracts see the steps that are left, where the value is valid, and those up to where it
/// is bad.
#[derive(Drop)]
pub struct PartReader<'a> {
    rest: &'a [Token],
    pending: OpenStack,
}

impl<'a> Model for PartReader<'a> {
    ghost use Rattle.std.specs.Prelude.{length, map};
    ghost use Rattle.syntax_model.specs.Token.{said};
    ghost use Rattle.css_tokens.specs.Steps as model;
    ghost use Rattle.css_tokens.specs.Opened.{anywhere, front, steps_from, whole};

    ghost Value = { model.Left };

    ghost view = { λ r. record {
      steps = whole (steps_from anywhere r.pending (map said r.rest.now));
      front = front (steps_from anywhere r.pending (map said r.rest.now));
      tokens = length r.rest.now;
    } };
}

impl<'a> PartReader<'a> {
    /// Before the first token. It takes no memory.
    pub fn new(alloc: Global, tokens: &'a [Token]) -> PartReader<'a>
        ensures steps { result.steps ≡ steps_in (map said tokens.now) }
        ensures front { result.front ≡ front_in (map said tokens.now) }
        ensures tokens { result.tokens ≡ length tokens.now }
    {
        PartReader {
            rest: tokens,
            pending: OpenStack::new(alloc),
        }
    }

    /// The next of the steps up to where the value is bad, and Invalid after them.
    pub fn next(&mut self) -> Result<PartStep<'a>, NoMemory>
        ensures { IfOk result (λ step. IsNext self.old step self.new) }
    {
        let Some((token, rest)) = self.rest.split_first() else {
            if self.pending.is_empty() {
                return Ok(PartStep::Finished);
            }
            return Ok(PartStep::Invalid);
        };
        let kind = token.kind();
        if is_end(&self.pending, kind) {
            self.pending.end_fallback();
            self.rest = rest;
            return Ok(PartStep::Ends);
        }
        if is_unfit(&self.pending, kind) {
            return Ok(PartStep::Invalid);
        }
        if is_var(token) {
            let Some(head) = var_head(rest) else {
                return Ok(PartStep::Invalid);
            };
            if head.has_fallback {
                self.pending.begin_fallback()?;
                self.rest = head.rest;
                return Ok(PartStep::Begins(head.name));
            }
            self.rest = head.rest;
            return Ok(PartStep::Alone(head.name));
        }
        self.pending.pass(kind)?;
        self.rest = rest;
        Ok(PartStep::Token(token))
    }
}

/// The beginning of a `var()`: its name, whether a fallback follows, and the tokens behind.
#[derive(Drop)]
struct VarHead<'a> {
    name: &'a Text,
    has_fallback: bool,
    rest: &'a [Token],
}

/// After `var(`: a name, and its `)` or a comma. None: they are not there.
fn var_head<'a>(tokens: &'a [Token]) -> Option<VarHead<'a>>
    ensures steps { (openers : Opened)
        → steps_from in_var openers (map said tokens.now) ≡ steps_behind openers result }
    ensures fewer { IfSome result (λ h. length h.rest.now < length tokens.now) }
{
    let (name, rest) = without_white(tokens).split_first()?;
    if !is_name(name) {
        return None;
    }
    let (end, rest) = without_white(rest).split_first()?;
    let has_fallback = end.is_comma();
    if !has_fallback && !end.kind().is_close_round() {
        return None;
    }
    Some(VarHead {
        name: name_of(name),
        has_fallback,
        rest,
    })
}

/// Whether it is `var(`, ignoring ASCII case.
fn is_var(token: &Token) -> bool
    ensures { result ≡ is_var (said token.now) }
{
    token.is_function() && is_word(name_of(token).as_str(), "var")
}

/// Whether it is the name of a custom property.
fn is_name(token: &Token) -> bool
    ensures { result ≡ is_name (said token.now) }
{
    token.is_ident() && is_custom_name(name_of(token).as_str())
}
