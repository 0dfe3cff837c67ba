//! What is open in a list of tokens.

ghost use Rattle.std.specs.Prelude.{◌≡◌, ◌∷◌, [], MatchOption, None, OnErr, OnOk, Some, length, not};
ghost use Rattle.base_model.specs.Lists.{is_nil};
ghost use Rattle.custom_model.specs.Parts.{is_unmatched};
ghost use Rattle.css_tokens.specs.Opened as opened;
ghost use Rattle.css_tokens.specs.View.{bracket_of, kind_of};
ghost use Rattle.syntax_model.specs.Brackets.{closed_by};

use crate::{Bracket, TokenKind};
use std::alloc::Global;
use std::collections::VecDeque;
use std::marker::Model;
use stylo_base::NoMemory;

/// A bracket, or the fallback of a `var()`.
#[derive(Clone, Copy, Debug)]
enum OpenPart {
    Bracket(Bracket),
    Fallback,
}

/// What is open. Contracts see its list, the innermost first, in which nothing stands for a fallback.
#[derive(Debug, Drop)]
pub(crate) struct OpenStack {
    /// The innermost first.
    parts: VecDeque<OpenPart>,
}

impl Model for OpenStack {
    ghost use Rattle.std.specs.Prelude.{map as mapped};
    ghost use Rattle.css_tokens.specs.Opened as model;
    ghost use Rattle.css_tokens.specs.OpenView.{part_of};

    ghost Value = { model.Opened };

    ghost view = { λ o. mapped part_of o.parts.items };
}

impl OpenStack {
    /// Nothing is open.
    pub(crate) fn new(alloc: Global) -> OpenStack
        ensures { result ≡ [] }
    {
        OpenStack {
            parts: VecDeque::new(alloc),
        }
    }

    /// Whether nothing is open.
    #[inline]
    pub(crate) fn is_empty(&self) -> bool
        ensures { result ≡ is_nil self.now }
    {
        self.parts.is_empty()
    }

    /// How much is open.
    pub(crate) fn len(&self) -> usize
        ensures { result ≡ length self.now }
    {
        self.parts.len()
    }

    /// Whether the innermost is a fallback.
    pub(crate) fn is_in_fallback(&self) -> bool
        ensures { result ≡ opened.is_in_fallback self.now }
    {
        matches!(self.parts.front(), Some(OpenPart::Fallback))
    }

    /// Whether the innermost is a bracket.
    pub(crate) fn is_in_bracket(&self) -> bool
        ensures { result ≡ not (is_nil (opened.brackets_in self.now)) }
    {
        matches!(self.parts.front(), Some(OpenPart::Bracket(_)))
    }

    /// Whether a token of this kind is a closer that closes nothing here.
    pub(crate) fn is_unmatched(&self, kind: TokenKind) -> bool
        ensures { result ≡ is_unmatched (opened.brackets_in self.now) (kind_of kind) }
    {
        let Some(bracket) = kind.closes() else {
            return false;
        };
        match self.parts.front() {
            Some(OpenPart::Bracket(innermost)) => *innermost != bracket,
            _ => true,
        }
    }

    /// A bracket begins.
    pub(crate) fn begin_bracket(&mut self, bracket: Bracket) -> Result<(), NoMemory>
        ensures { OnOk result (self.new ≡ Some (bracket_of bracket) ∷ self.old) }
    {
        self.parts.push_front(OpenPart::Bracket(bracket))?;
        Ok(())
    }

    /// Goes on after a token of this kind that stands for itself.
    pub(crate) fn pass(&mut self, kind: TokenKind) -> Result<(), NoMemory>
        ensures passed { OnOk result (self.new ≡ opened.beyond self.old (kind_of kind)) }
        ensures closed { OnErr result (self.new ≡ opened.without_bracket self.old (closed_by (kind_of kind))) }
    {
        if let Some(bracket) = kind.closes() {
            self.close(bracket);
        }
        if let Some(bracket) = kind.opens() {
            self.parts.push_front(OpenPart::Bracket(bracket))?;
        }
        Ok(())
    }

    /// A closer closes the innermost bracket if it is of its kind.
    fn close(&mut self, bracket: Bracket)
        ensures { self.new ≡ opened.without_bracket self.old (Some (bracket_of bracket)) }
    {
        if let Some(OpenPart::Bracket(innermost)) = self.parts.front() {
            if *innermost == bracket {
                self.parts.pop_front();
            }
        }
    }

    /// The innermost, if it is a bracket.
    pub(crate) fn innermost(&self) -> Option<Bracket>
        ensures { MatchOption result (opened.brackets_in self.now ≡ [])
            (λ bracket. (openers : opened.Opened) × (self.now ≡ Some (bracket_of bracket) ∷ openers)) }
    {
        match self.parts.front() {
            Some(OpenPart::Bracket(innermost)) => Some(*innermost),
            _ => None,
        }
    }

    /// Takes the innermost away, if it is a bracket.
    pub(crate) fn pop_bracket(&mut self) -> Option<Bracket>
        ensures { MatchOption result (opened.brackets_in self.old ≡ [])
            (λ bracket. self.old ≡ Some (bracket_of bracket) ∷ self.new) }
    {
        match self.parts.front() {
            Some(OpenPart::Bracket(innermost)) => {
                let bracket = *innermost;
                self.parts.pop_front();
                Some(bracket)
            }
            _ => None,
        }
    }

    /// A fallback begins.
    pub(crate) fn begin_fallback(&mut self) -> Result<(), NoMemory>
        ensures { OnOk result (self.new ≡ None ∷ self.old) }
    {
        self.parts.push_front(OpenPart::Fallback)?;
        Ok(())
    }

    /// The innermost fallback ends.
    pub(crate) fn end_fallback(&mut self)
        ensures { self.new ≡ opened.outside self.old }
    {
        self.parts.pop_front();
    }
}
