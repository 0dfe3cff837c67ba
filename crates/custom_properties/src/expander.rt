//! The expansion of a value, step by step.

ghost use Rattle.std.specs.Prelude.{◌≡◌, IfOk, IsTrue};
ghost use Rattle.syntax_model.specs.Token.{said};
ghost use Rattle.custom_properties.specs.Expanding as model;
ghost use Rattle.custom_properties.specs.Output.{if_so};
ghost use Rattle.custom_properties.specs.ExpanderView.{state_of};

use crate::output::ExpansionOutput;
use crate::values::Values;
use css_tokens::{PartReader, PartStep, Token};
use std::alloc::Global;
use std::collections::VecDeque;
use stylo_base::{NoMemory, Text};

/// A fallback that is open.
#[derive(Clone, Copy)]
pub(crate) enum Fallback {
    /// Passed over.
    Passed,
    /// Put. Whether a token was put of what is around it.
    Put { had_begun: bool },
}

/// Expands a value in one pass over its steps. It holds the fallbacks that are open in a stack of
/// its own, so it takes values of any depth.
#[derive(Drop)]
pub(crate) struct Expander {
    output: ExpansionOutput,
    /// The innermost first.
    fallbacks: VecDeque<Fallback>,
}

impl Expander {
    /// Before the first step.
    pub(crate) fn new(alloc: Global) -> Expander
        ensures { state_of result ≡ model.started }
    {
        Expander {
            output: ExpansionOutput::new(alloc),
            fallbacks: VecDeque::new(alloc),
        }
    }

    /// The tokens of the expansion.
    pub(crate) fn into_tokens(self) -> Vec<Token>
        ensures { result.items ≡ (state_of self).output.tokens }
    {
        self.output.into_tokens()
    }

    /// Takes the steps that are left. Whether the value is valid, each name that stands for its
    /// value has one, and there is room for all tokens.
    pub(crate) fn run<V: Values>(
        &mut self,
        alloc: Global,
        reader: &mut PartReader<'_>,
        values: &V,
    ) -> Result<bool, NoMemory>
        ensures { IfOk result (λ is.
            model.put_from (V.lookup values.now) (state_of self.old) reader.old.steps
            ≡ if_so is (state_of self.new).output.tokens) }
    {
        loop {
            match reader.next()? {
                PartStep::Finished => return Ok(true),
                PartStep::Invalid => return Ok(false),
                PartStep::Token(token) => {
                    if !self.token(alloc, token)? {
                        return Ok(false);
                    }
                }
                PartStep::Alone(name) => {
                    if !self.alone(alloc, name, values)? {
                        return Ok(false);
                    }
                }
                PartStep::Begins(name) => {
                    if !self.begin(alloc, name, values)? {
                        return Ok(false);
                    }
                }
                PartStep::Ends => self.end(),
            }
        }
    }

    /// Whether the innermost fallback is passed over.
    fn is_passing(&self) -> bool
        ensures { result ≡ model.is_passing (state_of self.now).fallbacks }
    {
        matches!(self.fallbacks.front(), Some(Fallback::Passed))
    }

    /// Goes on after a token that stands for itself. Whether there is room for it.
    fn token(&mut self, alloc: Global, token: &Token) -> Result<bool, NoMemory>
        ensures { IfOk result (λ fits. model.token_step (said token.now) (state_of self.old)
            ≡ if_so fits (state_of self.new)) }
    {
        if self.is_passing() {
            return Ok(true);
        }
        self.output.place(alloc, token)
    }

    /// Goes on after a `var()` without a fallback. Whether the name has a value, with room for it.
    fn alone<V: Values>(&mut self, alloc: Global, name: &Text, values: &V) -> Result<bool, NoMemory>
        ensures { IfOk result (λ fits.
            model.alone_step (V.lookup values.now name.now) (state_of self.old)
            ≡ if_so fits (state_of self.new)) }
    {
        if self.is_passing() {
            return Ok(true);
        }
        match values.value(name) {
            None => Ok(false),
            Some(value) => self.output.place_value(alloc, value),
        }
    }

    /// A `var()` with a fallback begins: its value is put and the fallback passed over, or there is
    /// no value, and the fallback is put. Whether there is room for the value.
    fn begin<V: Values>(&mut self, alloc: Global, name: &Text, values: &V) -> Result<bool, NoMemory>
        ensures { IfOk result (λ fits.
            model.begin_step (V.lookup values.now name.now) (state_of self.old)
            ≡ if_so fits (state_of self.new)) }
    {
        if self.is_passing() {
            self.fallbacks.push_front(Fallback::Passed)?;
            return Ok(true);
        }
        let Some(value) = values.value(name) else {
            let had_begun = self.output.begin();
            self.fallbacks.push_front(Fallback::Put { had_begun })?;
            return Ok(true);
        };
        self.fallbacks.push_front(Fallback::Passed)?;
        self.output.place_value(alloc, value)
    }

    /// A fallback ends.
    fn end(&mut self)
        ensures { state_of self.new ≡ model.end_step (state_of self.old) }
    {
        match self.fallbacks.pop_front() {
            None | Some(Fallback::Passed) => {}
            Some(Fallback::Put { had_begun }) => self.output.end(had_begun),
        }
    }
}
