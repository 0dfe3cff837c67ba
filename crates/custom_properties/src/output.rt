//! The output of an expansion: what is put of it so far.

ghost use Rattle.std.specs.Prelude.{◌≡◌, IfOk, map, option_map, false};
ghost use Rattle.syntax_model.specs.Token.{said};
ghost use Rattle.custom_properties.specs.Output as model;
ghost use Rattle.custom_properties.specs.OutputView.{output_of};

use css_tokens::{CustomValue, TOKEN_LIMIT, Token};
use std::alloc::Global;
use stylo_base::NoMemory;

/// The tokens that are put so far, in normal form and without spans.
#[derive(Drop)]
pub(crate) struct ExpansionOutput {
    tokens: Vec<Token>,
    /// Whether whitespace is to stand before the next token.
    is_spaced: bool,
    /// Whether a token is put of the innermost fallback that is put, or else of the whole.
    has_begun: bool,
}

impl ExpansionOutput {
    /// Nothing is put.
    pub(crate) fn new(alloc: Global) -> ExpansionOutput
        ensures { output_of result ≡ model.first }
    {
        ExpansionOutput {
            tokens: Vec::new(alloc),
            is_spaced: false,
            has_begun: false,
        }
    }

    /// The tokens.
    pub(crate) fn into_tokens(self) -> Vec<Token>
        ensures { result.items ≡ (output_of self).tokens }
    {
        self.tokens
    }

    /// Puts a token at the end. Whether there is room for it.
    fn push(&mut self, token: Token) -> Result<bool, NoMemory>
        ensures { IfOk result (λ fits.
            option_map model.beyond (model.pushed token self.old.tokens.items)
            ≡ model.if_so fits (output_of self.new)) }
    {
        if self.tokens.len() >= TOKEN_LIMIT {
            return Ok(false);
        }
        self.tokens.push(token)?;
        self.is_spaced = false;
        self.has_begun = true;
        Ok(true)
    }

    /// Puts a token that is no whitespace. Whether there is room for it.
    fn put(&mut self, alloc: Global, token: &Token) -> Result<bool, NoMemory>
        ensures { IfOk result (λ fits.
            model.put (said token.now) (output_of self.old) ≡ model.if_so fits (output_of self.new)) }
    {
        if self.is_spaced && !self.push(Token::white_space(alloc))? {
            return Ok(false);
        }
        self.push(token.bare(alloc)?)
    }

    /// Whitespace counts once something stands before it.
    fn note_white(&mut self)
        ensures { output_of self.new ≡ model.noted_white (output_of self.old) }
    {
        if self.has_begun {
            self.is_spaced = true;
        }
    }

    /// Goes on after a token. Whether there is room for it.
    pub(crate) fn place(&mut self, alloc: Global, token: &Token) -> Result<bool, NoMemory>
        ensures { IfOk result (λ fits. model.output_placed (said token.now) (output_of self.old)
            ≡ model.if_so fits (output_of self.new)) }
    {
        if token.is_white() {
            self.note_white();
            return Ok(true);
        }
        self.put(alloc, token)
    }

    /// Goes on after some tokens. Whether there is room for them.
    fn place_all(&mut self, alloc: Global, tokens: &[Token]) -> Result<bool, NoMemory>
        ensures { IfOk result (λ fits. model.output_placed_all (map said tokens.now) (output_of self.old)
            ≡ model.if_so fits (output_of self.new)) }
    {
        for token in tokens {
            if !self.place(alloc, token)? {
                return Ok(false);
            }
        }
        Ok(true)
    }

    /// Goes on after a value. Whether there is room for its tokens.
    #[tactic(auto, using(custom_model::proofs::Said::said_unplaced))]
    pub(crate) fn place_value(
        &mut self,
        alloc: Global,
        value: &CustomValue,
    ) -> Result<bool, NoMemory>
        ensures { IfOk result (λ fits. model.output_placed_all value.now (output_of self.old)
            ≡ model.if_so fits (output_of self.new)) }
    {
        self.place_all(alloc, value.tokens())
    }

    /// A fallback begins. Whether a token was put of what is around it.
    pub(crate) fn begin(&mut self) -> bool
        ensures had { result ≡ (output_of self.old).has_begun }
        ensures begun { output_of self.new ≡ model.begun (output_of self.old) }
    {
        let had_begun = self.has_begun;
        self.has_begun = false;
        had_begun
    }

    /// A fallback ends: whitespace at its end is dropped. If nothing was put of it, the whitespace
    /// before it still counts.
    pub(crate) fn end(&mut self, had_begun: bool)
        ensures { output_of self.new ≡ model.ended had_begun (output_of self.old) }
    {
        self.is_spaced = self.is_spaced && !self.has_begun;
        self.has_begun = self.has_begun || had_begun;
    }
}
