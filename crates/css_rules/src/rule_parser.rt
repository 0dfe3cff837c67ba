//! The rules of a sheet, token by token.

ghost use Rattle.std.specs.Prelude.{◌≡◌, ◌&&◌, ◌++◌, ◌∷◌, [], false, true, IfOk, List, OnOk};
ghost use Rattle.base_model.specs.Lists.{is_nil};
ghost use Rattle.syntax_model.specs.Token as model;
ghost use Rattle.syntax_model.specs.TokenKinds.{is_at_keyword, is_close_curly, is_open_curly, is_semicolon};
ghost use Rattle.syntax_model.specs.RulesIn.{is_between_rules};
ghost use Rattle.syntax_model.specs.SheetRules.{is_layer_name};
ghost use Rattle.css_tokens.specs.View.{kind_of};
ghost use Rattle.css_rules.specs.Parser.{ended_of, walk_after, walk_of};
ghost use Rattle.css_rules.specs.View.{context_of, edition_of};
ghost use Rattle.css_rules.specs.Walk as walk;

use crate::found::{counted, declare};
use crate::layer_names::block_layer;
use crate::shallow::is_shallow;
use crate::{Context, SheetEdition};
use css_tokens::{OpenBrackets, Token, TokenKind, name_of};
use std::alloc::Global;
use std::collections::VecDeque;
use std::mem;
use stylo_base::{NoMemory, Text, eq_ascii_case};

/// What begins a rule: nothing of its own, `@layer`, or another at-keyword.
#[derive(Clone, Copy)]
pub(crate) enum Head {
    Qualified,
    Layer,
    Other,
}

/// Where a parser is: between rules, before the block of one, in the block of a qualified rule, or in a block that is
/// dropped.
#[derive(Clone, Copy)]
pub(crate) enum ParserState {
    Between,
    Prelude(Head),
    Block,
    Dropped,
}

/// A list that held more tokens than this gives its room back.
const ROOM_KEPT: usize = 4096;

/// The layers that were declared and are not yet given out, and how many anonymous ones there were; what the layers
/// whose blocks are open are in, innermost first, and what the next rule is in; what was read of that rule: its prelude
/// and its block, as far as they are kept, and the brackets that are open; and the prelude and the block of the rule
/// that ended last.
#[derive(Drop)]
pub(crate) struct RuleParser {
    pub edition: SheetEdition,
    pub layers: VecDeque<Context>,
    pub anonymous: u32,
    pub outer: VecDeque<Context>,
    pub context: Context,
    pub state: ParserState,
    pub prelude: Vec<Token>,
    pub block: Vec<Token>,
    pub pending: OpenBrackets,
    pub ended_prelude: Vec<Token>,
    pub ended_block: Vec<Token>,
}

impl RuleParser {
    /// Before the first token.
    pub fn new(alloc: Global, edition: SheetEdition) -> RuleParser
        ensures { walk_of result ≡ walk.start (edition_of edition) }
    {
        RuleParser {
            edition,
            layers: VecDeque::new(alloc),
            anonymous: 0,
            outer: VecDeque::new(alloc),
            context: Context::none(),
            state: ParserState::Between,
            prelude: Vec::new(alloc),
            block: Vec::new(alloc),
            pending: OpenBrackets::new(alloc),
            ended_prelude: Vec::new(alloc),
            ended_block: Vec::new(alloc),
        }
    }

    /// Consumes the next token, and says whether a qualified rule that is kept ended with it.
    pub fn take(&mut self, alloc: Global, token: Token) -> Result<bool, NoMemory>
        requires { self.old.layers.items ≡ [] }
        ensures { IfOk result (λ ended. walk_after ended self.new ≡ walk.step (walk_of self.old) token) }
    {
        let kind = token.kind();
        match self.state {
            ParserState::Between => {
                self.prelude.push(token)?;
                self.begin(kind)?;
            }
            ParserState::Prelude(Head::Other) => self.skip_in_prelude(alloc, kind)?,
            ParserState::Prelude(head) => {
                self.prelude.push(token)?;
                self.go_on_in_prelude(alloc, head, kind)?;
            }
            ParserState::Block => {
                self.block.push(token)?;
                return self.go_on_in_block(alloc, kind);
            }
            ParserState::Dropped => self.skip_in_dropped(kind)?,
        }
        Ok(false)
    }

    /// Consumes the next token, of which nothing counts but its kind.
    pub fn skip(&mut self, alloc: Global, kind: TokenKind) -> Result<(), NoMemory>
        requires { walk.is_skipping self.old.state ≡ true }
        ensures { OnOk result (walk_of self.new ≡ walk.skipped (walk_of self.old) (kind_of kind)) }
    {
        match self.state {
            ParserState::Prelude(_) => self.skip_in_prelude(alloc, kind),
            _ => self.skip_in_dropped(kind),
        }
    }

    /// Goes on between rules, after a token of this kind, which was appended to the prelude: leaves the block of a
    /// layer, skips the token, or begins a rule with it. It stays there where it begins a qualified one.
    pub fn begin(&mut self, kind: TokenKind) -> Result<(), NoMemory>
        requires { self.old.state ≡ ParserState.Between }
        ensures { (read : List model.Token) (token : model.Token) → self.old.prelude.items ≡ read ++ token ∷ []
            → kind_of kind ≡ token.kind → OnOk result
            (walk_of self.new ≡ walk.begun (walk.with_prelude read (walk_of self.old)) token) }
    {
        if self.ends_layer(kind) {
            self.prelude.pop();
            self.leave();
            return Ok(());
        }
        if is_between_rules(self.is_at_top(), kind) {
            self.prelude.pop();
            return Ok(());
        }
        if is_at_keyword(kind) {
            self.begin_at_rule();
            return Ok(());
        }
        if is_open_curly(kind) {
            self.prelude.pop();
            return self.pass_kind(ParserState::Block, kind);
        }
        self.pass_kind(ParserState::Prelude(Head::Qualified), kind)
    }

    /// Begins an at-rule, whose keyword was appended to the prelude.
    fn begin_at_rule(&mut self)
        ensures { (read : List model.Token) (token : model.Token) → self.old.prelude.items ≡ read ++ token ∷ []
            → walk_of self.new ≡ walk.at_rule_begun (walk.with_prelude read (walk_of self.old)) token }
    {
        if let Some(keyword) = self.prelude.pop() {
            self.state = ParserState::Prelude(head_named(name_of(&keyword)));
        }
    }

    /// Goes on after a token of this kind, which was appended to the prelude of the rule. It stays there unless it ends
    /// the prelude.
    pub fn go_on_in_prelude(
        &mut self,
        alloc: Global,
        head: Head,
        kind: TokenKind,
    ) -> Result<(), NoMemory>
        requires { walk.is_skipping (ParserState.Prelude head) ≡ false }
        ensures { (read : List model.Token) (token : model.Token) → self.old.prelude.items ≡ read ++ token ∷ []
            → kind_of kind ≡ token.kind → OnOk result
            (walk_of self.new ≡ walk.step_in_prelude head (walk.with_prelude read (walk_of self.old)) token) }
    {
        if self.ends_statement(head, kind) {
            self.prelude.pop();
            return self.end_statement(alloc, head);
        }
        if self.ends_layer(kind) {
            self.prelude.pop();
            self.end_statement(alloc, head)?;
            self.leave();
            return Ok(());
        }
        if self.opens_block(kind) {
            self.prelude.pop();
            return self.open(alloc, head, kind);
        }
        self.pass_kind(ParserState::Prelude(head), kind)
    }

    /// In the prelude of an at-rule that is not `@layer`.
    fn skip_in_prelude(&mut self, alloc: Global, kind: TokenKind) -> Result<(), NoMemory>
        ensures { OnOk result (walk_of self.new ≡ walk.skipped_in_prelude (walk_of self.old) (kind_of kind)) }
    {
        if self.ends_statement(Head::Other, kind) {
            return self.end_statement(alloc, Head::Other);
        }
        if self.ends_layer(kind) {
            self.end_statement(alloc, Head::Other)?;
            self.leave();
            return Ok(());
        }
        if self.opens_block(kind) {
            return self.pass_kind(ParserState::Dropped, kind);
        }
        self.pass_kind(ParserState::Prelude(Head::Other), kind)
    }

    /// Goes on after a token of this kind, which was appended to the block of a qualified rule, and says whether a rule
    /// that is kept ended with it. It stays there unless it ends the block.
    pub fn go_on_in_block(&mut self, alloc: Global, kind: TokenKind) -> Result<bool, NoMemory>
        requires state { self.old.state ≡ ParserState.Block }
        requires layers { self.old.layers.items ≡ [] }
        ensures { (read : List model.Token) (token : model.Token) → self.old.block.items ≡ read ++ token ∷ []
            → kind_of kind ≡ token.kind → IfOk result
            (λ ended. walk_after ended self.new ≡ walk.step_in_block (walk.with_block read (walk_of self.old)) token) }
    {
        if kind.is_bracket() || self.pending.is_empty() {
            return self.pass_in_block(alloc, kind);
        }
        Ok(false)
    }

    /// The same, where the token may end the block.
    pub fn pass_in_block(&mut self, alloc: Global, kind: TokenKind) -> Result<bool, NoMemory>
        requires { self.old.layers.items ≡ [] }
        ensures { (read : List model.Token) (token : model.Token) → self.old.block.items ≡ read ++ token ∷ []
            → kind_of kind ≡ token.kind → IfOk result
            (λ ended. walk_after ended self.new ≡ walk.step_in_block (walk.with_block read (walk_of self.old)) token) }
    {
        self.pass_kind(ParserState::Block, kind)?;
        if self.pending.is_empty() {
            self.block.pop();
            return self.end_rule(alloc);
        }
        Ok(false)
    }

    /// In a block that is dropped.
    fn skip_in_dropped(&mut self, kind: TokenKind) -> Result<(), NoMemory>
        ensures { OnOk result (walk_of self.new ≡ walk.skipped_in_dropped (walk_of self.old) (kind_of kind)) }
    {
        self.pass_kind(ParserState::Dropped, kind)?;
        if self.pending.is_empty() {
            self.state = ParserState::Between;
        }
        Ok(())
    }

    /// Goes past a token of this kind into a state.
    fn pass_kind(&mut self, state: ParserState, kind: TokenKind) -> Result<(), NoMemory>
        ensures walk { OnOk result (walk_of self.new ≡ walk.past_kind state (walk_of self.old) (kind_of kind)) }
        ensures layers { self.new.layers.items ≡ self.old.layers.items }
    {
        self.pending.pass_kind(kind)?;
        self.state = state;
        Ok(())
    }

    /// Outside brackets a semicolon ends an at-rule without a block.
    fn ends_statement(&self, head: Head, kind: TokenKind) -> bool
        ensures { result ≡ (is_nil self.now.pending && walk.ends_statement head (kind_of kind)) }
    {
        match head {
            Head::Qualified => false,
            Head::Layer | Head::Other => self.pending.is_empty() && is_semicolon(kind),
        }
    }

    /// Outside the brackets of a rule a `}` ends the block of a layer.
    fn ends_layer(&self, kind: TokenKind) -> bool
        ensures { result ≡ walk.ends_layer (walk_of self.now) (kind_of kind) }
    {
        !self.outer.is_empty() && self.pending.is_empty() && is_close_curly(kind)
    }

    /// Whether no layer's block is open.
    fn is_at_top(&self) -> bool
        ensures { result ≡ is_nil (walk_of self.now).outer }
    {
        self.outer.is_empty()
    }

    /// Outside brackets a curly bracket opens the block.
    fn opens_block(&self, kind: TokenKind) -> bool
        ensures { result ≡ (is_nil self.now.pending && is_open_curly (kind_of kind)) }
    {
        self.pending.is_empty() && is_open_curly(kind)
    }

    /// Goes on after the block of a layer.
    fn leave(&mut self)
        ensures { walk_of self.new ≡ walk.out (walk_of self.old) }
    {
        if let Some(context) = self.outer.pop_front() {
            self.context = context;
        }
    }

    /// Goes into the block of a rule, which a token of this kind opens.
    fn open(&mut self, alloc: Global, head: Head, kind: TokenKind) -> Result<(), NoMemory>
        ensures { OnOk result (walk_of self.new ≡ walk.opened head (walk_of self.old) (kind_of kind)) }
    {
        match head {
            Head::Qualified => self.pass_kind(ParserState::Block, kind),
            Head::Layer => self.open_layer(alloc, kind),
            Head::Other => self.pass_kind(ParserState::Dropped, kind),
        }
    }

    /// Goes into the block of `@layer`.
    fn open_layer(&mut self, alloc: Global, kind: TokenKind) -> Result<(), NoMemory>
        ensures { OnOk result (walk_of self.new ≡ walk.opened Head.Layer (walk_of self.old) (kind_of kind)) }
    {
        let prelude = mem::replace(&mut self.prelude, Vec::new(alloc));
        let place = self.anonymous;
        self.anonymous = counted(place, prelude.as_slice())?;
        match block_layer(
            alloc,
            self.edition,
            place,
            &self.context,
            prelude.as_slice(),
        )? {
            Some(layer) => self.enter(layer),
            None => self.pass_kind(ParserState::Dropped, kind),
        }
    }

    /// Declares a layer, and goes into its block.
    fn enter(&mut self, layer: Context) -> Result<(), NoMemory>
        ensures { OnOk result (walk_of self.new ≡ walk.inside (context_of layer) (walk_of self.old)) }
    {
        self.layers.push_back(layer.share()?)?;
        let outer = mem::replace(&mut self.context, layer);
        self.outer.push_front(outer)?;
        self.state = ParserState::Between;
        Ok(())
    }

    /// Ends a rule without a block.
    fn end_statement(&mut self, alloc: Global, head: Head) -> Result<(), NoMemory>
        ensures { OnOk result (walk_of self.new ≡ walk.ended head (walk_of self.old)) }
    {
        let prelude = mem::replace(&mut self.prelude, Vec::new(alloc));
        self.state = ParserState::Between;
        match head {
            Head::Layer => declare(alloc, &mut self.layers, &self.context, prelude.as_slice()),
            Head::Qualified | Head::Other => Ok(()),
        }
    }

    /// Ends the rule of the prelude and the block, and says whether it is kept.
    fn end_rule(&mut self, alloc: Global) -> Result<bool, NoMemory>
        requires { self.old.layers.items ≡ [] }
        ensures { IfOk result (λ ended. walk_after ended self.new ≡ walk.rule_ended (walk_of self.old)) }
    {
        self.state = ParserState::Between;
        if !is_shallow(alloc, self.prelude.as_slice())? {
            empty(alloc, &mut self.prelude);
            empty(alloc, &mut self.block);
            return Ok(false);
        }
        mem::swap(&mut self.prelude, &mut self.ended_prelude);
        mem::swap(&mut self.block, &mut self.ended_block);
        empty(alloc, &mut self.prelude);
        empty(alloc, &mut self.block);
        Ok(true)
    }

    /// Forgets the rule that ended last.
    pub fn forget(&mut self, alloc: Global)
        ensures { walk_of self.new ≡ walk_of self.old }
    {
        empty(alloc, &mut self.ended_prelude);
        empty(alloc, &mut self.ended_block);
    }

    /// The tokens end here.
    pub fn finish(&mut self, alloc: Global) -> Result<(), NoMemory>
        ensures { OnOk result (walk_of self.new ≡ walk.ended_at self.old.state (walk_of self.old)) }
    {
        match self.state {
            ParserState::Prelude(head) => self.end_statement(alloc, head),
            _ => Ok(()),
        }
    }
}

/// Takes the tokens out of a list, which keeps its room unless it is large.
fn empty(alloc: Global, list: &mut Vec<Token>)
    ensures { list.new.items ≡ [] }
{
    if list.len() > ROOM_KEPT {
        *list = Vec::new(alloc);
    } else {
        list.clear();
    }
}

/// Whether a token of this kind is skipped between rules.
fn is_between_rules(top: bool, kind: TokenKind) -> bool
    ensures { result ≡ is_between_rules top (kind_of kind) }
{
    match kind {
        TokenKind::Whitespace => true,
        TokenKind::Cdo | TokenKind::Cdc => top,
        _ => false,
    }
}

/// Whether it is the kind of an at-keyword.
fn is_at_keyword(kind: TokenKind) -> bool
    ensures { result ≡ is_at_keyword (kind_of kind) }
{
    matches!(kind, TokenKind::AtKeyword)
}

/// What an at-keyword of this name begins.
fn head_named(name: &Text) -> Head
    ensures { result ≡ walk.head_named name.now }
{
    if is_layer_name(name) {
        Head::Layer
    } else {
        Head::Other
    }
}

/// Whether it is the name of `@layer`.
fn is_layer_name(name: &Text) -> bool
    ensures { result ≡ is_layer_name name.now }
{
    eq_ascii_case(name.as_str(), "layer")
}

/// Whether it is the kind of `;`.
pub(crate) fn is_semicolon(kind: TokenKind) -> bool
    ensures { result ≡ is_semicolon (kind_of kind) }
{
    matches!(kind, TokenKind::Semicolon)
}

/// Whether it is the kind of `{`.
fn is_open_curly(kind: TokenKind) -> bool
    ensures { result ≡ is_open_curly (kind_of kind) }
{
    matches!(kind, TokenKind::OpenCurly)
}

/// Whether it is the kind of `}`.
fn is_close_curly(kind: TokenKind) -> bool
    ensures { result ≡ is_close_curly (kind_of kind) }
{
    matches!(kind, TokenKind::CloseCurly)
}
