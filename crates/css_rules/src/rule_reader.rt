//! A reader of the rules of a sheet.

ghost use Rattle.std.specs.Prelude.{◌≡◌, ◌∷◌, [], false, true, IfOk, List, MatchOption, None, OnOk, Some};
ghost use Rattle.std.specs.Option.{option_map};
ghost use Rattle.std.specs.Str.{chars};
ghost use Rattle.syntax_model.specs.Brackets.{Bracket, closer};
ghost use Rattle.syntax_model.specs.Rules as model;
ghost use Rattle.syntax_model.specs.SheetRules.{sheet_rules_in};
ghost use Rattle.syntax_model.specs.Token as token;
ghost use Rattle.css_rules.specs.Left.{IsAtEnd, IsReadOn, rules_left};
ghost use Rattle.css_rules.specs.Parser.{IsRead, walk_after, walk_of};
ghost use Rattle.css_rules.specs.Reading.{context_in, kind_in, moved, unread};
ghost use Rattle.css_rules.specs.View.{context_of, edition_of, rule_of, style_of};
ghost use Rattle.css_rules.specs.Walk.{is_skipping, step};

use crate::rule_parser::{Head, ParserState, RuleParser, is_semicolon};
use crate::{Context, Rule, RuleKind, SheetEdition, StyleBlock};
use css_tokens::{Token, TokenList, TokenReader, preprocess};
use std::alloc::Global;
use std::marker::Model;
use std::mem;
use stylo_base::NoMemory;

/// Reads the rules of a sheet's text one by one, and lends what each is of from lists that are used again. A qualified
/// rule is kept where it has a block, and its prelude has brackets nested at most 64 deep; an `@layer` is dropped whole
/// where one of its names is no name, or has more than 64 parts with those of the layers that it is in. Contracts see
/// the rule that was read last and those that are left.
#[derive(Drop)]
pub struct RuleReader {
    tokens: TokenReader,
    parser: RuleParser,
    kind: Option<RuleKind>,
    layer: Context,
}

impl Model for RuleReader {
    ghost use Rattle.css_rules.specs.Reader.{reading_of};
    ghost use Rattle.css_rules.specs.Reading as reading;

    ghost Value = { reading.Reading };

    ghost view = { λ r. reading_of r.tokens r.parser r.kind r.layer };
}

impl RuleReader {
    /// Before the first rule of a text.
    pub fn new(alloc: Global, edition: SheetEdition, text: &str) -> Result<RuleReader, NoMemory>
        ensures { IfOk result (λ reader. reader ≡ unread (sheet_rules_in (edition_of edition) (chars text.now))) }
    {
        let text = preprocess(alloc, text)?;
        let tokens = TokenReader::new(alloc, text.as_str())?;
        Ok(RuleReader {
            tokens,
            parser: RuleParser::new(alloc, edition),
            kind: None,
            layer: Context::none(),
        })
    }

    /// Reads the next rule, and says which kind it is. After an error nothing is known of the rules that are left.
    pub fn next(&mut self, alloc: Global) -> Result<Option<RuleKind>, NoMemory>
        ensures rule { OnOk result (self.new ≡ moved self.old.left) }
        ensures kind { IfOk result (λ kind. kind ≡ option_map kind_in self.new.current) }
    {
        self.parser.forget(alloc);
        if find(alloc, &mut self.tokens, &mut self.parser)? {
            self.kind = Some(RuleKind::Style);
            return Ok(self.kind);
        }
        let Some(layer) = self.parser.layers.pop_front() else {
            self.kind = None;
            return Ok(None);
        };
        self.layer = layer;
        self.kind = Some(RuleKind::Layer);
        Ok(self.kind)
    }

    /// What is before the block of the qualified rule that was read last.
    pub fn prelude(&self) -> &[Token]
        ensures { (rule : model.StyleBlock) → self.now.current ≡ Some (model.style rule) → result.now ≡ rule.prelude }
    {
        self.parser.ended_prelude.as_slice()
    }

    /// What is in the block of the qualified rule that was read last, with the closers of what the text leaves open.
    pub fn block(&self) -> &[Token]
        ensures { (rule : model.StyleBlock) → self.now.current ≡ Some (model.style rule) → result.now ≡ rule.block }
    {
        self.parser.ended_block.as_slice()
    }

    /// What the rule that was read last is in; or the layer that it declares.
    pub fn context(&self) -> &Context
        ensures { (rule : model.Rule) → self.now.current ≡ Some rule → context_of result.now ≡ context_in rule }
    {
        match self.kind {
            Some(RuleKind::Layer) => &self.layer,
            _ => &self.parser.context,
        }
    }

    /// Reads the next rule, and gives it away.
    pub(crate) fn next_rule(&mut self, alloc: Global) -> Result<Option<Rule>, NoMemory>
        ensures rule { IfOk result (λ rule. option_map rule_of rule ≡ (moved self.old.left).current) }
        ensures left { OnOk result (self.new.left ≡ (moved self.old.left).left) }
    {
        match self.next(alloc)? {
            Some(RuleKind::Style) => Ok(Some(Rule::Style(self.take_style(alloc)?))),
            Some(RuleKind::Layer) => Ok(Some(Rule::Layer(self.context().share()?))),
            None => Ok(None),
        }
    }

    /// The qualified rule that was read last, with its lists.
    fn take_style(&mut self, alloc: Global) -> Result<StyleBlock, NoMemory>
        ensures rule { IfOk result (λ style. (rule : model.StyleBlock) →
            self.old.current ≡ Some (model.style rule) → style_of style ≡ rule) }
        ensures left { OnOk result (self.new.left ≡ self.old.left) }
    {
        let prelude = mem::replace(&mut self.parser.ended_prelude, Vec::new(alloc));
        let block = mem::replace(&mut self.parser.ended_block, Vec::new(alloc));
        let context = self.parser.context.share()?;
        Ok(StyleBlock {
            prelude: TokenList::of_vec(prelude),
            block: TokenList::of_vec(block),
            context,
        })
    }
}

/// Reads on up to a rule, and says whether it is a qualified one, which ended then. If not, layers were declared, or
/// all was read.
fn find(alloc: Global, tokens: &mut TokenReader, parser: &mut RuleParser) -> Result<bool, NoMemory>
    ensures rules { IfOk result (λ ended.
        rules_left (walk_of parser.old) tokens.old ≡ rules_left (walk_after ended parser.new) tokens.new) }
    ensures end { IfOk result (λ ended. ended ≡ false → parser.new.layers.items ≡ [] →
        rules_left (walk_of parser.new) tokens.new ≡ []) }
{
    while parser.layers.is_empty() {
        let Some(ended) = read_on(alloc, tokens, parser)? else {
            parser.finish(alloc)?;
            return Ok(false);
        };
        if ended {
            return Ok(true);
        }
    }
    Ok(false)
}

/// Reads on in the text, or the closer of what its end leaves open in a rule, and says whether a qualified rule ended.
/// Nothing, if all was read.
fn read_on(
    alloc: Global,
    tokens: &mut TokenReader,
    parser: &mut RuleParser,
) -> Result<Option<bool>, NoMemory>
    requires { parser.old.layers.items ≡ [] }
    ensures { IfOk result (λ read. MatchOption read
        (IsAtEnd (walk_of parser.old) tokens.old (walk_of parser.new) tokens.new)
        (λ ended. IsReadOn (walk_of parser.old) tokens.old (walk_after ended parser.new) tokens.new)) }
{
    if let Some(ended) = read_tokens(alloc, tokens, parser)? {
        return Ok(Some(ended));
    }
    read_closer(alloc, parser)
}

/// Reads tokens of the text, up to one with which a qualified rule may end.
fn read_tokens(
    alloc: Global,
    tokens: &mut TokenReader,
    parser: &mut RuleParser,
) -> Result<Option<bool>, NoMemory>
    requires { parser.old.layers.items ≡ [] }
    ensures { IfOk result (λ read. IsRead read parser.old tokens.old parser.new tokens.new) }
{
    match parser.state {
        ParserState::Between => read_between(alloc, tokens, parser),
        ParserState::Dropped | ParserState::Prelude(Head::Other) => read_past(
            alloc, tokens, parser,
        ),
        ParserState::Prelude(head) => read_in_prelude(alloc, head, tokens, parser),
        ParserState::Block => read_in_block(alloc, tokens, parser),
    }
}

/// Between rules.
fn read_between(
    alloc: Global,
    tokens: &mut TokenReader,
    parser: &mut RuleParser,
) -> Result<Option<bool>, NoMemory>
    requires state { parser.old.state ≡ ParserState.Between }
    requires layers { parser.old.layers.items ≡ [] }
    ensures { IfOk result (λ read. IsRead read parser.old tokens.old parser.new tokens.new) }
{
    let Some(kind) = tokens.append(alloc, &mut parser.prelude)? else {
        return Ok(None);
    };
    parser.begin(kind)?;
    Ok(Some(false))
}

/// Where nothing of a token counts but its kind.
fn read_past(
    alloc: Global,
    tokens: &mut TokenReader,
    parser: &mut RuleParser,
) -> Result<Option<bool>, NoMemory>
    requires state { is_skipping parser.old.state ≡ true }
    requires layers { parser.old.layers.items ≡ [] }
    ensures { IfOk result (λ read. IsRead read parser.old tokens.old parser.new tokens.new) }
{
    let Some(kind) = tokens.pass() else {
        return Ok(None);
    };
    parser.skip(alloc, kind)?;
    Ok(Some(false))
}

/// In a prelude that is kept, up to a token that may end it.
fn read_in_prelude(
    alloc: Global,
    head: Head,
    tokens: &mut TokenReader,
    parser: &mut RuleParser,
) -> Result<Option<bool>, NoMemory>
    requires state { parser.old.state ≡ ParserState.Prelude head }
    requires kept { is_skipping parser.old.state ≡ false }
    requires layers { parser.old.layers.items ≡ [] }
    ensures { IfOk result (λ read. IsRead read parser.old tokens.old parser.new tokens.new) }
{
    while let Some(kind) = tokens.append(alloc, &mut parser.prelude)? {
        if kind.is_bracket() || is_semicolon(kind) {
            parser.go_on_in_prelude(alloc, head, kind)?;
            return Ok(Some(false));
        }
    }
    Ok(None)
}

/// In the block of a qualified rule, up to a token that may end it.
fn read_in_block(
    alloc: Global,
    tokens: &mut TokenReader,
    parser: &mut RuleParser,
) -> Result<Option<bool>, NoMemory>
    requires state { parser.old.state ≡ ParserState.Block }
    requires layers { parser.old.layers.items ≡ [] }
    ensures { IfOk result (λ read. IsRead read parser.old tokens.old parser.new tokens.new) }
{
    while let Some(kind) = tokens.append(alloc, &mut parser.block)? {
        if kind.is_bracket() || parser.pending.is_empty() {
            let ended = parser.pass_in_block(alloc, kind)?;
            return Ok(Some(ended));
        }
    }
    Ok(None)
}

/// Reads the closer of the innermost bracket that is open in a rule.
fn read_closer(alloc: Global, parser: &mut RuleParser) -> Result<Option<bool>, NoMemory>
    requires { parser.old.layers.items ≡ [] }
    ensures { IfOk result (λ read. MatchOption read
        ((parser.old.pending ≡ []) × (parser.new ≡ parser.old))
        (λ ended. (innermost : Bracket) × (outer : List Bracket) × (parser.old.pending ≡ innermost ∷ outer)
        × (walk_after ended parser.new ≡ step (walk_of parser.old) (closer innermost)))) }
{
    let Some(bracket) = parser.pending.innermost() else {
        return Ok(None);
    };
    let ended = parser.take(alloc, Token::closer(alloc, bracket))?;
    Ok(Some(ended))
}
