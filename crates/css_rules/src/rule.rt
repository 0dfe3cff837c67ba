//! Rules and declarations.

ghost use Rattle.std.specs.Prelude.{◌≡◌, IfOk};
ghost use Rattle.syntax_model.specs.SheetRules.{no_context};
ghost use Rattle.css_rules.specs.View.{context_of, decl_value_of};

use css_tokens::{Token, TokenList};
use layer_order::LayerName;
use stylo_base::{NoMemory, Text};

/// What a rule is in: for now its cascade layer.
#[derive(Drop)]
pub struct Context {
    pub layer: LayerName,
}

impl Context {
    /// What is in no layer. It takes no memory.
    pub fn none() -> Context
        ensures { context_of result ≡ no_context }
    {
        Context {
            layer: LayerName::none(),
        }
    }

    /// The same context. It shares the parts of the layer's name.
    pub fn share(&self) -> Result<Context, NoMemory>
        ensures { IfOk result (λ context. context_of context ≡ context_of self.now) }
    {
        Ok(Context {
            layer: self.layer.share()?,
        })
    }
}

/// A qualified rule: what is before its block, what is in it, and what it is in. Where the sheet ends in the block, the
/// closers of what is open are in it.
#[derive(Drop)]
pub struct StyleBlock {
    pub prelude: TokenList,
    pub block: TokenList,
    pub context: Context,
}

/// What the text of a sheet gives: a qualified rule, or a layer that it declares at this place.
#[derive(Drop)]
pub enum Rule {
    Style(StyleBlock),
    Layer(Context),
}

/// Which kind of rule it is.
#[derive(Clone, Copy, Debug, PartialEq, Eq)]
pub enum RuleKind {
    Style,
    Layer,
}

/// Which text of a sheet it is: the number of the sheet, and an edition that is 0 until the text is replaced.
#[derive(Clone, Copy, Debug)]
pub struct SheetEdition {
    pub sheet: u32,
    pub edition: u32,
}

/// A declaration as it is written: its name, and its value without whitespace at both ends and
/// without `!important`.
#[derive(Debug, Drop)]
pub struct RawDecl<'a> {
    pub name: &'a Text,
    pub value: DeclValue<'a>,
    pub important: bool,
}

/// The value of a declaration.
#[derive(Debug, Drop)]
pub enum DeclValue<'a> {
    /// Tokens of the list that the declaration is in.
    Lent(&'a [Token]),
    /// A copy of them with the closers of what is open, where the list ends in the value.
    Closed(TokenList),
}

impl DeclValue<'_> {
    /// The tokens.
    pub fn as_slice(&self) -> &[Token]
        ensures { result.now ≡ decl_value_of self.now }
    {
        match self {
            DeclValue::Lent(tokens) => tokens,
            DeclValue::Closed(tokens) => tokens.as_slice(),
        }
    }
}
