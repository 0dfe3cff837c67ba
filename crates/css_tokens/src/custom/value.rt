//! The values of custom properties.

ghost use Rattle.std.specs.Prelude.{◌≡◌, ◌↔◌, ◌∷◌, ◌++◌, [], if◌then◌else◌, IfOk, OnOk, IsTrue, false, map};
ghost use Rattle.custom_model.specs.Expand.{IsPlain};
ghost use Rattle.custom_model.specs.Parts.{custom_value_in, referring_value_in};
ghost use Rattle.custom_model.specs.Steps.{steps_in};
ghost use Rattle.custom_model.specs.Value.{normal, spaced, unplaced, white_space};
ghost use Rattle.css_tokens.specs.Validity.{Fits, found_after, is_found_referring, is_found_valid};
ghost use Rattle.syntax_model.specs.Token.{said};

use super::parts::{PartReader, PartStep};
use crate::Token;
use crate::trim::without_white;
use std::alloc::Global;
use std::marker::Model;
use std::sync::Arc;
use stylo_base::NoMemory;

/// How many tokens an expansion may have.
pub const TOKEN_LIMIT: usize = 4096;

/// The value of a custom property (css-variables-1, section 2): tokens without spans, which its
/// copies share. Contracts see what the tokens say.
#[derive(Debug, Drop)]
pub struct CustomValue {
    kept: Arc<KeptTokens>,
}

/// The tokens, and whether the value expands to itself.
#[derive(Debug, Drop)]
struct KeptTokens {
    list: Vec<Token>,
    is_plain: bool,
}

impl Model for CustomValue {
    ghost use Rattle.std.specs.Prelude.{map};
    ghost use Rattle.std.specs.Arc.{arc_value};
    ghost use Rattle.syntax_model.specs.Token.{said};
    ghost use Rattle.custom_model.specs.Value as model;

    ghost Value = { model.CustomValue };

    ghost coded = { model.value_code };

    ghost use Rattle.css_tokens.specs.KeptTokens.{IsKept};

    ghost view = { λ v. map said (arc_value v.kept).list.items };

    ghost invariant = { λ v. IsKept (arc_value v.kept) };
}

impl CustomValue {
    /// What is kept of the tokens of a custom property, in normal form: without whitespace at the
    /// ends, and with one token for each run of whitespace between. None: they are invalid.
    pub fn read(alloc: Global, tokens: &[Token]) -> Result<Option<CustomValue>, NoMemory>
        ensures { IfOk result (λ value. value ≡ custom_value_in tokens.now) }
    {
        let list = normal(alloc, tokens)?;
        let found = read_parts(alloc, &list)?;
        if !found.is_valid() {
            return Ok(None);
        }
        let value = CustomValue::kept(alloc, list, found)?;
        Ok(Some(value))
    }

    /// The same of tokens that refer to custom properties. None: they are invalid, or refer to none.
    pub fn read_referring(alloc: Global, tokens: &[Token]) -> Result<Option<CustomValue>, NoMemory>
        ensures { IfOk result (λ value. value ≡ referring_value_in tokens.now) }
    {
        let list = normal(alloc, tokens)?;
        let found = read_parts(alloc, &list)?;
        if !found.is_referring() {
            return Ok(None);
        }
        let value = CustomValue::kept(alloc, list, found)?;
        Ok(Some(value))
    }

    /// The value of these tokens, which have no spans, and of which this is found.
    fn kept(alloc: Global, list: Vec<Token>, found: Validity) -> Result<CustomValue, NoMemory>
        requires unplaced { list.items ≡ map unplaced (map said list.items) }
        requires found { found ≡ found_after false (steps_in (map said list.items)) }
        ensures { IfOk result (λ value. value ≡ map said list.items) }
    {
        let is_plain = found.is_plain(alloc, &list);
        let kept = KeptTokens { list, is_plain };
        Ok(CustomValue {
            kept: Arc::new(alloc, kept)?,
        })
    }

    /// The value of these tokens, which have no spans.
    pub fn of_tokens(alloc: Global, tokens: Vec<Token>) -> Result<CustomValue, NoMemory>
        requires { tokens.items ≡ map unplaced (map said tokens.items) }
        ensures { IfOk result (λ value. value ≡ map said tokens.items) }
    {
        let found = read_parts(alloc, &tokens)?;
        CustomValue::kept(alloc, tokens, found)
    }

    /// The tokens.
    pub fn tokens(&self) -> &[Token]
        ensures { result.now ≡ map unplaced self.now }
    {
        &self.kept.list
    }

    /// Whether the value expands to itself, whatever other custom properties are: it is valid, refers
    /// to none of them, is in normal form, and is no longer than the limit.
    pub fn is_plain(&self) -> bool
        ensures { IsTrue result ↔ IsPlain self.now }
    {
        self.kept.is_plain
    }

    /// The same value, whose tokens are shared.
    pub fn share(&self) -> Result<CustomValue, NoMemory>
        ensures { IfOk result (λ value. value ≡ self.now) }
    {
        Ok(CustomValue {
            kept: Arc::try_clone(&self.kept)?,
        })
    }

    /// Whether both are one value: the same kinds, names and spellings.
    pub fn is_same(&self, other: &CustomValue) -> bool
        ensures { IsTrue result ↔ (self.now ≡ other.now) }
    {
        are_same(self.tokens(), other.tokens())
    }
}

/// Whether the tokens say the same.
fn are_same(a: &[Token], b: &[Token]) -> bool
    ensures { IsTrue result ↔ (map said a.now ≡ map said b.now) }
{
    if a.len() != b.len() {
        return false;
    }
    for index in 0..a.len() {
        if !a[index].says_same(&b[index]) {
            return false;
        }
    }
    true
}

/// What is found of the tokens of a value.
#[derive(Clone, Copy)]
enum Validity {
    Invalid,
    /// It refers to no custom property.
    Plain,
    Referring,
}

impl Validity {
    /// Whether the value is valid.
    fn is_valid(self) -> bool
        ensures { result ≡ is_found_valid self }
    {
        !matches!(self, Validity::Invalid)
    }

    /// Whether it is valid, and refers to some custom property.
    fn is_referring(self) -> bool
        ensures { result ≡ is_found_referring self }
    {
        matches!(self, Validity::Referring)
    }

    /// Whether the value of these tokens, of which this is found, expands to itself.
    fn is_plain(self, alloc: Global, tokens: &[Token]) -> bool
        requires { self ≡ found_after false (steps_in (map said tokens.now)) }
        ensures { IsTrue result ↔ IsPlain (map said tokens.now) }
    {
        match self {
            Validity::Plain => {}
            _ => return false,
        }
        if tokens.len() > TOKEN_LIMIT {
            return false;
        }
        are_normal(alloc, tokens)
    }
}

/// Whether the tokens are in normal form.
fn are_normal(alloc: Global, tokens: &[Token]) -> bool
    ensures { IsTrue result ↔ (normal (map said tokens.now) ≡ map said tokens.now) }
{
    let Some((first, rest)) = tokens.split_first() else {
        return true;
    };
    if first.is_white() {
        return false;
    }
    are_spaced(&Token::white_space(alloc), rest)
}

/// Whether tokens that come after one that is no whitespace are in normal form with it.
fn are_spaced(space: &Token, tokens: &[Token]) -> bool
    requires { said space.now ≡ white_space }
    ensures { IsTrue result ↔ (spaced false (map said tokens.now) ≡ map said tokens.now) }
{
    let mut pending = false;
    for token in tokens {
        if !fits(space, pending, token) {
            return false;
        }
        pending = token.is_white();
    }
    !pending
}

/// Whether a token may come next in normal form, after whitespace or after another token.
fn fits(space: &Token, pending: bool, token: &Token) -> bool
    requires { said space.now ≡ white_space }
    ensures { IsTrue result ↔ Fits pending (said token.now) }
{
    if !token.is_white() {
        return true;
    }
    !pending && token.says_same(space)
}

/// What the tokens are, as a value.
fn read_parts(alloc: Global, tokens: &[Token]) -> Result<Validity, NoMemory>
    ensures { IfOk result (λ found. found ≡ found_after false (steps_in (map said tokens.now))) }
{
    let mut reader = PartReader::new(alloc, tokens);
    let mut refers = false;
    loop {
        match reader.next()? {
            PartStep::Invalid => return Ok(Validity::Invalid),
            PartStep::Finished if refers => return Ok(Validity::Referring),
            PartStep::Finished => return Ok(Validity::Plain),
            PartStep::Alone(_) | PartStep::Begins(_) | PartStep::Ends => refers = true,
            PartStep::Token(_) => {}
        }
    }
}

/// The tokens in normal form, and of no text.
fn normal(alloc: Global, tokens: &[Token]) -> Result<Vec<Token>, NoMemory>
    ensures { IfOk result (λ list. list.items ≡ map unplaced (normal (map said tokens.now))) }
{
    let mut list = Vec::new(alloc);
    let Some((first, rest)) = without_white(tokens).split_first() else {
        return Ok(list);
    };
    list.push(first.bare(alloc)?)?;
    append_spaced(alloc, rest, &mut list)?;
    Ok(list)
}

/// Appends the tokens with one for each run of whitespace before another, and of no text.
fn append_spaced(alloc: Global, tokens: &[Token], list: &mut Vec<Token>) -> Result<(), NoMemory>
    ensures { OnOk result (list.new.items ≡ list.old.items ++ map unplaced (spaced false (map said tokens.now))) }
{
    let mut pending = false;
    for token in tokens {
        if token.is_white() {
            pending = true;
            continue;
        }
        push_spaced(alloc, pending, token, list)?;
        pending = false;
    }
    Ok(())
}

/// Appends a token, after whitespace if that is pending.
fn push_spaced(
    alloc: Global,
    pending: bool,
    token: &Token,
    list: &mut Vec<Token>,
) -> Result<(), NoMemory>
    ensures { OnOk result (list.new.items ≡ list.old.items
        ++ map unplaced (if pending then white_space ∷ said token.now ∷ [] else said token.now ∷ [])) }
{
    if pending {
        list.push(Token::white_space(alloc))?;
    }
    list.push(token.bare(alloc)?)?;
    Ok(())
}
