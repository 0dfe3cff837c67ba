//! The declaration that a piece of a list is.

ghost use Rattle.std.specs.Prelude.{◌≡◌, ◌++◌, IfOk};
ghost use Rattle.std.specs.Option.{option_map};
ghost use Rattle.syntax_model.specs.Brackets.{closers};
ghost use Rattle.syntax_model.specs.RulesIn as model;
ghost use Rattle.css_rules.specs.View.{declaration_of};

use crate::important::before_important;
use crate::shallow::is_shallow;
use crate::{DeclValue, RawDecl};
use css_tokens::{
    Cursor, OpenBrackets, Token, TokenList, trimmed, without_white, without_white_end,
};
use std::alloc::Global;
use stylo_base::{NoMemory, Text};

/// The declaration that a piece and the closers of what it leaves open are, if they are one.
pub(crate) fn declaration_in(
    alloc: Global,
    tokens: &[Token],
    brackets: OpenBrackets,
) -> Result<Option<RawDecl>, NoMemory>
    ensures { IfOk result (λ found.
        option_map declaration_of found ≡ model.declaration_in (tokens.now ++ closers brackets)) }
{
    let mut left = Cursor::new(tokens);
    let Some(name) = left.take_ident() else {
        return Ok(None);
    };
    left.skip_whitespace();
    if !left.take_colon() {
        return Ok(None);
    }
    let declaration = named_declaration(alloc, name, left.rest(), brackets)?;
    if is_shallow(alloc, declaration.value.as_slice())? {
        Ok(Some(declaration))
    } else {
        Ok(None)
    }
}

/// The declaration of a name, and of tokens with the closers of what they leave open.
fn named_declaration<'a>(
    alloc: Global,
    name: &'a Text,
    tokens: &'a [Token],
    brackets: OpenBrackets,
) -> Result<RawDecl<'a>, NoMemory>
    ensures { IfOk result (λ declaration. declaration_of declaration
        ≡ model.named_declaration name.now (tokens.now ++ closers brackets)) }
{
    if brackets.is_empty() {
        return Ok(lent(name, tokens));
    }
    let mut list = copy_all(alloc, without_white(tokens))?;
    brackets.append_closers(alloc, &mut list)?;
    Ok(RawDecl {
        name,
        value: DeclValue::Closed(TokenList::of_vec(list)),
        important: false,
    })
}

/// The declaration of a name, and of tokens that leave nothing open.
fn lent<'a>(name: &'a Text, tokens: &'a [Token]) -> RawDecl<'a>
    ensures { declaration_of result ≡ model.named_declaration name.now tokens.now }
{
    let value = trimmed(tokens);
    match before_important(value) {
        Some(before) => RawDecl {
            name,
            value: DeclValue::Lent(without_white_end(before)),
            important: true,
        },
        None => RawDecl {
            name,
            value: DeclValue::Lent(value),
            important: false,
        },
    }
}

/// A copy of the tokens.
fn copy_all(alloc: Global, tokens: &[Token]) -> Result<Vec<Token>, NoMemory>
    ensures { IfOk result (λ list. list.items ≡ tokens.now) }
{
    let mut list = Vec::with_capacity(alloc, tokens.len())?;
    for token in tokens {
        list.push(token.copy(alloc)?)?;
    }
    Ok(list)
}
