//! The declarations of a block.

ghost use Rattle.std.specs.Prelude.{◌≡◌, ◌++◌, IfOk, OnOk};
ghost use Rattle.std.specs.Option.{option_to_list};
ghost use Rattle.syntax_model.specs.Brackets.{closers};
ghost use Rattle.syntax_model.specs.RulesIn as model;
ghost use Rattle.css_rules.specs.View.{declarations_of};

use crate::RawDecl;
use crate::at_rule::skip_at_rule;
use crate::declaration::declaration_in;
use css_tokens::{Cursor, OpenBrackets, Part, Separator, Token};
use std::alloc::Global;
use stylo_base::NoMemory;

/// The declarations of a rule's block, or of a `style` attribute, in their order. At-rules are
/// dropped, and so is a piece that is no declaration, or has brackets nested more than 64 deep.
pub fn declaration_list(alloc: Global, tokens: &[Token]) -> Result<Vec<RawDecl>, NoMemory>
    ensures { IfOk result (λ list. declarations_of list.items ≡ model.declarations_in tokens.now) }
{
    let mut list = Vec::new(alloc);
    let mut left = Cursor::new(tokens);
    while let Some(first) = left.peek() {
        if first.is_between() {
            left.next();
            continue;
        }
        if first.is_at_keyword() {
            left.next();
            skip_at_rule(alloc, &mut left)?;
            continue;
        }
        let Part { tokens, brackets } = left.until(alloc, Separator::Semicolon)?;
        append_declaration(alloc, &mut list, tokens, brackets)?;
    }
    Ok(list)
}

/// Appends the declaration that a piece is, if it is one.
fn append_declaration<'a>(
    alloc: Global,
    list: &mut Vec<RawDecl<'a>>,
    tokens: &'a [Token],
    brackets: OpenBrackets,
) -> Result<(), NoMemory>
    ensures { OnOk result (declarations_of list.new.items
        ≡ declarations_of list.old.items ++ option_to_list (model.declaration_in (tokens.now ++ closers brackets))) }
{
    if let Some(declaration) = declaration_in(alloc, tokens, brackets)? {
        list.push(declaration)?;
    }
    Ok(())
}
