//! Attribute selectors (selectors-4, section 6).

ghost use Rattle.std.specs.Prelude.{◌≡◌, IfOk, option_map};
ghost use Rattle.selector_types.specs.SimpleView.{operator_of, simple_of};
ghost use Rattle.sheet_model.specs.SelectorTokens.{named};
ghost use Rattle.sheet_model.specs.AttributeIn.{attribute_in, compared_in, matcher_at, modifier_in, modifiers, operator_by, value_at};

use crate::kinds::is_text;
use crate::names::is;
use css_tokens::{Cursor, Token, name_of, trimmed};
use selector_types::{AttributeOperator, AttributeTest, Simple};
use std::alloc::Global;
use stylo_base::{Atom, NoMemory, Text};

/// Reads what stands in the brackets of an attribute selector. None: it is none.
#[tactic(auto, unfolding(sheet_model::specs::AttributeIn::attribute_in))]
pub(crate) fn attribute(alloc: Global, tokens: &[Token]) -> Result<Option<Simple>, NoMemory>
    ensures { IfOk result (λ found. option_map simple_of found ≡ attribute_in tokens.now) }
{
    let mut left = Cursor::new(trimmed(tokens));
    let Some(name) = left.take_ident() else {
        return Ok(None);
    };
    left.skip_whitespace();
    compared(alloc, name, &mut left)
}

/// What stands after the attribute's name.
fn compared(alloc: Global, name: &Text, left: &mut Cursor) -> Result<Option<Simple>, NoMemory>
    ensures { IfOk result (λ found. option_map simple_of found ≡ compared_in name.now left.old) }
{
    if left.is_at_end() {
        return Ok(Some(Simple::Attribute(Atom::of_text(name.copy(alloc)?))));
    }
    let Some(operator) = matcher(left) else {
        return Ok(None);
    };
    left.skip_whitespace();
    let Some(value) = value(left) else {
        return Ok(None);
    };
    left.skip_whitespace();
    let Some(case_counts) = modifier(left) else {
        return Ok(None);
    };
    let test = AttributeTest {
        name: Atom::of_text(name.copy(alloc)?),
        operator,
        value: value.copy(alloc)?,
        case_counts,
    };
    Ok(Some(Simple::AttributeCompares(Box::new(alloc, test)?)))
}

/// Consumes what says how the value is compared.
fn matcher(left: &mut Cursor) -> Option<AttributeOperator>
    ensures { option_map (λ operator. (operator_of operator, left.new)) result ≡ matcher_at left.old }
{
    if left.take_delim('=') {
        return Some(AttributeOperator::Equals);
    }
    let operator = operator(left.next()?)?;
    if left.take_delim('=') {
        Some(operator)
    } else {
        None
    }
}

/// The operator that a character before `=` makes.
fn operator(token: &Token) -> Option<AttributeOperator>
    ensures { option_map operator_of result ≡ operator_by token.now.kind }
{
    if token.is_delim('~') {
        Some(AttributeOperator::Includes)
    } else if token.is_delim('|') {
        Some(AttributeOperator::DashMatch)
    } else if token.is_delim('^') {
        Some(AttributeOperator::Prefix)
    } else if token.is_delim('$') {
        Some(AttributeOperator::Suffix)
    } else if token.is_delim('*') {
        Some(AttributeOperator::Substring)
    } else {
        None
    }
}

/// Consumes the value.
fn value<'a>(left: &mut Cursor<'a>) -> Option<&'a Text>
    ensures { option_map (λ value. (value.now, left.new)) result ≡ value_at left.old }
{
    let first = left.next()?;
    if is_text(first) {
        Some(name_of(first))
    } else {
        None
    }
}

/// Whether ASCII case counts, by what is left.
fn modifier(left: &mut Cursor) -> Option<bool>
    ensures { result ≡ modifier_in left.old }
{
    let Some(first) = left.next() else {
        return Some(true);
    };
    if !left.is_at_end() || !first.is_ident() {
        return None;
    }
    modifier_by(name_of(first))
}

/// Whether ASCII case counts, by the modifier's name.
fn modifier_by(name: &Text) -> Option<bool>
    ensures { result ≡ named name.now modifiers }
{
    if is(name, "i") {
        Some(false)
    } else if is(name, "s") {
        Some(true)
    } else {
        None
    }
}
