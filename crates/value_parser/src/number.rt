//! Numbers and percentages, in thousandths (css-values-4, section 5).

ghost use Rattle.std.specs.Prelude.{◌≡◌, option_map};
ghost use Rattle.property_table.specs.View.{value_seen};
ghost use Rattle.sheet_model.specs.ValueIn.{is_allowed, number_by, number_in, percentage_by, percentage_in};
ghost use Rattle.syntax_model.specs.Numbers.{thousandths};

use crate::one_token::only_token;
use css_tokens::{Token, TokenKind, value_of};
use property_table::Value;
use stylo_base::Fixed;

/// The number of at least and at most so many thousandths that the tokens are.
pub(crate) fn number_of(least: i64, most: i64, tokens: &[Token]) -> Option<Value>
    ensures { option_map value_seen result ≡ number_in least most tokens.now }
{
    number_by(least, most, only_token(tokens)?)
}

/// The number that the token is.
fn number_by(least: i64, most: i64, token: &Token) -> Option<Value>
    ensures { option_map value_seen result ≡ number_by least most token.now.kind (thousandths token.now.spelling) }
{
    let TokenKind::Number { .. } = token.kind() else {
        return None;
    };
    let amount = value_of(token)?;
    let thousandths = amount.thousandths();
    if least <= thousandths && thousandths <= most {
        Some(Value::Number(amount))
    } else {
        None
    }
}

/// The percentage that the tokens are, where negative ones perhaps are not taken.
pub(crate) fn percentage_of(negative: bool, tokens: &[Token]) -> Option<Value>
    ensures { option_map value_seen result ≡ percentage_in negative tokens.now }
{
    percentage_by(negative, only_token(tokens)?)
}

/// The percentage that the token is.
fn percentage_by(negative: bool, token: &Token) -> Option<Value>
    ensures { option_map value_seen result ≡ percentage_by negative token.now.kind (thousandths token.now.spelling) }
{
    let TokenKind::Percentage = token.kind() else {
        return None;
    };
    let amount = value_of(token)?;
    if is_allowed(negative, amount) {
        Some(Value::Percent(amount))
    } else {
        None
    }
}

/// Whether an amount may be taken, where negative ones perhaps may not.
pub(crate) fn is_allowed(negative: bool, amount: Fixed) -> bool
    ensures { result ≡ is_allowed negative amount }
{
    negative || amount.thousandths() >= 0
}
