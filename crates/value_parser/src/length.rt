//! Lengths (css-values-4, section 6).

ghost use Rattle.std.specs.Prelude.{◌≡◌, option_map};
ghost use Rattle.property_table.specs.View.{value_seen};
ghost use Rattle.sheet_model.specs.ValueIn.{length_by, length_in};
ghost use Rattle.syntax_model.specs.Numbers.{thousandths};

use crate::length_unit::in_unit;
use crate::number::is_allowed;
use crate::one_token::only_token;
use css_tokens::{Token, TokenKind, name_of, value_of};
use property_table::Value;

/// The length that the tokens are, where negative ones and a number that is 0 perhaps are not taken.
pub(crate) fn length_of(negative: bool, zero: bool, tokens: &[Token]) -> Option<Value>
    ensures { option_map value_seen result ≡ length_in negative zero tokens.now }
{
    length_by(negative, zero, only_token(tokens)?)
}

/// The length that the token is.
fn length_by(negative: bool, zero: bool, token: &Token) -> Option<Value>
    ensures { option_map value_seen result
        ≡ length_by negative zero token.now.kind token.now.name (thousandths token.now.spelling) }
{
    match token.kind() {
        TokenKind::Dimension { .. } => {
            let amount = value_of(token)?;
            if is_allowed(negative, amount) {
                in_unit(name_of(token).as_str(), amount)
            } else {
                None
            }
        }
        TokenKind::Number { .. } if zero => {
            let amount = value_of(token)?;
            if amount.thousandths() == 0 {
                Some(Value::Pixels(amount))
            } else {
                None
            }
        }
        _ => None,
    }
}
