//! The values of a shorthand's longhands, where the shorthand was declared with `var()`
//! (css-variables-1, section 3).

ghost use Rattle.std.specs.Prelude.{◌≡◌, ℕ, map, option_map, slice_get};
ghost use Rattle.sheet_model.specs.Shorthands.{shorthand};
ghost use Rattle.shorthands.specs.View.{short_of};
ghost use Rattle.value_model.specs.Shorthand.{longhands_of};
ghost use Rattle.property_table.specs.View.{property_of, value_seen};
ghost use Rattle.cascade_core.specs.SubstitutedValue.{substituted_seen};
ghost use Rattle.cascade_core.specs.SubstitutedShorthand.{longhand_value};
ghost use Rattle.cascade_core.specs.Tokens.{among, token_meaning, value_place};

use crate::substituted_value::SubstitutedValue;
use css_tokens::{Token, Wide};
use property_table::{PropId, Value};
use shorthands::{Short, split};
use value_parser::{are_taken, value, wide_keyword};

/// The values of a shorthand's longhands, once the `var()`s in its value are substituted.
#[derive(Drop)]
pub(crate) enum SubstitutedShorthand {
    /// Each longhand behaves as with this keyword.
    Keyword(Wide),
    /// A value for each longhand, in the order of the table.
    Values([Option<Value>; 4]),
}

impl SubstitutedShorthand {
    /// Reads the values from tokens. If these are a CSS-wide keyword, it is each longhand's; if the
    /// shorthand does not take them, they behave as `unset`.
    pub(crate) fn of(short: Short, tokens: &[Token]) -> SubstitutedShorthand
        ensures { (p : ℕ) → longhand_value result (longhands_of (short_of short)) p
            ≡ token_meaning p (shorthand (short_of short)) tokens.now }
    {
        if let Some(word) = wide_keyword(tokens) {
            return SubstitutedShorthand::Keyword(word);
        }
        let ids = short.longhands();
        let Some(parts) = split(short, tokens) else {
            return SubstitutedShorthand::Keyword(Wide::Unset);
        };
        let parts = parts.as_slice();
        if !are_taken(ids, parts) {
            return SubstitutedShorthand::Keyword(Wide::Unset);
        }
        SubstitutedShorthand::Values([
            value_place(0, ids, parts),
            value_place(1, ids, parts),
            value_place(2, ids, parts),
            value_place(3, ids, parts),
        ])
    }

    /// The value of one longhand.
    pub(crate) fn value(&self, short: Short, id: PropId) -> SubstitutedValue<Value>
        ensures { substituted_seen value_seen result
            ≡ longhand_value self.now (longhands_of (short_of short)) (property_of id) }
    {
        match self {
            SubstitutedShorthand::Keyword(word) => SubstitutedValue::Keyword(*word),
            SubstitutedShorthand::Values(values) => match among(id, short.longhands(), values) {
                Some(value) => SubstitutedValue::Value(value),
                None => SubstitutedValue::Keyword(Wide::Unset),
            },
        }
    }
}

/// The value of the property at a place, read from the part at that place, if there is one.
fn value_place(place: usize, ids: &[PropId], parts: &[&[Token]]) -> Option<Value>
    ensures { option_map value_seen result
        ≡ value_place place (map property_of ids.now) (map (λ part. part.now) parts.now) }
{
    value(*ids.get(place)?, parts.get(place)?)
}

/// The value of a property, out of the values of these properties.
fn among(id: PropId, ids: &[PropId], values: &[Option<Value>]) -> Option<Value>
    ensures { option_map value_seen result
        ≡ among (property_of id) (map property_of ids.now) (map (option_map value_seen) values.now) }
{
    for place in 0..ids.len() {
        if ids[place] == id {
            return *values.get(place)?;
        }
    }
    None
}
