//! Whether the values of several properties are taken.

ghost use Rattle.std.specs.Prelude.{◌≡◌, is_some, map, zip};
ghost use Rattle.base_model.specs.Lists.{every};
ghost use Rattle.property_table.specs.View.{property_of};
ghost use Rattle.sheet_model.specs.ValueIn.{value_in};

use crate::property_value::value;
use css_tokens::Token;
use property_table::PropId;

/// Whether each of the properties takes its part, in their order. It takes no memory.
pub fn are_taken(ids: &[PropId], parts: &[&[Token]]) -> bool
    ensures { result ≡ is_some (every (map (λ pair. value_in pair.0 pair.1)
        (zip (map property_of ids.now) (map (λ part. part.now) parts.now)))) }
{
    ids.iter()
        .zip(parts)
        .all(|(id, part)| value(*id, part).is_some())
}
