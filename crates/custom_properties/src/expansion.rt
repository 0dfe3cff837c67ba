//! What a value expands to (css-variables-1, section 3).

ghost use Rattle.std.specs.Prelude.{◌≡◌, IfOk, map, option_map};
ghost use Rattle.custom_model.specs.Expand.{expansion};
ghost use Rattle.custom_model.specs.Value.{unplaced};
ghost use Rattle.syntax_model.specs.Token.{said};

use crate::expander::Expander;
use crate::values::Values;
use css_tokens::{PartReader, Token};
use std::alloc::Global;
use stylo_base::NoMemory;

/// The tokens of a value with each `var()` replaced by the value of its name, or else by its
/// fallback. None: the value is invalid, a name has no value where it needs one, or the expansion
/// has too many tokens.
pub(crate) fn expand<V: Values>(
    alloc: Global,
    tokens: &[Token],
    values: &V,
) -> Result<Option<Vec<Token>>, NoMemory>
    ensures { IfOk result (λ o. option_map (λ l. l.items) o
        ≡ option_map (map unplaced) (expansion (V.lookup values.now) (map said tokens.now))) }
{
    let mut reader = PartReader::new(alloc, tokens);
    let mut expander = Expander::new(alloc);
    if expander.run(alloc, &mut reader, values)? {
        Ok(Some(expander.into_tokens()))
    } else {
        Ok(None)
    }
}
