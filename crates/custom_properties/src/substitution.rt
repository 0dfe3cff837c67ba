//! Values put in the place of `var()`.

ghost use Rattle.std.specs.Prelude.{◌≡◌, IfOk, map, option_map};
ghost use Rattle.std.specs.FinMap as finmap;
ghost use Rattle.custom_model.specs.Expand.{expansion};
ghost use Rattle.custom_model.specs.Value.{unplaced};
ghost use Rattle.syntax_model.specs.Token.{said};

use crate::expansion::expand;
use css_tokens::{CustomMap, Token};
use std::alloc::Global;
use stylo_base::NoMemory;

/// The tokens of a value with each `var()` replaced (css-variables-1, section 3), by the computed
/// values of the custom properties. None: the value is invalid at computed-value time.
pub fn substitute(
    alloc: Global,
    tokens: &[Token],
    values: &CustomMap,
) -> Result<Option<Vec<Token>>, NoMemory>
    ensures { IfOk result (λ o. option_map (λ l. l.items) o
        ≡ option_map (map unplaced) (expansion (finmap.get values.now) (map said tokens.now))) }
{
    expand(alloc, tokens, values)
}
