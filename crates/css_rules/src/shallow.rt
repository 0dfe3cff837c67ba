//! How deep brackets are nested.

ghost use Rattle.std.specs.Prelude.{◌≡◌, IfOk};
ghost use Rattle.syntax_model.specs.Brackets.{is_shallow};

use css_tokens::{OpenBrackets, Token};
use std::alloc::Global;
use stylo_base::NoMemory;

/// How deep brackets may be nested in a prelude or a value.
const NESTING_LIMIT: usize = 64;

/// Whether brackets are nested no deeper than that. So few tokens are, whatever they open.
pub(crate) fn is_shallow(alloc: Global, tokens: &[Token]) -> Result<bool, NoMemory>
    ensures { IfOk result (λ shallow. shallow ≡ is_shallow tokens.now) }
{
    if tokens.len() <= NESTING_LIMIT {
        return Ok(true);
    }
    let mut brackets = OpenBrackets::new(alloc);
    for token in tokens {
        brackets.pass(token)?;
        if brackets.len() > NESTING_LIMIT {
            return Ok(false);
        }
    }
    Ok(true)
}
