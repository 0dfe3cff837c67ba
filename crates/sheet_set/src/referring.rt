//! Values that refer to custom properties (css-variables-1, section 3).

ghost use Rattle.std.specs.Prelude.{◌≡◌, IfOk};
ghost use Rattle.syntax_model.specs.Token.{said};
ghost use Rattle.custom_model.specs.Parts.{is_var, referring_value_in};
ghost use Rattle.sheet_set.specs.Parts.{has_var};

use css_tokens::{CustomValue, Token, name_of};
use std::alloc::Global;
use stylo_base::{NoMemory, eq_ascii_case};

/// What is kept of tokens that refer to custom properties. Tokens without `var(` refer to none, and are not copied.
pub(crate) fn referring_value(
    alloc: Global,
    tokens: &[Token],
) -> Result<Option<CustomValue>, NoMemory>
    ensures { IfOk result (λ value. value ≡ referring_value_in tokens.now) }
{
    if !has_var(tokens) {
        return Ok(None);
    }
    CustomValue::read_referring(alloc, tokens)
}

/// Whether `var(` is one of the tokens.
fn has_var(tokens: &[Token]) -> bool
    ensures { result ≡ has_var tokens.now }
{
    tokens.iter().any(is_var)
}

/// Whether it is `var(`, ignoring ASCII case.
fn is_var(token: &Token) -> bool
    ensures { result ≡ is_var (said token.now) }
{
    token.is_function() && eq_ascii_case(name_of(token).as_str(), "var")
}
