//! Values of one token.

ghost use Rattle.std.specs.Prelude.{◌≡◌, option_copied};
ghost use Rattle.sheet_model.specs.ValueIn.{hash_in, ident_in};
ghost use Rattle.value_parser.specs.View.{only};

use css_tokens::{Cursor, Token, name_of};
use stylo_base::Text;

/// The name, where the tokens are one identifier.
pub(crate) fn ident_of(tokens: &[Token]) -> Option<&Text>
    ensures { option_copied result ≡ ident_in tokens.now }
{
    let token = only_token(tokens)?;
    if token.is_ident() {
        Some(name_of(token))
    } else {
        None
    }
}

/// The name, where the tokens are one hash.
pub(crate) fn hash_of(tokens: &[Token]) -> Option<&Text>
    ensures { option_copied result ≡ hash_in tokens.now }
{
    let token = only_token(tokens)?;
    if token.is_hash() {
        Some(name_of(token))
    } else {
        None
    }
}

/// The token, where it is alone.
pub(crate) fn only_token(tokens: &[Token]) -> Option<&Token>
    ensures { option_copied result ≡ only tokens.now }
{
    let mut cursor = Cursor::new(tokens);
    let token = cursor.next()?;
    if cursor.is_at_end() {
        Some(token)
    } else {
        None
    }
}
