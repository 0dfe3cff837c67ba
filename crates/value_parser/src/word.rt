//! Words, ignoring ASCII case (css-values-4, section 2.1).

ghost use Rattle.std.specs.Prelude.{◌≡◌, option_map};
ghost use Rattle.std.specs.Str.{chars};
ghost use Rattle.base_model.specs.Text.{ascii_lower};
ghost use Rattle.value_model.specs.Value.{keyword};
ghost use Rattle.property_table.specs.View.{constant_of, value_seen, word_of};
ghost use Rattle.sheet_model.specs.ValueIn.{named_in};

use crate::one_token::ident_of;
use css_tokens::Token;
use property_table::{Constant, Keyword, Value};
use stylo_base::eq_ascii_case;

/// The keyword as a value, where the tokens are it.
pub(crate) fn keyword_of(word: Keyword, tokens: &[Token]) -> Option<Value>
    ensures { option_map value_seen result ≡ named_in (word_of word) (keyword (word_of word)) tokens.now }
{
    named_of(word.text(), Constant::Keyword(word), tokens)
}

/// What a word in lower case is read as, where the tokens are it.
pub(crate) fn named_of(word: &str, read: Constant, tokens: &[Token]) -> Option<Value>
    requires lower { ascii_lower (chars word.now) ≡ chars word.now }
    ensures { option_map value_seen result ≡ named_in (chars word.now) (constant_of read) tokens.now }
{
    let name = ident_of(tokens)?;
    if eq_ascii_case(name.as_str(), word) {
        Some(read.value())
    } else {
        None
    }
}
