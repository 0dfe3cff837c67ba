//! The CSS-wide keywords.

ghost use Rattle.std.specs.Prelude.{◌≡◌, IsTrue, map, true};
ghost use Rattle.std.specs.Option.{option_map};
ghost use Rattle.std.specs.Str.{chars};
ghost use Rattle.base_model.specs.Text.{ascii_lower, is_word, same_text};
ghost use Rattle.stylo_base.specs.Ascii.{is_all_ascii};
ghost use Rattle.syntax_model.specs.Wide.{wide_named};
ghost use Rattle.syntax_model.specs.Token.{said};
ghost use Rattle.custom_model.specs.Computed.{wide_of as wide_in};
ghost use Rattle.css_tokens.specs.View.{wide_of};

use crate::{Token, name_of};
use stylo_base::eq_ascii_case;

/// A keyword that every property takes (css-cascade-5, section 7.3).
#[derive(Clone, Copy, Debug, PartialEq, Eq)]
pub enum Wide {
    Inherit,
    Initial,
    Unset,
    Revert,
    RevertLayer,
}

impl Wide {
    /// The keyword that a text is, ignoring ASCII case.
    pub fn named(text: &str) -> Option<Wide>
        ensures { option_map wide_of result ≡ wide_named (chars text.now) }
    {
        if is_word(text, "inherit") {
            Some(Wide::Inherit)
        } else if is_word(text, "initial") {
            Some(Wide::Initial)
        } else if is_word(text, "unset") {
            Some(Wide::Unset)
        } else if is_word(text, "revert") {
            Some(Wide::Revert)
        } else if is_word(text, "revert-layer") {
            Some(Wide::RevertLayer)
        } else {
            None
        }
    }
}

/// The CSS-wide keyword that the tokens are, ignoring ASCII case. It takes no memory.
pub fn wide_keyword(tokens: &[Token]) -> Option<Wide>
    ensures { option_map wide_of result ≡ wide_in (map said tokens.now) }
{
    match tokens {
        [token] if token.is_ident() => Wide::named(name_of(token).as_str()),
        _ => None,
    }
}

/// Whether a text is this word, which is in lower-case ASCII, ignoring ASCII case.
pub(crate) fn is_word(text: &str, word: &str) -> bool
    requires ascii { is_all_ascii word.now ≡ true }
    requires lower { IsTrue (same_text (ascii_lower word.now) word.now) }
    ensures { result ≡ is_word word.now (chars text.now) }
{
    eq_ascii_case(text, word)
}
