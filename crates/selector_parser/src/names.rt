//! Names in selectors.

ghost use Rattle.std.specs.Prelude.{◌≡◌, IsTrue, true};
ghost use Rattle.base_model.specs.Text.{ascii_lower, is_word, same_text};
ghost use Rattle.stylo_base.specs.Ascii.{is_all_ascii};

use stylo_base::{Text, eq_ascii_case};

/// Whether a name is this word, which is in lower-case ASCII, ignoring ASCII case.
pub(crate) fn is(name: &Text, word: &str) -> bool
    requires ascii { is_all_ascii word.now ≡ true }
    requires lower { IsTrue (same_text (ascii_lower word.now) word.now) }
    ensures { result ≡ is_word word.now name.now }
{
    eq_ascii_case(name.as_str(), word)
}
