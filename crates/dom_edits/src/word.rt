//! The words of a value.

ghost use Rattle.std.specs.Prelude.{◌≡◌, encode_utf8_all};
ghost use Rattle.std.specs.Str.{chars};
ghost use Rattle.base_model.specs.Text.{same_text};
ghost use Rattle.stylo_base.specs.NameKey.{key_of};

use stylo_base::key_of_text;

/// A word of a value.
#[derive(Clone, Copy)]
pub(crate) struct Word<'a> {
    pub text: &'a str,
    /// Its key, by which words are compared first.
    pub key: u64,
    ghost keyed: { key ≡ key_of (encode_utf8_all (chars text.now)) },
}

impl<'a> Word<'a> {
    /// The word of this text.
    pub fn of(text: &'a str) -> Word<'a>
        ensures { result.text ≡ text.entry }
    {
        Word::keyed(text, key_of_text(text))
    }

    /// The word of a text that has this key.
    #[inline]
    pub fn keyed(text: &'a str, key: u64) -> Word<'a>
        requires { key ≡ key_of (encode_utf8_all (chars text.now)) }
        ensures { result.text ≡ text.entry }
    {
        Word { text, key }
    }

    /// Whether two are the same. Most that differ are told apart by their keys.
    #[inline]
    pub fn is(&self, other: &Word) -> bool
        ensures { result ≡ same_text (chars self.now.text.now) (chars other.now.text.now) }
    {
        if self.key != other.key {
            return false;
        }
        is_same_text(self.text, other.text)
    }
}

impl<'a> Default for Word<'a> {
    ghost use Rattle.std.specs.Prelude.{[]};

    ghost is_default = { λ word. chars word.text.now ≡ [] };

    /// The empty text. No value has such a word.
    #[inline]
    fn default() -> Word<'a> {
        Word::of("")
    }
}

/// Whether two texts are the same.
pub(crate) fn is_same_text(one: &str, other: &str) -> bool
    ensures { result ≡ same_text (chars one.now) (chars other.now) }
{
    one == other
}
