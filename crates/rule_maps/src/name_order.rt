//! The order of names in a table: by their keys, and those of one key by their text.

ghost use Rattle.std.specs.Prelude.{◌≡◌, encode_utf8_all};
ghost use Rattle.std.specs.Str.{chars};
ghost use Rattle.base_model.specs.Text.{same_text};
ghost use Rattle.stylo_base.specs.NameKey.{key_of};
ghost use Rattle.rule_maps.specs.NameOrder.{name_cmp};

use std::cmp::Ordering;
use stylo_base::Atom;

/// Which of two names comes first.
#[inline]
pub(crate) fn compare(a: &Atom, b: &Atom) -> Ordering
    ensures { result ≡ name_cmp a.now b.now }
{
    match a.key().cmp(&b.key()) {
        Ordering::Equal => a.as_str().cmp(b.as_str()),
        other => other,
    }
}

/// Which comes first, a name or a text with this key.
#[inline]
pub(crate) fn compare_text(name: &Atom, key: u64, text: &str) -> Ordering
    requires { key ≡ key_of (encode_utf8_all (chars text.now)) }
    ensures { result ≡ name_cmp name.now (chars text.now) }
{
    match name.key().cmp(&key) {
        Ordering::Equal => name.as_str().cmp(text),
        other => other,
    }
}

/// Whether two names are one.
#[inline]
pub(crate) fn is_same(a: &Atom, b: &Atom) -> bool
    ensures { result ≡ same_text a.now b.now }
{
    a.key() == b.key() && a.as_str() == b.as_str()
}
