//! The names in touches.

ghost use Rattle.std.specs.Prelude.{◌≡◌, IfOk, encode_utf8_all};
ghost use Rattle.std.specs.Str.{chars};
ghost use Rattle.base_model.specs.Text.{same_text};
ghost use Rattle.stylo_base.specs.NameKey.{key_of};
ghost use Rattle.dom_edits.specs.TouchNames.{short_of as model_short_of, with_digit as model_with_digit};

use crate::word::is_same_text;
use std::alloc::Global;
use std::marker::Model;
use stylo_base::{Atom, NoMemory, Text, key_of_text};

/// So many bytes a text has at most that is kept as a number.
const SHORT: usize = 7;

/// A name in a touch. A short one is kept as a number, and takes no memory. Contracts see the list of its
/// characters.
#[derive(Drop)]
pub struct TouchName {
    /// The key of the text.
    key: u64,
    /// The text as a number, where it is short, else 0.
    short: u64,
    /// The text, where it is not short, else an empty one.
    long: Text,
}

impl Model for TouchName {
    ghost use Rattle.std.specs.Prelude.{List, ℕ};
    ghost use Rattle.dom_edits.specs.TouchNames.{IsNamed, named_text};

    ghost Value = { List ℕ };

    ghost view = { λ n. named_text n.short n.long };

    ghost invariant = { λ n. IsNamed n.key n.short n.long };
}

impl TouchName {
    /// The name of this text.
    pub fn of(alloc: Global, text: &str) -> Result<TouchName, NoMemory>
        ensures { IfOk result (λ name. name ≡ chars text.now) }
    {
        TouchName::of_keyed(alloc, text, key_of_text(text))
    }

    /// The name of a text that has this key.
    pub(crate) fn of_keyed(alloc: Global, text: &str, key: u64) -> Result<TouchName, NoMemory>
        requires { key ≡ key_of (encode_utf8_all (chars text.now)) }
        ensures { IfOk result (λ name. name ≡ chars text.now) }
    {
        let short = short_of(text);
        let long = if text.len() <= SHORT {
            Text::new(alloc)
        } else {
            Text::of_str(alloc, text)?
        };
        Ok(TouchName { key, short, long })
    }

    /// The key, by which names are compared first.
    #[inline]
    pub fn key(&self) -> u64
        ensures { result ≡ key_of (encode_utf8_all self.now) }
    {
        self.key
    }

    /// Whether two are the same. Most that differ are told apart by their keys.
    #[inline]
    pub fn is(&self, other: &TouchName) -> bool
        ensures { result ≡ same_text self.now other.now }
    {
        if self.key != other.key || self.short != other.short {
            return false;
        }
        self.short != 0 || is_same_long(&self.long, &other.long)
    }

    /// Whether it is the name of the text of an atom.
    pub fn is_of(&self, atom: &Atom) -> bool
        ensures { result ≡ same_text self.now atom.now }
    {
        self.is_text(atom.as_str(), atom.key())
    }

    /// Whether it is the name of a text that has this key.
    fn is_text(&self, text: &str, key: u64) -> bool
        requires { key ≡ key_of (encode_utf8_all (chars text.now)) }
        ensures { result ≡ same_text self.now (chars text.now) }
    {
        if self.key != key || self.short != short_of(text) {
            return false;
        }
        self.short != 0 || is_same_text(self.long.as_str(), text)
    }
}

/// Whether two long texts are the same.
fn is_same_long(one: &Text, other: &Text) -> bool
    ensures { result ≡ same_text one.now other.now }
{
    one.as_str() == other.as_str()
}

/// A short text as a number, or 0: it is longer.
fn short_of(text: &str) -> u64
    ensures { result ≡ model_short_of text.now }
{
    if text.len() > SHORT {
        return 0;
    }
    text.as_bytes()
        .iter()
        .fold(1, |number, byte| with_digit(number, *byte))
}

/// The number of a text once a byte is read.
fn with_digit(number: u64, byte: u8) -> u64
    ensures { result ≡ model_with_digit number byte }
{
    number.wrapping_mul(256).wrapping_add(u64::from(byte))
}
