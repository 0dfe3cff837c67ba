//! A text with its key.

ghost use Rattle.std.specs.Prelude.{◌≡◌, IfOk, encode_utf8_all};
ghost use Rattle.std.specs.Str.{chars};
ghost use Rattle.stylo_base.specs.NameKey.{key_of};

use crate::{NoMemory, Text, key_of_text};
use std::alloc::Global;
use std::marker::Model;

/// A text that names are compared with, and its key, so that two of them are told apart by a number.
/// Contracts see the list of its characters.
#[derive(Debug, Drop)]
pub struct Atom {
    key: u64,
    text: Text,
}

impl Model for Atom {
    ghost use Rattle.std.specs.Prelude.{◌≡◌, List, ℕ, encode_utf8_all};
    ghost use Rattle.stylo_base.specs.NameKey.{key_of};

    ghost Value = { List ℕ };

    ghost view = { λ a. a.text };

    ghost invariant = { λ a. a.key ≡ key_of (encode_utf8_all a.text) };
}

impl Atom {
    /// The atom of this text. It takes no memory.
    pub fn of_text(text: Text) -> Atom
        ensures { result ≡ text }
    {
        let key = key_of_text(text.as_str());
        Atom { key, text }
    }

    /// The text as UTF-8.
    pub fn as_str(&self) -> &str
        ensures characters { chars result.now ≡ self.now }
        ensures bytes { result.now ≡ encode_utf8_all self.now }
    {
        self.text.as_str()
    }

    /// The text.
    pub fn text(&self) -> &Text
        ensures { result.now ≡ self.now }
    {
        &self.text
    }

    /// The key, by which the atom is compared first.
    #[inline]
    pub fn key(&self) -> u64
        ensures { result ≡ key_of (encode_utf8_all self.now) }
    {
        self.key
    }

    /// Another atom of the same text, whose key is not worked out again.
    pub fn copy(&self, alloc: Global) -> Result<Atom, NoMemory>
        ensures { IfOk result (λ a. a ≡ self.now) }
    {
        let text = self.text.copy(alloc)?;
        Ok(Atom {
            key: self.key,
            text,
        })
    }
}
