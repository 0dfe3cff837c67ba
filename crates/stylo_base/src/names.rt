//! Names: each text that is used as a name is kept once, and known by its index.

ghost use Rattle.std.specs.Prelude.{◌≡◌, ◌↔◌, ◌<◌, ◌≤◌, ◌^◌, ℕ, [], Contains, IfOk, IfSome, IsOk, IsSome, IsTrue, OnErr, OnOk, Some, encode_utf8_all, is_some, length, slice_get, unwrap_or};
ghost use Rattle.std.specs.Str.{chars};
ghost use Rattle.base_model.specs.Text.{same_text};
ghost use Rattle.stylo_base.specs.NameKey.{key_of};
ghost use Rattle.stylo_base.specs.NameList.{StandOnce, interned, is_among};

use crate::{Atom, NoMemory, key_of_text};
use indexmap::IndexSet;
use std::alloc::Global;
use std::marker::Model;

/// How many names there may be: a name is a `u32`.
const MOST: usize = 4_294_967_296;

/// A name that a `Names` gave. Contracts see its index in the order of first use, from 0.
#[derive(Clone, Copy, Debug, PartialEq, Eq, PartialOrd, Ord, Hash)]
pub struct Name {
    index: u32,
}

impl Model for Name {
    ghost use Rattle.std.specs.Prelude.{ℕ};

    ghost Value = { ℕ };

    ghost view = { λ n. n.index };

    ghost inverse = { λ n. record { index = n } };
}

impl Name {
    /// Its index in the order of first use, from 0.
    #[inline]
    pub fn index(self) -> usize
        ensures { result ≡ self }
    {
        self.index as usize
    }
}

/// The texts that have names, and the key of each. Contracts see the texts as lists of characters, in
/// the order of first use; no text is there twice.
#[derive(Drop)]
pub struct Names {
    texts: IndexSet<String>,
    keys: Vec<u64>,
}

impl Model for Names {
    ghost use Rattle.std.specs.Prelude.{List, ℕ, map as mapped};
    ghost use Rattle.std.specs.Str.{chars};
    ghost use Rattle.std.specs.String.{string_bytes};
    ghost use Rattle.stylo_base.specs.NameList.{AreKeyed};

    ghost Value = { List (List ℕ) };

    ghost view = { λ n. mapped (λ s. chars (string_bytes s)) n.texts.keys };

    ghost invariant = { λ n. AreKeyed (mapped (λ s. chars (string_bytes s)) n.texts.keys) n.keys.items };
}

impl Names {
    /// No names.
    pub fn new(alloc: Global) -> Names
        ensures { result ≡ [] }
    {
        Names {
            texts: IndexSet::new(alloc),
            keys: Vec::new(alloc),
        }
    }

    /// How many texts have names.
    pub fn len(&self) -> usize
        ensures count { result ≡ length self.now }
        ensures distinct { StandOnce self.now }
    {
        self.texts.len()
    }

    /// Whether no text has a name.
    pub fn is_empty(&self) -> bool
        ensures { IsTrue result ↔ (self.now ≡ []) }
    {
        self.texts.is_empty()
    }

    /// The name of `text`, if it has one. It takes no memory.
    pub fn find(&self, text: &str) -> Option<Name>
        ensures found { IfSome result (λ n. slice_get self.now n ≡ Some (chars text.now)) }
        ensures there { is_some result ≡ is_among (chars text.now) self.now }
        ensures exactly { IsSome result ↔ Contains self.now (chars text.now) }
        ensures distinct { StandOnce self.now }
    {
        let index = self.texts.get_index_of(text)?;
        Some(Name {
            index: index as u32,
        })
    }

    /// The name of `text`: the one that it has, or else a new one, which alone takes memory. There
    /// are at most 2^32 names.
    pub fn intern(&mut self, text: &str) -> Result<Name, NoMemory>
        ensures index { IfOk result (λ n. slice_get self.new n ≡ Some (chars text.now)) }
        ensures list { OnOk result (self.new ≡ interned self.old (chars text.now)) }
        ensures err { OnErr result (self.new ≡ self.old) }
        ensures known { Contains self.old (chars text.now) → IsOk result × (self.new ≡ self.old) }
        ensures kept { (n : ℕ) → n < length self.old → slice_get self.new n ≡ slice_get self.old n }
        ensures distinct { StandOnce self.new }
    {
        if let Some(name) = self.find(text) {
            return Ok(name);
        }
        let index = self.texts.len();
        if index >= MOST {
            return Err(NoMemory);
        }
        let kept = String::from_str(*self.texts.allocator(), text)?;
        self.keys.reserve(1)?;
        self.texts.insert(kept)?;
        self.keys.push(key_of_text(text))?;
        Ok(Name {
            index: index as u32,
        })
    }

    /// The text of a name that this `Names` gave.
    pub fn text(&self, name: Name) -> &str
        requires { name < length self.now }
        ensures { slice_get self.now name ≡ Some (chars result.now) }
    {
        self.texts.as_slice()[name.index as usize].as_str()
    }

    /// The key of a name that this `Names` gave: that of its text.
    #[inline]
    pub fn key(&self, name: Name) -> u64
        requires { name < length self.now }
        ensures { result ≡ key_of (encode_utf8_all (unwrap_or (slice_get self.now name) [])) }
    {
        self.keys[name.index as usize]
    }

    /// Whether a name that this `Names` gave is that of the atom's text. Most others are told apart by
    /// their keys.
    #[inline]
    pub fn is_atom(&self, name: Name, atom: &Atom) -> bool
        requires { name < length self.now }
        ensures { result ≡ same_text (unwrap_or (slice_get self.now name) []) atom.now }
    {
        self.key(name) == atom.key() && self.text(name) == atom.as_str()
    }

    /// Other `Names` of the same texts, whose names are the same.
    pub fn copy(&self, alloc: Global) -> Result<Names, NoMemory>
        ensures { IfOk result (λ n. n ≡ self.now) }
    {
        Ok(Names {
            texts: self.texts.clone()?,
            keys: Vec::from_slice(alloc, &self.keys)?,
        })
    }
}
