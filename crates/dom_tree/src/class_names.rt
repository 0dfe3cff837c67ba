//! The class names of an element.

ghost use Rattle.std.specs.Prelude.{◌≡◌, ◌<◌, ◌^◌, Some, encode_utf8_all, length, map, slice_get};
ghost use Rattle.std.specs.List.{list_any};
ghost use Rattle.std.specs.List.Sorted.{IsNonDecreasing};
ghost use Rattle.std.specs.Str.{chars};
ghost use Rattle.base_model.specs.Text.{same_text};
ghost use Rattle.stylo_base.specs.NameKey.{key_of};
ghost use Rattle.dom_tree.specs.Classes.{AreClasses, AreNames};
ghost use Rattle.dom_tree.specs.Kept.{text_of};

use std::marker::Model;
use stylo_base::{Atom, Name, Names};

/// A name, which is lent with the names that it is among.
#[derive(Clone, Copy)]
pub(crate) struct LentName<'a> {
    pub names: &'a Names,
    pub name: Name,
}

impl<'a> LentName<'a> {
    /// This name, which is among these.
    #[inline]
    pub fn new(names: &'a Names, name: Name) -> LentName<'a>
        ensures name { result.name ≡ name }
        ensures names { result.names.now ≡ names.now }
    {
        LentName { names, name }
    }

    /// Its text.
    #[inline]
    pub fn text(self) -> &'a str
        requires { self.name < length self.names.now }
        ensures { chars result.now ≡ text_of self.entry.names.now self.entry.name }
    {
        self.names.text(self.name)
    }

    /// Its key.
    #[inline]
    pub fn key(self) -> u64
        requires { self.name < length self.names.now }
        ensures { result ≡ key_of (encode_utf8_all (text_of self.entry.names.now self.entry.name)) }
    {
        self.names.key(self.name)
    }
}

/// How many names are looked through one by one.
const MOST_IN_TURN: usize = 8;

/// The class names of an element, each once, which are lent. Contracts see the list of their texts.
#[derive(Drop)]
pub(crate) struct ClassNames<'a> {
    names: &'a Names,
    list: &'a [Name],
    /// The same in the order of their numbers.
    sorted: &'a [Name],
}

impl<'a> Model for ClassNames<'a> {
    ghost use Rattle.std.specs.Prelude.{List, map as mapped};
    ghost use Rattle.scene_model.specs.Element.{Characters};
    ghost use Rattle.dom_tree.specs.Classes.{AreClasses};
    ghost use Rattle.dom_tree.specs.Kept.{text_of};

    ghost Value = { List Characters };

    ghost view = { λ c. mapped (text_of c.names.now) c.list.now };

    ghost invariant = { λ c. AreClasses c.names.now c.list.now c.sorted.now };
}

impl<'a> ClassNames<'a> {
    /// The names of a list, which are given in the order of their numbers too.
    #[inline]
    pub fn new(names: &'a Names, list: &'a [Name], sorted: &'a [Name]) -> ClassNames<'a>
        requires { AreClasses names.now list.now sorted.now }
        ensures { result ≡ map (text_of names.now) list.now }
    {
        ClassNames {
            names,
            list,
            sorted,
        }
    }

    /// How many there are.
    #[inline]
    pub fn len(&self) -> usize
        ensures len { result ≡ length self.now }
        ensures bound { result < 2 ^ 63 }
    {
        self.list.len()
    }

    /// One of them, from 0.
    #[inline]
    pub fn at(&self, index: usize) -> LentName<'a>
        requires { index < length self.now }
        ensures name { slice_get self.now index ≡ Some (text_of result.names.now result.name) }
        ensures within { result.name < length result.names.now }
    {
        LentName::new(self.names, self.list[index])
    }

    /// Whether this is one of them.
    #[inline]
    pub fn has(&self, name: &Atom) -> bool
        ensures { result ≡ list_any (same_text name.now) self.now }
    {
        if self.list.len() > MOST_IN_TURN {
            return stands_in(self.names, self.sorted, name.as_str());
        }
        for class in self.list {
            if self.names.is_atom(*class, name) {
                return true;
            }
        }
        false
    }

    /// Whether this is one of them, by its text.
    pub fn has_text(&self, name: &str) -> bool
        ensures { result ≡ list_any (same_text (chars name.now)) self.now }
    {
        if self.list.len() > MOST_IN_TURN {
            return stands_in(self.names, self.sorted, name);
        }
        for class in self.list {
            if self.names.text(*class) == name {
                return true;
            }
        }
        false
    }
}

/// Whether a text is that of one of the names of a list, which is in the order of their numbers.
#[inline(never)]
fn stands_in(names: &Names, sorted: &[Name], text: &str) -> bool
    requires named { AreNames names.now sorted.now }
    requires rising { IsNonDecreasing sorted.now }
    ensures { result ≡ list_any (same_text (chars text.now)) (map (text_of names.now) sorted.now) }
{
    match names.find(text) {
        Some(name) => sorted.binary_search(&name).is_ok(),
        None => false,
    }
}
