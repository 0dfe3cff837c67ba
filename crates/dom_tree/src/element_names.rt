//! The names of an element: its tag, its id and its classes.

ghost use Rattle.std.specs.Prelude.{◌≡◌, ◌<◌, IfSome, Some, encode_utf8_all, length, option_map, slice_get};
ghost use Rattle.std.specs.Str.{chars};
ghost use Rattle.stylo_base.specs.NameKey.{key_of};
ghost use Rattle.dom_tree.specs.ElementNames.{named_as, names_with};
ghost use Rattle.dom_tree.specs.Kept.{text_of};

use crate::class_names::{ClassNames, LentName};
use std::marker::Model;
use stylo_base::{Name, Names};

/// What a name of an element is.
#[derive(Clone, Copy, Debug, PartialEq, Eq)]
pub enum NameKind {
    Tag,
    /// An id, which is not empty.
    Id,
    Class,
}

/// The names of an element, which are lent: its tag, its id, if it has one that is not empty, and its
/// classes, each once. Contracts see the list of their kinds and texts.
#[derive(Drop)]
pub struct ElementNames<'a> {
    /// The tag and the id are among these.
    names: &'a Names,
    tag: Name,
    id: Option<Name>,
    classes: ClassNames<'a>,
}

impl<'a> Model for ElementNames<'a> {
    ghost use Rattle.std.specs.Prelude.{◌<◌, IfSome, List, length, option_map};
    ghost use Rattle.dom_tree.specs.ElementNames.{ElementName, names_with};
    ghost use Rattle.dom_tree.specs.Kept.{text_of};

    ghost Value = { List ElementName };

    ghost view = { λ e. names_with (text_of e.names.now e.tag) (option_map (text_of e.names.now) e.id) e.classes };

    ghost invariant = { λ e. (e.tag < length e.names.now) × IfSome e.id (λ name. name < length e.names.now) };
}

impl<'a> ElementNames<'a> {
    /// The names of an element with this tag, this id and these classes.
    #[inline]
    pub(crate) fn new(
        names: &'a Names,
        tag: Name,
        id: Option<Name>,
        classes: ClassNames<'a>,
    ) -> ElementNames<'a>
        requires tag { tag < length names.now }
        requires id { IfSome id (λ name. name < length names.now) }
        ensures { result ≡ names_with (text_of names.now tag) (option_map (text_of names.now) id) classes.entry }
    {
        ElementNames {
            names,
            tag,
            id,
            classes,
        }
    }

    /// How many there are.
    #[inline]
    pub fn len(&self) -> usize
        ensures { result ≡ length self.now }
    {
        match self.id {
            Some(_) => 2 + self.classes.len(),
            None => 1 + self.classes.len(),
        }
    }

    /// What one of them is.
    #[inline]
    pub fn kind(&self, index: usize) -> NameKind
        requires { index < length self.now }
        ensures { IfSome (slice_get self.now index) (λ name. result ≡ name.kind) }
    {
        self.at(index).0
    }

    /// The text of one of them.
    #[inline]
    pub fn text(&self, index: usize) -> &str
        requires { index < length self.now }
        ensures { IfSome (slice_get self.now index) (λ name. chars result.now ≡ name.text) }
    {
        self.at(index).1.text()
    }

    /// The key of one of them: the number by which names are compared first.
    #[inline]
    pub fn key(&self, index: usize) -> u64
        requires { index < length self.now }
        ensures { IfSome (slice_get self.now index) (λ name. result ≡ key_of (encode_utf8_all name.text)) }
    {
        self.at(index).1.key()
    }

    /// One of them, and what it is.
    #[inline]
    fn at(&self, index: usize) -> (NameKind, LentName<'a>)
        requires { index < length self.now }
        ensures name { slice_get self.now index ≡ Some (named_as result.0 (text_of result.1.names.now result.1.name)) }
        ensures within { result.1.name < length result.1.names.now }
    {
        if index == 0 {
            return (NameKind::Tag, LentName::new(self.names, self.tag));
        }
        match self.id {
            Some(id) if index == 1 => (NameKind::Id, LentName::new(self.names, id)),
            Some(_) => (NameKind::Class, self.classes.at(index - 2)),
            None => (NameKind::Class, self.classes.at(index - 1)),
        }
    }
}
