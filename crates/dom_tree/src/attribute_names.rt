//! The names of the attributes of an element.

ghost use Rattle.std.specs.Prelude.{◌≡◌, ◌<◌, IfSome, Some, encode_utf8_all, length, map, slice_get};
ghost use Rattle.std.specs.Str.{chars};
ghost use Rattle.stylo_base.specs.NameKey.{key_of};
ghost use Rattle.dom_tree.specs.Kept.{HaveNames, name_text};

use crate::node_columns::AttrRow;
use std::marker::Model;
use stylo_base::Names;

/// The names of the attributes of an element, each once, which are lent. Contracts see the list of
/// their texts.
#[derive(Drop)]
pub struct AttributeNames<'a> {
    names: &'a Names,
    rows: &'a [AttrRow],
}

impl<'a> Model for AttributeNames<'a> {
    ghost use Rattle.std.specs.Prelude.{List, map as mapped};
    ghost use Rattle.scene_model.specs.Element.{Characters};
    ghost use Rattle.dom_tree.specs.Kept.{HaveNames, name_text};

    ghost Value = { List Characters };

    ghost view = { λ a. mapped (name_text a.names.now) a.rows.now };

    ghost invariant = { λ a. HaveNames a.names.now a.rows.now };
}

impl<'a> AttributeNames<'a> {
    /// The names of rows.
    #[inline]
    pub(crate) fn new(names: &'a Names, rows: &'a [AttrRow]) -> AttributeNames<'a>
        requires { HaveNames names.now rows.now }
        ensures { result ≡ map (name_text names.now) rows.now }
    {
        AttributeNames { names, rows }
    }

    /// How many there are.
    #[inline]
    pub fn len(&self) -> usize
        ensures { result ≡ length self.now }
    {
        self.rows.len()
    }

    /// The text of one of them, from 0.
    #[inline]
    pub fn text(&self, index: usize) -> &str
        requires { index < length self.now }
        ensures { slice_get self.now index ≡ Some (chars result.now) }
    {
        self.names.text(self.rows[index].name)
    }

    /// The key of one of them, from 0: the number by which names are compared first.
    #[inline]
    pub fn key(&self, index: usize) -> u64
        requires { index < length self.now }
        ensures { IfSome (slice_get self.now index) (λ text. result ≡ key_of (encode_utf8_all text)) }
    {
        self.names.key(self.rows[index].name)
    }
}
