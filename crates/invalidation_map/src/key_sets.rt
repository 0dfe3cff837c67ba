//! Sets of keys, in which an element is looked up by its names.

ghost use Rattle.std.specs.Prelude.{◌≡◌, IfOk, OnOk, map};
ghost use Rattle.std.specs.Str.{chars};
ghost use Rattle.scene_model.specs.Lookups.{IsElement};
ghost use Rattle.selector_types.specs.SimpleView.{key_seen};
ghost use Rattle.stylo_base.specs.NameList.{interned, is_among};
ghost use Rattle.invalidation_map.specs.KeySets.{AddsKey, AreSetsOf, bears_one, set_of};

use dom_tree::{Doc, NameKind};
use selector_types::Key;
use std::alloc::Global;
use stylo_base::{Atom, Name, Names, NoMemory};

/// The names of keys, those of each kind in a set of their own. However many they are, an element is looked up
/// once by each of its own names.
#[derive(Drop)]
pub(crate) struct KeySets {
    ids: Names,
    classes: Names,
    types: Names,
    /// Whether all elements bear a key.
    any: bool,
}

impl KeySets {
    /// Those of these keys. With `all` every element bears one.
    pub(crate) fn of(alloc: Global, keys: &[Key], all: bool) -> Result<KeySets, NoMemory>
        ensures { IfOk result (AreSetsOf (map key_seen keys.now) all) }
    {
        let mut sets = KeySets {
            ids: Names::new(alloc),
            classes: Names::new(alloc),
            types: Names::new(alloc),
            any: all,
        };
        for key in keys {
            if sets.any {
                return Ok(sets);
            }
            sets.add(key)?;
        }
        Ok(sets)
    }

    /// Adds a key.
    fn add(&mut self, key: &Key) -> Result<(), NoMemory>
        ensures { OnOk result (AddsKey (key_seen key.now) self.old self.new) }
    {
        match key {
            Key::Id(id) => add_name(&mut self.ids, id)?,
            Key::Class(class) => add_name(&mut self.classes, class)?,
            Key::Type(tag) => add_name(&mut self.types, tag)?,
            Key::Any => self.any = true,
        }
        Ok(())
    }

    /// Whether an element bears one of the keys. It takes no memory.
    pub(crate) fn bears(&self, doc: &Doc, x: u32) -> bool
        requires { IsElement doc.now.elements x }
        ensures { result ≡ bears_one self.now doc.now.elements x }
    {
        if self.any {
            return true;
        }
        let names = doc.names(x);
        for index in 0..names.len() {
            if self.has(names.kind(index), names.text(index)) {
                return true;
            }
        }
        false
    }

    /// Whether this is the name of a key of this kind.
    fn has(&self, kind: NameKind, text: &str) -> bool
        ensures { result ≡ is_among (chars text.now) (set_of self.now kind) }
    {
        let set = match kind {
            NameKind::Tag => &self.types,
            NameKind::Id => &self.ids,
            NameKind::Class => &self.classes,
        };
        set.find(text).is_some()
    }
}

/// Adds the text of an atom.
fn add_name(names: &mut Names, atom: &Atom) -> Result<(), NoMemory>
    ensures { OnOk result (names.new ≡ interned names.old atom.now) }
{
    let _name: Name = names.intern(atom.as_str())?;
    Ok(())
}
