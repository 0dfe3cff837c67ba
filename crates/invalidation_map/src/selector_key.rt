//! The keys of selectors.

ghost use Rattle.std.specs.Prelude.{◌≡◌, ◌↔◌, IfOk, Some, option_map, true};
ghost use Rattle.std.specs.Bool.{IsTrue};
ghost use Rattle.selector_types.specs.SimpleView.{key_seen};
ghost use Rattle.edit_model.specs.MarkedAfter.{touch_of_key as model_touch_of_key};
ghost use Rattle.dom_edits.specs.TouchView.{touch_seen};

use dom_edits::{Touch, TouchName};
use selector_types::Key;
use std::alloc::Global;
use stylo_base::{Atom, NoMemory};

/// The key of a selector.
#[derive(Drop)]
pub(crate) struct SelectorKey {
    pub(crate) key: Key,
    /// The touch of an element that bears the key now and did not before, or the other way round.
    pub(crate) bearing: Option<Touch>,
    ghost told: { option_map touch_seen bearing ≡ model_touch_of_key (key_seen key) },
}

impl SelectorKey {
    /// That of a key, with a copy of it.
    pub(crate) fn of(alloc: Global, key: &Key) -> Result<SelectorKey, NoMemory>
        ensures { IfOk result (λ made. key_seen made.key ≡ key_seen key.now) }
    {
        Ok(SelectorKey {
            key: copy_key(alloc, key)?,
            bearing: touch_of_key(alloc, key)?,
        })
    }

    /// Whether it is that of this key.
    pub(crate) fn is_of(&self, key: &Key) -> bool
        ensures { IsTrue result ↔ (key_seen self.now.key ≡ key_seen key.now) }
    {
        match (&self.key, key) {
            (Key::Id(one), Key::Id(other)) => is_same_atom(one, other),
            (Key::Class(one), Key::Class(other)) => is_same_atom(one, other),
            (Key::Type(one), Key::Type(other)) => is_same_atom(one, other),
            (Key::Any, Key::Any) => true,
            _ => false,
        }
    }
}

/// Whether two atoms have the same text.
fn is_same_atom(one: &Atom, other: &Atom) -> bool
    ensures { IsTrue result ↔ (one.now ≡ other.now) }
{
    one.as_str() == other.as_str()
}

/// The touch of an element that bears the key now and did not before, or the other way round. None: no
/// touch changes that.
fn touch_of_key(alloc: Global, key: &Key) -> Result<Option<Touch>, NoMemory>
    ensures { IfOk result (λ touch. option_map touch_seen touch ≡ model_touch_of_key (key_seen key.now)) }
{
    Ok(match key {
        Key::Id(name) => Some(Touch::Id(name_of(alloc, name)?)),
        Key::Class(name) => Some(Touch::Class(name_of(alloc, name)?)),
        Key::Type(_) | Key::Any => None,
    })
}

/// Whether it is the touch of an element that bears the key now and did not before, or the other way round.
pub(crate) fn is_touch_of(key: &Key, touch: &Touch) -> bool
    ensures { result ≡ true → model_touch_of_key (key_seen key.now) ≡ Some (touch_seen touch.now) }
{
    match (key, touch) {
        (Key::Id(name), Touch::Id(touched)) => touched.is_of(name),
        (Key::Class(name), Touch::Class(touched)) => touched.is_of(name),
        _ => false,
    }
}

/// The name of the text of an atom.
pub(crate) fn name_of(alloc: Global, atom: &Atom) -> Result<TouchName, NoMemory>
    ensures { IfOk result (λ name. name ≡ atom.now) }
{
    TouchName::of(alloc, atom.as_str())
}

/// Another key of the same text.
fn copy_key(alloc: Global, key: &Key) -> Result<Key, NoMemory>
    ensures { IfOk result (λ copy. key_seen copy ≡ key_seen key.now) }
{
    Ok(match key {
        Key::Id(name) => Key::Id(name.copy(alloc)?),
        Key::Class(name) => Key::Class(name.copy(alloc)?),
        Key::Type(name) => Key::Type(name.copy(alloc)?),
        Key::Any => Key::Any,
    })
}
