//! The key of a selector.

ghost use Rattle.std.specs.Prelude.{◌≡◌, IfOk, option_map};
ghost use Rattle.std.specs.Option.{option_copied};
ghost use Rattle.selector_model.specs.Key.{class_in, class_key, first_in, id_in, id_key, key_of as model_key_of, key_of_compound, type_in, type_key};
ghost use Rattle.selector_types.specs.ComplexView.{compound_of};
ghost use Rattle.selector_types.specs.SimpleView.{key_seen};
ghost use Rattle.selector_types.specs.View.{selector_of};

use crate::{Compound, Selector, Simple, Test};
use std::alloc::Global;
use stylo_base::{Atom, NoMemory};

/// What an element has to have so that a selector can hold at it.
#[derive(Debug, Drop)]
pub enum Key {
    Id(Atom),
    Class(Atom),
    Type(Atom),
    Any,
}

/// The key of a selector: the first id of its rightmost compound, else its first class, else its
/// type, else any. It takes no memory.
pub fn key_of(selector: &Selector) -> &Key
    ensures { key_seen result.now ≡ model_key_of (selector_of selector.now) }
{
    selector.key()
}

fn first_id(compound: &Compound) -> Option<&Atom>
    ensures { option_map id_key (option_copied result) ≡ first_in id_in (compound_of compound.now) }
{
    for test in &compound.tests {
        if let Test::Simple(Simple::Id(name)) = test {
            return Some(name);
        }
    }
    None
}

fn first_class(compound: &Compound) -> Option<&Atom>
    ensures { option_map class_key (option_copied result) ≡ first_in class_in (compound_of compound.now) }
{
    for test in &compound.tests {
        if let Test::Simple(Simple::Class(class)) = test {
            return Some(class);
        }
    }
    None
}

fn first_type(compound: &Compound) -> Option<&Atom>
    ensures { option_map type_key (option_copied result) ≡ first_in type_in (compound_of compound.now) }
{
    for test in &compound.tests {
        if let Test::Simple(Simple::Type(tag)) = test {
            return Some(tag);
        }
    }
    None
}

impl Key {
    /// Another key of the same name.
    pub fn copy(&self, alloc: Global) -> Result<Key, NoMemory>
        ensures { IfOk result (λ key. key_seen key ≡ key_seen self.now) }
    {
        match self {
            Key::Id(name) => Ok(Key::Id(name.copy(alloc)?)),
            Key::Class(class) => Ok(Key::Class(class.copy(alloc)?)),
            Key::Type(tag) => Ok(Key::Type(tag.copy(alloc)?)),
            Key::Any => Ok(Key::Any),
        }
    }

    /// The key of a selector with this rightmost compound.
    pub(crate) fn of_compound(alloc: Global, compound: &Compound) -> Result<Key, NoMemory>
        ensures { IfOk result (λ key. key_seen key ≡ key_of_compound (compound_of compound.now)) }
    {
        if let Some(name) = first_id(compound) {
            return Ok(Key::Id(name.copy(alloc)?));
        }
        if let Some(class) = first_class(compound) {
            return Ok(Key::Class(class.copy(alloc)?));
        }
        if let Some(tag) = first_type(compound) {
            return Ok(Key::Type(tag.copy(alloc)?));
        }
        Ok(Key::Any)
    }
}
