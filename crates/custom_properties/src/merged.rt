//! The computed values of declared custom properties among those that are inherited.

ghost use Rattle.std.specs.Prelude.{◌≡◌, ◌++◌, ◌∷◌, [], IfOk, OnOk, length, map};
ghost use Rattle.std.specs.FinMap as finmap;
ghost use Rattle.css_tokens.specs.CustomView.{entry_of};
ghost use Rattle.custom_model.specs.Computed.{computed, resolved};
ghost use Rattle.custom_properties.specs.Merged.{ArePushed, put};

use crate::DeclaredMap;
use css_tokens::{CustomEntry, CustomMap, CustomName, CustomValue};
use std::alloc::Global;
use std::cmp::Ordering;
use stylo_base::NoMemory;

/// What is inherited, and in the place of it the values of what is declared.
pub(crate) fn merged(
    alloc: Global,
    declared: &DeclaredMap<'_>,
    values: &[Option<CustomValue>],
    inherited: &CustomMap,
) -> Result<CustomMap, NoMemory>
    requires { values.now ≡ map (computed declared.now inherited.now) (finmap.keys declared.now) }
    ensures { IfOk result (λ m. m ≡ resolved declared.now inherited.now) }
{
    let entries = declared.entries();
    let mut list = Vec::new(alloc);
    let mut left = inherited.entries();
    for place in 0..entries.len() {
        let name = entries[place].name;
        left = push_before(&mut list, left, name)?;
        push_value(&mut list, name, &values[place])?;
    }
    push_all(&mut list, left)?;
    CustomMap::of_entries(alloc, list)
}

/// Adds the entries before a name. Those behind it are left.
fn push_before<'a>(
    list: &mut Vec<CustomEntry>,
    kept: &'a [CustomEntry],
    name: &CustomName,
) -> Result<&'a [CustomEntry], NoMemory>
    ensures { IfOk result (λ left. ArePushed name.now kept.now list.old.items list.new.items left.now) }
{
    let mut left = kept;
    while let Some((first, rest)) = left.split_first() {
        match first.name.compare(name) {
            Ordering::Less => push_shared(list, first)?,
            Ordering::Equal => return Ok(rest),
            Ordering::Greater => return Ok(left),
        }
        left = rest;
    }
    Ok(left)
}

/// Adds all entries.
fn push_all(list: &mut Vec<CustomEntry>, entries: &[CustomEntry]) -> Result<(), NoMemory>
    ensures { OnOk result (map entry_of list.new.items ≡ map entry_of list.old.items ++ map entry_of entries.now) }
{
    for entry in entries {
        push_shared(list, entry)?;
    }
    Ok(())
}

/// Adds an entry, whose name and value are shared.
fn push_shared(list: &mut Vec<CustomEntry>, entry: &CustomEntry) -> Result<(), NoMemory>
    ensures { OnOk result (map entry_of list.new.items ≡ map entry_of list.old.items ++ entry_of entry.now ∷ []) }
{
    list.push(CustomEntry {
        name: entry.name.share()?,
        value: entry.value.share()?,
    })?;
    Ok(())
}

/// Adds the entry of a name, if it has a value.
fn push_value(
    list: &mut Vec<CustomEntry>,
    name: &CustomName,
    value: &Option<CustomValue>,
) -> Result<(), NoMemory>
    ensures { OnOk result (map entry_of list.new.items ≡ map entry_of list.old.items ++ put name.now value.now) }
{
    let Some(value) = value else {
        return Ok(());
    };
    list.push(CustomEntry {
        name: name.share()?,
        value: value.share()?,
    })?;
    Ok(())
}
