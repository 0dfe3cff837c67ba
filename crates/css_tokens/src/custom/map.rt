//! The custom properties of an element that have a value.

ghost use Rattle.std.specs.Prelude.{◌≡◌, ◌↔◌, IfOk, IsTrue, map, option_copied, option_map, true};
ghost use Rattle.std.specs.Cmp.Lexicographic.{slice_cmp};
ghost use Rattle.std.specs.FinMap as finmap;
ghost use Rattle.std.specs.Ordering.{nat_cmp};
ghost use Rattle.std.specs.Str.{chars};
ghost use Rattle.css_tokens.specs.CustomView.{entry_of};

use super::name::CustomName;
use super::named_entry::{NamedEntry, place_by_name};
use super::value::CustomValue;
use std::alloc::Global;
use std::marker::Model;
use std::sync::Arc;
use stylo_base::NoMemory;

/// A custom property and its value.
#[derive(Debug, Drop)]
pub struct CustomEntry {
    pub name: CustomName,
    pub value: CustomValue,
}

impl NamedEntry for CustomEntry {
    ghost name_of = { λ entry. entry.name };

    fn name(&self) -> &CustomName {
        &self.name
    }
}

/// The value of each custom property that has one. Copies share the entries, which are sorted by
/// name; the empty map takes no memory.
#[derive(Debug, Drop)]
pub struct CustomMap {
    entries: Option<Arc<Entries>>,
}

#[derive(Debug, Drop)]
struct Entries {
    list: Vec<CustomEntry>,
}

impl Model for CustomMap {
    ghost use Rattle.custom_model.specs.Value as model;

    ghost Value = { model.CustomValues };

    ghost coded = { model.values_code };

    ghost use Rattle.css_tokens.specs.EntriesView.{values_of, AreSorted};

    ghost view = { λ m. values_of m.entries };

    ghost invariant = { λ m. AreSorted m.entries };
}

impl CustomMap {
    /// The map in which no custom property has a value. It takes no memory.
    pub fn empty() -> CustomMap
        ensures { result ≡ finmap.empty }
    {
        CustomMap { entries: None }
    }

    /// The map of these entries, whose names rise.
    pub fn of_entries(alloc: Global, list: Vec<CustomEntry>) -> Result<CustomMap, NoMemory>
        requires { IsTrue (finmap.is_sorted (slice_cmp nat_cmp) (map entry_of list.items)) }
        ensures { IfOk result (λ m. m ≡ finmap.from_sorted (map entry_of list.items)) }
    {
        if list.is_empty() {
            return Ok(CustomMap::empty());
        }
        Ok(CustomMap {
            entries: Some(Arc::new(alloc, Entries { list })?),
        })
    }

    /// The entries, in the order of their names.
    pub fn entries(&self) -> &[CustomEntry]
        ensures { map entry_of result.now ≡ finmap.entries self.now }
    {
        match &self.entries {
            None => &[],
            Some(entries) => &entries.list,
        }
    }

    /// Whether no custom property has a value.
    pub fn is_empty(&self) -> bool
        ensures { IsTrue result ↔ (self.now ≡ finmap.empty) }
    {
        self.entries.is_none()
    }

    /// The value of the custom property of this name, if it has one.
    pub fn get(&self, name: &str) -> Option<&CustomValue>
        ensures { option_copied result ≡ finmap.get self.now (chars name.now) }
    {
        let entries = self.entries();
        match place_by_name(entries, name) {
            None => None,
            Some(place) => Some(&entries[place].value),
        }
    }

    /// The same map, whose entries are shared.
    pub fn share(&self) -> Result<CustomMap, NoMemory>
        ensures { IfOk result (λ m. m ≡ self.now) }
    {
        match &self.entries {
            None => Ok(CustomMap::empty()),
            Some(entries) => Ok(CustomMap {
                entries: Some(Arc::try_clone(entries)?),
            }),
        }
    }

    /// Whether both give the same names the same values.
    pub fn is_same(&self, other: &CustomMap) -> bool
        ensures { IsTrue result ↔ (self.now ≡ other.now) }
    {
        are_same(self.entries(), other.entries())
    }
}

/// Whether both are the same entries.
fn are_same(a: &[CustomEntry], b: &[CustomEntry]) -> bool
    ensures { IsTrue result ↔ (map entry_of a.now ≡ map entry_of b.now) }
{
    if a.len() != b.len() {
        return false;
    }
    for index in 0..a.len() {
        let (one, other) = (&a[index], &b[index]);
        if !one.name.is_same(&other.name) || !one.value.is_same(&other.value) {
            return false;
        }
    }
    true
}
