//! What the custom properties of an element are declared to be.

ghost use Rattle.std.specs.Prelude.{◌≡◌, IsTrue, map};
ghost use Rattle.std.specs.Cmp.Lexicographic.{slice_cmp};
ghost use Rattle.std.specs.FinMap as finmap;
ghost use Rattle.std.specs.Ordering.{nat_cmp};
ghost use Rattle.css_tokens.specs.Place.{place_in};
ghost use Rattle.custom_properties.specs.Entries.{declared_entry};

use css_tokens::{CustomName, CustomValue, NamedEntry, place_by_name};
use std::marker::Model;
use stylo_base::Text;

/// A custom property, and the value that it is declared to have. None: it is declared to have none.
#[derive(Clone, Copy, Debug)]
pub struct DeclaredEntry<'a> {
    pub name: &'a CustomName,
    pub value: Option<&'a CustomValue>,
}

impl<'a> NamedEntry for DeclaredEntry<'a> {
    ghost name_of = { λ entry. entry.name.now };

    fn name(&self) -> &CustomName {
        self.name
    }
}

/// What custom properties are declared to be. Contracts see a map by their names.
#[derive(Debug, Drop)]
pub struct DeclaredMap<'a> {
    list: Vec<DeclaredEntry<'a>>,
}

impl<'a> Model for DeclaredMap<'a> {
    ghost use Rattle.custom_model.specs.Cycles as model;

    ghost Value = { model.DeclaredValues };

    ghost use Rattle.custom_properties.specs.Entries.{AreSorted, declared_code, declared_of};

    ghost coded = { declared_code };

    ghost view = { λ m. declared_of m.list.items };

    ghost invariant = { λ m. AreSorted m.list.items };
}

impl<'a> DeclaredMap<'a> {
    /// The map of these entries, whose names rise.
    pub fn of_entries(list: Vec<DeclaredEntry<'a>>) -> DeclaredMap<'a>
        requires { IsTrue (finmap.is_sorted (slice_cmp nat_cmp) (map declared_entry list.items)) }
        ensures { result ≡ finmap.from_sorted (map declared_entry list.entry.items) }
    {
        DeclaredMap { list }
    }

    /// The entries, in the order of their names.
    pub fn entries(&self) -> &[DeclaredEntry<'a>]
        ensures { map declared_entry result.now ≡ finmap.entries self.now }
    {
        &self.list
    }

    /// Where the custom property of this name stands, if it is declared.
    pub(crate) fn place(&self, name: &Text) -> Option<usize>
        ensures { result ≡ place_in (finmap.entries self.now) name.now }
    {
        place_by_name(self.entries(), name.as_str())
    }
}
