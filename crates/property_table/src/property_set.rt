//! Sets of properties.

ghost use Rattle.std.specs.Prelude.{◌≡◌, []};
ghost use Rattle.std.specs.Iterator.{YieldsFirstBy, item_count};
ghost use Rattle.property_table.specs.PropertySet.{has_row, with_row, without_row};
ghost use Rattle.property_table.specs.View.{property_of};

use crate::{PropId, PropertyRow};
use std::marker::Model;

/// A set of properties, which takes no memory. Contracts see the rows in it, in the order of the table.
/// It gives its properties one by one, in that order, and keeps those that are left.
#[derive(Debug, Drop)]
pub struct PropertySet {
    /// The row of each property, as a bit.
    bits: u64,
}

impl Model for PropertySet {
    ghost use Rattle.std.specs.Prelude.{ℕ, List};
    ghost use Rattle.std.specs.Coded.{coded_list, coded_ℕ};
    ghost use Rattle.property_table.specs.PropertySet.{AreRowBits, rows_of_bits};

    ghost Value = { List ℕ };

    ghost coded = { coded_list coded_ℕ };

    ghost view = { λ s. rows_of_bits s.bits };

    ghost invariant = { λ s. AreRowBits s.bits };
}

impl PropertySet {
    /// No property.
    #[inline]
    pub fn new() -> PropertySet
        ensures { result ≡ [] }
    {
        PropertySet { bits: 0 }
    }

    /// Whether the property is in it.
    #[inline]
    pub fn contains(&self, id: PropId) -> bool
        ensures { result ≡ has_row (property_of id) self.now }
    {
        (self.bits >> id.row()) & 1 == 1
    }

    /// Adds a property.
    #[inline]
    pub fn insert(&mut self, id: PropId)
        ensures { self.new ≡ with_row (property_of id) self.old }
    {
        self.bits |= 1 << id.row();
    }

    /// Takes a property out.
    #[inline]
    pub fn remove(&mut self, id: PropId)
        ensures { self.new ≡ without_row (property_of id) self.old }
    {
        self.bits &= !(1 << id.row());
    }

    /// Its properties, in the order of the table.
    #[inline]
    pub fn iter(&self) -> PropertySet
        ensures { result ≡ self.now }
    {
        PropertySet { bits: self.bits }
    }
}

impl Iterator for PropertySet {
    type Item = PropId;

    ghost next_gives = { YieldsFirstBy property_of (λ s. s) };

    ghost remaining = { item_count (λ s. s) };

    #[inline]
    fn next(&mut self) -> Option<PropId> {
        if self.bits == 0 {
            return None;
        }
        let row = self.bits.trailing_zeros() as usize;
        self.bits &= !(1 << row);
        Some(PropertyRow::all()[row].id)
    }
}
