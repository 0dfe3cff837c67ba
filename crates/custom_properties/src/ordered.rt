//! The values of all declared custom properties.

ghost use Rattle.std.specs.Prelude.{◌≡◌, ◌<◌, [], IfOk, length, map, replicate, slice_get, slice_index_or, slice_set, None};
ghost use Rattle.std.specs.FinMap as finmap;
ghost use Rattle.custom_model.specs.Computed.{computed as computed_value};
ghost use Rattle.cycle_search.specs.Confirmed.{AreConfirmed, is_in_group};
ghost use Rattle.custom_properties.specs.Entries.{declared_entry};
ghost use Rattle.custom_properties.specs.KnownView.{known_in};
ghost use Rattle.custom_properties.specs.Off.{off_cycles_at};
ghost use Rattle.custom_properties.specs.declared.declared_map.DeclaredEntry.{DeclaredEntry};
ghost use Rattle.custom_properties.specs.Graph.{graph};

use crate::computed::computed;
use crate::known::Known;
use crate::{DeclaredEntry, DeclaredMap};
use css_tokens::{CustomMap, CustomValue};
use cycle_search::{GraphMarks, Mark};
use std::alloc::Global;
use stylo_base::NoMemory;

/// The values where no declared custom property refers to another one.
pub(crate) fn values_apart(
    alloc: Global,
    declared: &DeclaredMap<'_>,
    inherited: &CustomMap,
) -> Result<Vec<Option<CustomValue>>, NoMemory>
    requires { graph declared.now ≡ [] }
    ensures { IfOk result (λ values. values.items
        ≡ map (computed_value declared.now inherited.now) (finmap.keys declared.now)) }
{
    let mut values = Vec::new(alloc);
    for entry in declared.entries() {
        values.push(computed(alloc, entry, inherited, inherited)?)?;
    }
    Ok(values)
}

/// The values, in an order in which each comes after all that it refers to. Those on cycles have
/// none.
pub(crate) fn values_in_order(
    alloc: Global,
    declared: &DeclaredMap<'_>,
    found: &GraphMarks,
    inherited: &CustomMap,
) -> Result<Vec<Option<CustomValue>>, NoMemory>
    requires confirmed { AreConfirmed (graph declared.now) found.now.marks.items found.now.order.items }
    requires marks { length found.now.marks.items ≡ finmap.len declared.now }
    ensures { IfOk result (λ values. values.items
        ≡ map (computed_value declared.now inherited.now) (finmap.keys declared.now)) }
{
    let entries = declared.entries();
    let mut values = no_values(alloc, entries.len())?;
    for group in 0..found.order.len() {
        let place = found.order[group];
        if is_in_group(&found.marks, place, group) {
            let value = value_at(alloc, declared, entries, &values, place, inherited)?;
            put(&mut values, place, value);
        }
    }
    Ok(values)
}

/// So many times no value.
pub(crate) fn no_values(alloc: Global, len: usize) -> Result<Vec<Option<CustomValue>>, NoMemory>
    ensures { IfOk result (λ values. values.items ≡ replicate len None) }
{
    let mut values = Vec::with_capacity(alloc, len)?;
    for _place in 0..len {
        values.push(None)?;
    }
    Ok(values)
}

/// Puts the value at a place.
fn put(values: &mut Vec<Option<CustomValue>>, place: usize, value: Option<CustomValue>)
    requires { place < length values.old.items }
    ensures { values.new.items ≡ slice_set values.old.items place value }
{
    values[place] = value;
}

/// Whether the custom property at a place is on no cycle, and of this group.
fn is_in_group(marks: &[Mark], place: usize, group: usize) -> bool
    ensures { result ≡ is_in_group group (slice_get marks.now place) }
{
    match marks.get(place) {
        None => false,
        Some(mark) => !mark.is_cyclic && mark.group == group,
    }
}

/// The value at a place, which is on no cycle, by the values that are known.
fn value_at(
    alloc: Global,
    declared: &DeclaredMap<'_>,
    entries: &[DeclaredEntry<'_>],
    values: &[Option<CustomValue>],
    place: usize,
    inherited: &CustomMap,
) -> Result<Option<CustomValue>, NoMemory>
    requires { place < length entries.now }
    ensures { (d : DeclaredEntry) → IfOk result (λ v. v
        ≡ off_cycles_at (known_in declared.now values.now inherited.now) inherited.now
        (declared_entry (slice_index_or entries.now place d))) }
{
    let known = Known {
        declared,
        values,
        others: inherited,
    };
    computed(alloc, &entries[place], &known, inherited)
}
