//! The values of declared custom properties as the definition says them, step by step. It needs no
//! search, and so nothing that is to be checked.

ghost use Rattle.std.specs.Prelude.{◌≡◌, ◌<◌, IfOk, false, length, map, replicate, slice_set};
ghost use Rattle.std.specs.Prelude.{true, if◌then◌else◌, None};
ghost use Rattle.std.specs.FinMap as finmap;
ghost use Rattle.custom_model.specs.Computed.{computed as computed_value, computed_over};
ghost use Rattle.custom_model.specs.Cycles.{is_cyclic};
ghost use Rattle.custom_properties.specs.Entries.{declared_entry};
ghost use Rattle.custom_properties.specs.Graph.{graph};
ghost use Rattle.custom_properties.specs.KnownView.{known_in, known_value};
ghost use Rattle.custom_properties.specs.Off.{off_cycles_at};
ghost use Rattle.custom_properties.specs.Plain.{AreNext, flag_at, name_in};

use crate::computed::computed;
use crate::known::Known;
use crate::ordered::no_values;
use crate::{DeclaredEntry, DeclaredMap};
use css_tokens::{CustomMap, CustomValue};
use cycle_search::Edge;
use std::alloc::Global;
use stylo_base::NoMemory;

/// The values by the definition itself, in as many rounds as it has steps.
pub(crate) fn values_plain(
    alloc: Global,
    declared: &DeclaredMap<'_>,
    edges: &[Edge],
    inherited: &CustomMap,
) -> Result<Vec<Option<CustomValue>>, NoMemory>
    requires { edges.now ≡ graph declared.now }
    ensures { IfOk result (λ values. values.items
        ≡ map (computed_value declared.now inherited.now) (finmap.keys declared.now)) }
{
    let cyclic = cyclic_places(alloc, declared, edges)?;
    let count = declared.entries().len();
    let none = no_values(alloc, count)?;
    let empty = CustomMap::empty();
    let mut values = next_values(alloc, declared, &cyclic, &none, &empty, inherited)?;
    for _round in 0..count {
        values = next_values(alloc, declared, &cyclic, &values, inherited, inherited)?;
    }
    Ok(values)
}

/// The values by those of the round before, and by what others have.
fn next_values(
    alloc: Global,
    declared: &DeclaredMap<'_>,
    cyclic: &[bool],
    values: &[Option<CustomValue>],
    others: &CustomMap,
    inherited: &CustomMap,
) -> Result<Vec<Option<CustomValue>>, NoMemory>
    requires { cyclic.now ≡ map (is_cyclic declared.now) (finmap.keys declared.now) }
    ensures { IfOk result (λ next. next.items
        ≡ map (computed_over declared.now inherited.now
        (known_in declared.now values.now others.now)) (finmap.keys declared.now)) }
{
    let known = Known {
        declared,
        values,
        others,
    };
    let mut next = Vec::new(alloc);
    for (place, entry) in declared.entries().iter().enumerate() {
        next.push(next_value(alloc, entry, is_set(cyclic, place), &known, inherited)?)?;
    }
    Ok(next)
}

/// The value of a custom property, which is none where it is on a cycle.
fn next_value(
    alloc: Global,
    entry: &DeclaredEntry<'_>,
    is_cyclic: bool,
    known: &Known<'_, '_>,
    inherited: &CustomMap,
) -> Result<Option<CustomValue>, NoMemory>
    ensures { IfOk result (λ v. v ≡ (if is_cyclic then None
        else off_cycles_at (known_value known.now) inherited.now (declared_entry entry.now))) }
{
    if is_cyclic {
        return Ok(None);
    }
    computed(alloc, entry, known, inherited)
}

/// Which declared custom properties are on cycles (css-variables-1, section 3.1).
fn cyclic_places(
    alloc: Global,
    declared: &DeclaredMap<'_>,
    edges: &[Edge],
) -> Result<Vec<bool>, NoMemory>
    requires { edges.now ≡ graph declared.now }
    ensures { IfOk result (λ flags. flags.items
        ≡ map (is_cyclic declared.now) (finmap.keys declared.now)) }
{
    let mut flags = Vec::new(alloc);
    for place in 0..declared.entries().len() {
        flags.push(is_on_cycle(alloc, declared, edges, place)?)?;
    }
    Ok(flags)
}

/// Whether a walk of no more edges than there are places leads from one back to it.
fn is_on_cycle(
    alloc: Global,
    declared: &DeclaredMap<'_>,
    edges: &[Edge],
    place: usize,
) -> Result<bool, NoMemory>
    requires graph { edges.now ≡ graph declared.now }
    requires within { place < length (finmap.entries declared.now) }
    ensures { IfOk result (λ b. b ≡ is_cyclic declared.now (name_in declared.now place)) }
{
    let count = declared.entries().len();
    let mut reach = no_flags(alloc, count)?;
    for _step in 0..count {
        reach = next_reach(alloc, edges, place, &reach)?;
    }
    Ok(is_set(&reach, place))
}

/// The places from which a walk of one edge more leads to a place.
fn next_reach(
    alloc: Global,
    edges: &[Edge],
    to: usize,
    reach: &[bool],
) -> Result<Vec<bool>, NoMemory>
    ensures { IfOk result (λ next. AreNext edges.now to reach.now next.items) }
{
    let mut next = no_flags(alloc, reach.len())?;
    for edge in edges {
        if edge.to == to || is_set(reach, edge.to) {
            set(&mut next, edge.from);
        }
    }
    Ok(next)
}

/// So many flags that are not set.
fn no_flags(alloc: Global, count: usize) -> Result<Vec<bool>, NoMemory>
    ensures { IfOk result (λ flags. flags.items ≡ replicate count false) }
{
    let mut flags = Vec::new(alloc);
    flags.resize(count, false)?;
    Ok(flags)
}

/// Whether the flag at a place is set.
fn is_set(flags: &[bool], place: usize) -> bool
    ensures { result ≡ flag_at flags.now place }
{
    match flags.get(place) {
        None => false,
        Some(flag) => *flag,
    }
}

/// Sets the flag at a place.
fn set(flags: &mut Vec<bool>, place: usize)
    ensures { flags.new.items ≡ slice_set flags.old.items place true }
{
    if place < flags.len() {
        flags[place] = true;
    }
}
