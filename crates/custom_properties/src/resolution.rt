//! The custom properties of an element (css-variables-1, sections 2 and 3).

ghost use Rattle.std.specs.Prelude.{◌≡◌, ◌↔◌, IfOk, IsTrue, None, map, option_copied, unwrap_or};
ghost use Rattle.std.specs.FinMap as finmap;
ghost use Rattle.custom_model.specs.Computed.{computed, resolved};
ghost use Rattle.custom_properties.specs.Graph.{graph};

use crate::DeclaredMap;
use crate::graph::graph;
use crate::merged::merged;
use crate::ordered::{values_apart, values_in_order};
use crate::plain::values_plain;
use css_tokens::{CustomMap, CustomValue};
use cycle_search::{Edge, are_confirmed, search};
use std::alloc::Global;
use stylo_base::NoMemory;

/// The computed values of declared custom properties, over those that are inherited.
pub fn resolve(
    alloc: Global,
    declared: &DeclaredMap<'_>,
    inherited: &CustomMap,
) -> Result<CustomMap, NoMemory>
    ensures { IfOk result (λ m. m ≡ resolved declared.now inherited.now) }
{
    match changed(alloc, declared, inherited)? {
        None => inherited.share(),
        Some(map) => Ok(map),
    }
}

/// The same. None: it is what is inherited.
pub fn changed(
    alloc: Global,
    declared: &DeclaredMap<'_>,
    inherited: &CustomMap,
) -> Result<Option<CustomMap>, NoMemory>
    ensures map { IfOk result (λ o. unwrap_or o inherited.now ≡ resolved declared.now inherited.now) }
    ensures same { IfOk result (λ o. (o ≡ None) ↔ (resolved declared.now inherited.now ≡ inherited.now)) }
{
    let values = values(alloc, declared, inherited)?;
    if are_inherited(declared, &values, inherited) {
        return Ok(None);
    }
    let map = merged(alloc, declared, &values, inherited)?;
    Ok(Some(map))
}

/// The computed value of each declared custom property.
fn values(
    alloc: Global,
    declared: &DeclaredMap<'_>,
    inherited: &CustomMap,
) -> Result<Vec<Option<CustomValue>>, NoMemory>
    ensures { IfOk result (λ values. values.items
        ≡ map (computed declared.now inherited.now) (finmap.keys declared.now)) }
{
    let edges = graph(alloc, declared)?;
    if edges.is_empty() {
        return values_apart(alloc, declared, inherited);
    }
    values_by_edges(alloc, declared, &edges, inherited)
}

/// The same, by the references of one to another: in an order that a search finds, or by the definition.
fn values_by_edges(
    alloc: Global,
    declared: &DeclaredMap<'_>,
    edges: &[Edge],
    inherited: &CustomMap,
) -> Result<Vec<Option<CustomValue>>, NoMemory>
    requires { edges.now ≡ graph declared.now }
    ensures { IfOk result (λ values. values.items
        ≡ map (computed declared.now inherited.now) (finmap.keys declared.now)) }
{
    let count = declared.entries().len();
    let found = search(alloc, count, edges)?;
    if found.marks.len() == count && are_confirmed(edges, &found.marks, &found.order) {
        return values_in_order(alloc, declared, &found, inherited);
    }
    values_plain(alloc, declared, edges, inherited)
}

/// Whether each declared custom property has the value that is inherited.
fn are_inherited(
    declared: &DeclaredMap<'_>,
    values: &[Option<CustomValue>],
    inherited: &CustomMap,
) -> bool
    requires { values.now ≡ map (computed declared.now inherited.now) (finmap.keys declared.now) }
    ensures { IsTrue result ↔ (inherited.now ≡ resolved declared.now inherited.now) }
{
    let entries = declared.entries();
    for place in 0..entries.len() {
        if !is_same(inherited.get(entries[place].name.as_str()), &values[place]) {
            return false;
        }
    }
    true
}

/// Whether both are no value, or the same one.
fn is_same(one: Option<&CustomValue>, other: &Option<CustomValue>) -> bool
    ensures { IsTrue result ↔ (option_copied one.entry ≡ other.now) }
{
    match (one, other) {
        (None, None) => true,
        (Some(one), Some(other)) => one.is_same(other),
        _ => false,
    }
}
