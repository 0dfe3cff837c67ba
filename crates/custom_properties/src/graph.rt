//! The graph of declared custom properties: which of them refer to which (css-variables-1, section 3.1).

ghost use Rattle.std.specs.Prelude.{◌≡◌, ◌++◌, IfOk, OnOk, Some};
ghost use Rattle.std.specs.FinMap as finmap;
ghost use Rattle.css_tokens.specs.Place.{place_in};
ghost use Rattle.custom_model.specs.Cycles.{references_of};
ghost use Rattle.custom_properties.specs.Entries.{declared_entry};
ghost use Rattle.custom_properties.specs.Added.{AreAdded};
ghost use Rattle.custom_properties.specs.Graph.{edge_to, edges_to, graph};

use crate::{DeclaredEntry, DeclaredMap};
use css_tokens::{CustomValue, PartReader, PartStep};
use cycle_search::Edge;
use std::alloc::Global;
use stylo_base::{NoMemory, Text};

/// Each reference of a declared custom property to another one, also in a fallback that is not used.
pub(crate) fn graph(alloc: Global, declared: &DeclaredMap<'_>) -> Result<Vec<Edge>, NoMemory>
    ensures { IfOk result (λ edges. edges.items ≡ graph declared.now) }
{
    let mut edges = Vec::new(alloc);
    let entries = declared.entries();
    for (from, entry) in entries.iter().enumerate() {
        add_references(alloc, &mut edges, declared, from, entry)?;
    }
    Ok(edges)
}

/// Adds an edge for each reference of what a custom property is declared to be.
fn add_references(
    alloc: Global,
    edges: &mut Vec<Edge>,
    declared: &DeclaredMap<'_>,
    from: usize,
    entry: &DeclaredEntry<'_>,
) -> Result<(), NoMemory>
    ensures { OnOk result (edges.new.items ≡ edges.old.items
        ++ edges_to (finmap.entries declared.now) from (references_of (Some (declared_entry entry.now).1))) }
{
    let Some(value) = entry.value else {
        return Ok(());
    };
    if value.is_plain() {
        return Ok(());
    }
    let known = edges.len();
    if !add_steps(alloc, edges, declared, from, value)? {
        edges.truncate(known);
    }
    Ok(())
}

/// Adds an edge for each reference, up to the end of the value. Whether the value is valid.
fn add_steps(
    alloc: Global,
    edges: &mut Vec<Edge>,
    declared: &DeclaredMap<'_>,
    from: usize,
    value: &CustomValue,
) -> Result<bool, NoMemory>
    ensures { IfOk result (λ is_valid.
        AreAdded (finmap.entries declared.now) from value.now is_valid edges.old.items edges.new.items) }
{
    let mut reader = PartReader::new(alloc, value.tokens());
    loop {
        match reader.next()? {
            PartStep::Invalid => return Ok(false),
            PartStep::Finished => return Ok(true),
            PartStep::Alone(name) | PartStep::Begins(name) => {
                add_edge(edges, declared, from, name)?;
            }
            PartStep::Token(_) | PartStep::Ends => {}
        }
    }
}

/// Adds an edge to a name, if it is declared.
fn add_edge(
    edges: &mut Vec<Edge>,
    declared: &DeclaredMap<'_>,
    from: usize,
    name: &Text,
) -> Result<(), NoMemory>
    ensures { OnOk result (edges.new.items
        ≡ edges.old.items ++ edge_to from (place_in (finmap.entries declared.now) name.now)) }
{
    if let Some(to) = declared.place(name) {
        edges.push(Edge { from, to })?;
    }
    Ok(())
}
