//! The custom properties of an element (css-variables-1, sections 2 and 3).

ghost use Rattle.std.specs.Prelude.{◌≡◌, IfOk, IsTrue, map, option_map};
ghost use Rattle.cascade_model.specs.Custom.{custom_values};
ghost use Rattle.std.specs.FinMap as finmap;
ghost use Rattle.std.specs.Option.{unwrap_or};
ghost use Rattle.std.specs.Ordering.{nat_cmp};
ghost use Rattle.std.specs.Cmp.Lexicographic.{slice_cmp};
ghost use Rattle.custom_properties.specs.Entries.{declared_entry};
ghost use Rattle.base_model.specs.Text.{Characters};
ghost use Rattle.cascade_core.specs.Declarations.{all_matched};
ghost use Rattle.cascade_core.specs.View.{head_of};
ghost use Rattle.cascade_core.specs.Names.{NamesRise, declared_of, run_entry};

use crate::cascaded_value::CascadedValue;
use crate::custom_declarations::CustomDeclarations;
use crate::names::{run_length, sorted_by_name};
use crate::rollback::walk;
use crate::{Declarations, LentMatched};
use css_tokens::CustomMap;
use css_writer::custom_declarations;
use custom_properties::{DeclaredEntry, DeclaredMap, changed};
use shorthands::Target;
use std::alloc::Global;
use style_value::Custom;
use stylo_base::NoMemory;

/// The custom properties by the declarations that apply, over those of the parent. None: they are
/// the parent's.
pub(crate) fn changed_custom(
    alloc: Global,
    declarations: Declarations<'_>,
    parent: &Custom,
) -> Result<Option<Custom>, NoMemory>
    ensures { IfOk result (λ custom. unwrap_or custom parent.now
        ≡ custom_values parent.now (all_matched declarations.entry)) }
{
    let list = sorted_by_name(alloc, declarations)?;
    let declared = DeclaredMap::of_entries(declared_entries(alloc, &list)?);
    match changed(alloc, &declared, parent.map())? {
        None => Ok(None),
        Some(map) => Ok(Some(printed(alloc, map)?)),
    }
}

/// These custom properties with their text.
fn printed(alloc: Global, map: CustomMap) -> Result<Custom, NoMemory>
    ensures { IfOk result (λ custom. custom ≡ map) }
{
    let text = custom_declarations(alloc, &map)?;
    Custom::new(alloc, map, text)
}

/// The cascaded value of each name that has one of its own, in the order of the names.
fn declared_entries<'a>(
    alloc: Global,
    list: &[LentMatched<'a>],
) -> Result<Vec<DeclaredEntry<'a>>, NoMemory>
    requires { NamesRise (map head_of list.now) }
    ensures sorted { IfOk result (λ entries.
        IsTrue (finmap.is_sorted (slice_cmp nat_cmp) (map declared_entry entries.items))) }
    ensures each { IfOk result (λ entries. (name : Characters)
        → finmap.find (slice_cmp nat_cmp) name (map declared_entry entries.items)
        ≡ declared_of (map head_of list.now) name) }
{
    let mut entries = Vec::new(alloc);
    let mut start = 0;
    while start < list.len() {
        let rest = &list[start..];
        let run = &rest[..run_length(rest)];
        if let Some(entry) = entry_of(alloc, run)? {
            entries.push(entry)?;
        }
        start += run.len();
    }
    Ok(entries)
}

/// The cascaded value of a name, where these are its declarations from the greatest down. None: it
/// inherits.
fn entry_of<'a>(
    alloc: Global,
    run: &[LentMatched<'a>],
) -> Result<Option<DeclaredEntry<'a>>, NoMemory>
    ensures { IfOk result (λ entry. option_map declared_entry entry ≡ run_entry (map head_of run.now)) }
{
    let Some(first) = run.first() else {
        return Ok(None);
    };
    let Target::Custom(name) = &first.declared.target else {
        return Ok(None);
    };
    Ok(match walk(alloc, run, &mut CustomDeclarations)? {
        CascadedValue::Value(value) => Some(DeclaredEntry {
            name,
            value: Some(value),
        }),
        CascadedValue::Initial => Some(DeclaredEntry { name, value: None }),
        CascadedValue::Inherit | CascadedValue::Unset => None,
    })
}
