//! What an edit of sheets changed, as far as it tells whom it marks.

ghost use Rattle.std.specs.Prelude.{◌≡◌, ◌<◌, ◌++◌, IfOk, OnOk, false, true, flat_map, length, map, option_copied};
ghost use Rattle.std.specs.Option.{option_map_or};
ghost use Rattle.layer_model.specs.Swapped.{swapped};
ghost use Rattle.selector_model.specs.Key.{key_of as model_key_of};
ghost use Rattle.edit_model.specs.SheetApply.{with_enabled};
ghost use Rattle.sheet_edit_model.specs.SheetMarks.{keys_in};
ghost use Rattle.selector_types.specs.SimpleView.{key_seen};
ghost use Rattle.selector_types.specs.View.{selector_of};
ghost use Rattle.sheet_set.specs.Kept.{kept_seen};
ghost use Rattle.sheet_set.specs.Planned.{at_place};
ghost use Rattle.sheet_set.specs.Room.{IsAtPlace};
ghost use Rattle.sheet_set.specs.StepOf.{AreSelectorsOf, keys_of, step_keys};

use crate::KeptSheet;
use crate::moving::taking_count;
use crate::sheet_step::SheetStep;
use layer_order::{Layers, same_relative_order};
use selector_types::{Key, Selector, SheetChange, key_of};
use std::alloc::Global;
use stylo_base::NoMemory;

/// What a step changes: the keys of the rules that go and come, and whether layers are swapped.
pub(crate) fn change_of(
    alloc: Global,
    sheets: &[KeptSheet],
    selectors: &[Vec<Selector>],
    step: &SheetStep,
    layers: &Layers,
    after: Option<&Layers>,
) -> Result<SheetChange, NoMemory>
    requires at { IsAtPlace sheets.now step.now }
    requires selectors { AreSelectorsOf sheets.now selectors.now }
    ensures keys { IfOk result (λ change. ∥ map key_seen change.keys.items
        ≡ step_keys step.now (map kept_seen sheets.now) ∥₁) }
    ensures swapped { IfOk result (λ change. change.swapped
        ≡ option_map_or (λ l. swapped layers.now l) (option_copied after.entry) false) }
{
    let mut keys = Vec::new(alloc);
    add_step_keys(alloc, &mut keys, sheets, selectors, step)?;
    let swapped = match after {
        Some(after) => !same_relative_order(layers, after),
        None => false,
    };
    Ok(SheetChange { keys, swapped })
}

/// Adds the keys of the rules that go and come.
fn add_step_keys(
    alloc: Global,
    keys: &mut Vec<Key>,
    sheets: &[KeptSheet],
    selectors: &[Vec<Selector>],
    step: &SheetStep,
) -> Result<(), NoMemory>
    requires at { IsAtPlace sheets.now step.now }
    requires selectors { AreSelectorsOf sheets.now selectors.now }
    ensures { OnOk result (∥ map key_seen keys.new.items ≡ map key_seen keys.old.items
        ++ step_keys step.now (map kept_seen sheets.now) ∥₁) }
{
    match step {
        SheetStep::Stay => Ok(()),
        SheetStep::Come { sheet, on, .. } => add_own_keys(alloc, keys, sheet, *on),
        SheetStep::Go { place, .. } => add_keys_at(alloc, keys, sheets, selectors, *place),
        SheetStep::Put { place, sheet, .. } => {
            add_keys_at(alloc, keys, sheets, selectors, *place)?;
            add_own_keys(alloc, keys, sheet, sheets[*place].is_enabled())
        }
        SheetStep::Turn { place, .. } => {
            add_keys_at(alloc, keys, sheets, selectors, *place)?;
            let old = &sheets[*place];
            add_own_keys(alloc, keys, old, !old.is_enabled())
        }
    }
}

/// Adds the keys of the rules of the sheet at a place that take part.
fn add_keys_at(
    alloc: Global,
    keys: &mut Vec<Key>,
    sheets: &[KeptSheet],
    selectors: &[Vec<Selector>],
    place: usize,
) -> Result<(), NoMemory>
    requires within { place < length sheets.now }
    requires selectors { AreSelectorsOf sheets.now selectors.now }
    ensures { OnOk result (∥ map key_seen keys.new.items ≡ map key_seen keys.old.items
        ++ flat_map keys_in (at_place place (map kept_seen sheets.now)) ∥₁) }
{
    let sheet = &sheets[place];
    if !sheet.is_enabled() {
        return Ok(());
    }
    let at = taking_count(&sheets[..place]);
    add_keys(alloc, keys, &selectors[at..at + sheet.count()])
}

/// Adds the keys of the rules of a sheet that wait, if it is said to take part.
fn add_own_keys(
    alloc: Global,
    keys: &mut Vec<Key>,
    sheet: &KeptSheet,
    on: bool,
) -> Result<(), NoMemory>
    requires { on ≡ true → sheet.now.enabled ≡ false }
    ensures { OnOk result (∥ map key_seen keys.new.items ≡ map key_seen keys.old.items
        ++ keys_in (with_enabled on (kept_seen sheet.now)) ∥₁) }
{
    if on {
        add_keys(alloc, keys, sheet.own_selectors())
    } else {
        Ok(())
    }
}

/// Adds the keys of rules, by the selectors of each.
fn add_keys(alloc: Global, keys: &mut Vec<Key>, selectors: &[Vec<Selector>]) -> Result<(), NoMemory>
    ensures { OnOk result (map key_seen keys.new.items ≡ map key_seen keys.old.items ++ keys_of selectors.now) }
{
    for list in selectors {
        add_each_key(alloc, keys, list.as_slice())?;
    }
    Ok(())
}

/// Adds the key of each of these selectors.
fn add_each_key(alloc: Global, keys: &mut Vec<Key>, selectors: &[Selector]) -> Result<(), NoMemory>
    ensures { OnOk result (map key_seen keys.new.items ≡ map key_seen keys.old.items
        ++ map (λ selector. model_key_of (selector_of selector)) selectors.now) }
{
    for selector in selectors {
        keys.push(key_of(selector).copy(alloc)?)?;
    }
    Ok(())
}
