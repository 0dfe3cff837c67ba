//! What an edit of sheets will do, made with all memory that it takes.

ghost use Rattle.std.specs.Prelude.{◌≡◌, ℕ, ◌+◌, ◌<◌, ◌≤◌, ◌++◌, ◌∷◌, [], IfOk, None, false};
ghost use Rattle.std.specs.Prelude.{drop, filter, length, map, take, unwrap_or};
ghost use Rattle.base_model.specs.Limits.{number_limit};
ghost use Rattle.edit_model.specs.SheetApply.{AreNumbered, changed_in, is_other, last_after, number_in, sheet_refusal};
ghost use Rattle.edit_model.specs.SheetApply.{sheets_after, with_enabled, with_text};
ghost use Rattle.dom_edits.specs.EditView.{sheet_edit_seen};
ghost use Rattle.layer_model.specs.Order.{layers_of};
ghost use Rattle.layer_order.specs.View.{declarations};
ghost use Rattle.sheet_model.specs.Sources.{layers_of_sheets};
ghost use Rattle.sheet_set.specs.Kept.{kept_seen};
ghost use Rattle.sheet_set.specs.Planned.{stepped};
ghost use Rattle.sheet_set.specs.Room.{IsAtPlace};
ghost use Rattle.sheet_set.specs.Rules.{sheet_made};
ghost use Rattle.sheet_set.specs.StepOf.{IsAlone, IsStepTo, layers_declared};

use crate::kept_layers::{add_layers, add_layers_of};
use crate::kept_sheet::RuleRoom;
use crate::refused::place_of;
use crate::sheet_step::SheetStep;
use crate::{KeptSheet, SheetInput};
use css_rules::SheetEdition;
use dom_edits::SheetEdit;
use layer_order::{LayerName, Layers, Origin};
use std::alloc::Global;
use stylo_base::{NoMemory, Text};

/// The step that an edit is, which nothing refuses.
pub(crate) fn step_of(
    alloc: Global,
    sheets: &[KeptSheet],
    last: u32,
    edit: &SheetEdit,
) -> Result<SheetStep, NoMemory>
    requires numbered { AreNumbered (record { listed = map kept_seen sheets.now; last = last }) }
    requires fine { sheet_refusal (record { listed = map kept_seen sheets.now; last = last })
        (sheet_edit_seen edit.now) ≡ None }
    requires given { last ≤ number_limit }
    ensures { IfOk result (λ step. IsStepTo sheets.now last (number_in last (sheet_edit_seen edit.now)) (record {
      listed = sheets_after last (sheet_edit_seen edit.now) (map kept_seen sheets.now);
      last = last_after last (sheet_edit_seen edit.now);
    }) step) }
{
    match edit {
        SheetEdit::Add {
            index,
            origin,
            enabled,
            text,
        } => Ok(SheetStep::Come {
            place: *index as usize,
            sheet: new_sheet(alloc, last + 1, *origin, text)?,
            on: *enabled,
        }),
        SheetEdit::Remove { sheet } => match place_of(sheets, *sheet) {
            Some(place) => removed(alloc, sheets, place),
            None => Ok(SheetStep::Stay),
        },
        SheetEdit::Replace { sheet, text } => match place_of(sheets, *sheet) {
            Some(place) => replaced(alloc, sheets, place, text),
            None => Ok(SheetStep::Stay),
        },
        SheetEdit::Enable { sheet, on } => match place_of(sheets, *sheet) {
            Some(place) => switched(alloc, sheets, place, *on),
            None => Ok(SheetStep::Stay),
        },
    }
}

/// A sheet that comes anew.
fn new_sheet(alloc: Global, number: u32, origin: Origin, text: &Text) -> Result<KeptSheet, NoMemory>
    ensures { IfOk result (λ kept. kept_seen kept ≡ sheet_made number origin false text.now 0) }
{
    let at = SheetEdition {
        sheet: number,
        edition: 0,
    };
    read_again(alloc, at, origin, text)
}

/// A text read as that of a sheet.
fn read_again(
    alloc: Global,
    at: SheetEdition,
    origin: Origin,
    text: &Text,
) -> Result<KeptSheet, NoMemory>
    ensures { IfOk result (λ kept. kept_seen kept ≡ sheet_made at.sheet origin false text.now at.edition) }
{
    let input = SheetInput {
        origin,
        enabled: false,
        text: text.copy(alloc)?,
    };
    KeptSheet::read(alloc, at, input)
}

/// The sheet at a place goes.
fn removed(alloc: Global, sheets: &[KeptSheet], place: usize) -> Result<SheetStep, NoMemory>
    requires { place < length sheets.now }
    ensures { IfOk result (λ step. (n last : ℕ) → IsAlone n place (map kept_seen sheets.now)
        → IsStepTo sheets.now last n (record {
          listed = filter (is_other n) (map kept_seen sheets.now);
          last = last;
        }) step) }
{
    let room = RuleRoom::of(alloc, sheets[place].count())?;
    Ok(SheetStep::Go { place, room })
}

/// Another text for the sheet at a place; the same one changes nothing. After 2^32 - 1 texts it is as if memory ran
/// out.
fn replaced(
    alloc: Global,
    sheets: &[KeptSheet],
    place: usize,
    text: &Text,
) -> Result<SheetStep, NoMemory>
    requires { place < length sheets.now }
    ensures { IfOk result (λ step. (n last : ℕ) → IsAlone n place (map kept_seen sheets.now)
        → IsStepTo sheets.now last n (record {
          listed = changed_in n (with_text text.now) (map kept_seen sheets.now);
          last = last;
        }) step) }
{
    let old = &sheets[place];
    if old.text().is_same(text) {
        return Ok(SheetStep::Stay);
    }
    let at = SheetEdition {
        sheet: old.number(),
        edition: old.edition().checked_add(1).ok_or(NoMemory)?,
    };
    let sheet = read_again(alloc, at, old.origin(), text)?;
    let room = RuleRoom::of(alloc, old.count())?;
    Ok(SheetStep::Put { place, sheet, room })
}

/// The sheet at a place on or off; as it is already it changes nothing.
fn switched(
    alloc: Global,
    sheets: &[KeptSheet],
    place: usize,
    on: bool,
) -> Result<SheetStep, NoMemory>
    requires { place < length sheets.now }
    ensures { IfOk result (λ step. (n last : ℕ) → IsAlone n place (map kept_seen sheets.now)
        → IsStepTo sheets.now last n (record {
          listed = changed_in n (with_enabled on) (map kept_seen sheets.now);
          last = last;
        }) step) }
{
    let old = &sheets[place];
    if old.is_enabled() == on {
        return Ok(SheetStep::Stay);
    }
    let room = RuleRoom::of(alloc, old.count())?;
    Ok(SheetStep::Turn { place, room })
}

/// The layers after a step. None: they are as before, for no sheet that comes or goes declares any.
pub(crate) fn layers_after(
    alloc: Global,
    sheets: &[KeptSheet],
    step: &SheetStep,
) -> Result<Option<Layers>, NoMemory>
    requires { IsAtPlace sheets.now step.now }
    ensures { IfOk result (λ layers. unwrap_or layers (layers_of_sheets (map kept_seen sheets.now))
        ≡ layers_of_sheets (stepped step.now (map kept_seen sheets.now))) }
{
    match step {
        SheetStep::Stay => Ok(None),
        SheetStep::Come { place, sheet, on } => {
            let its = layers_if(sheet, *on);
            if its.is_empty() {
                return Ok(None);
            }
            Ok(Some(around(alloc, &sheets[..*place], its, &sheets[*place..])?))
        }
        SheetStep::Go { place, .. } => in_its_place(alloc, sheets, *place, &[]),
        SheetStep::Put { place, sheet, .. } => {
            let its = layers_if(sheet, sheets[*place].is_enabled());
            in_its_place(alloc, sheets, *place, its)
        }
        SheetStep::Turn { place, .. } => {
            let old = &sheets[*place];
            in_its_place(alloc, sheets, *place, layers_if(old, !old.is_enabled()))
        }
    }
}

/// The layers that a sheet declares, if it is said to take part.
fn layers_if(sheet: &KeptSheet, on: bool) -> &[(Origin, LayerName)]
    ensures { declarations result.now ≡ layers_declared (with_enabled on (kept_seen sheet.now) ∷ []) }
{
    if on { sheet.layers() } else { &[] }
}

/// The layers with these in place of those of the sheet at a place. None: there are none there, neither before nor
/// after.
fn in_its_place(
    alloc: Global,
    sheets: &[KeptSheet],
    place: usize,
    its: &[(Origin, LayerName)],
) -> Result<Option<Layers>, NoMemory>
    requires { place < length sheets.now }
    ensures { IfOk result (λ layers. unwrap_or layers (layers_of_sheets (map kept_seen sheets.now))
        ≡ layers_of (layers_declared (take place (map kept_seen sheets.now))
        ++ (declarations its.now ++ layers_declared (drop (place + 1) (map kept_seen sheets.now))))) }
{
    let old = &sheets[place];
    if its.is_empty() && layers_if(old, old.is_enabled()).is_empty() {
        return Ok(None);
    }
    Ok(Some(around(alloc, &sheets[..place], its, &sheets[place + 1..])?))
}

/// The layers of sheets with these between them.
fn around(
    alloc: Global,
    before: &[KeptSheet],
    its: &[(Origin, LayerName)],
    after: &[KeptSheet],
) -> Result<Layers, NoMemory>
    ensures { IfOk result (λ layers. layers ≡ layers_of (layers_declared (map kept_seen before.now)
        ++ (declarations its.now ++ layers_declared (map kept_seen after.now)))) }
{
    let mut found = Vec::new(alloc);
    add_layers_of(&mut found, before)?;
    add_layers(&mut found, its)?;
    add_layers_of(&mut found, after)?;
    Layers::of(alloc, found.as_slice())
}
