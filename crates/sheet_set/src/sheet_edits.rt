//! Edits of the style sheets of a document: planned with all memory that they take, then made without any.

ghost use Rattle.std.specs.Prelude.{◌≡◌, ◌≤◌, IfErr, IfOk, None, OnErr, OnOk, false, length, map, option_map, unwrap_or};
ghost use Rattle.std.specs.Option.{option_map_or};
ghost use Rattle.base_model.specs.Limits.{number_limit, sheet_limit};
ghost use Rattle.edit_model.specs.Refusal.{accepted};
ghost use Rattle.edit_model.specs.SheetApply.{AreNumbered, number_in, sheet_refusal, sheets_applied};
ghost use Rattle.layer_model.specs.Swapped.{swapped};
ghost use Rattle.selector_types.specs.SimpleView.{key_seen};
ghost use Rattle.sheet_model.specs.Sources.{layers_of_sheets};
ghost use Rattle.stylo_base.specs.declared.refusal.EditRefused.TheVariants.{NoMemory as out_of_memory};
ghost use Rattle.dom_edits.specs.EditView.{refusal_answered, sheet_edit_seen};
ghost use Rattle.sheet_set.specs.Fits.{AreSameSheets, Fits};
ghost use Rattle.sheet_set.specs.Kept.{kept_seen};
ghost use Rattle.sheet_set.specs.Planned.{planned, stepped};
ghost use Rattle.sheet_set.specs.Room.{HasPlaces, HasRoom, IsAtPlace};
ghost use Rattle.sheet_set.specs.StepOf.{AreSelectorsOf, step_keys};
ghost use Rattle.sheet_set.specs.TellsMarks.{TellsMarks};
ghost use Rattle.sheet_set.specs.View.{listed_seen};

use crate::planning::{layers_after, step_of};
use crate::positions::put_positions;
use crate::ranks::put_layers;
use crate::refused::refused;
use crate::room::make_room;
use crate::sheet_keys::change_of;
use crate::sheet_step::SheetStep;
use crate::stepping::make;
use crate::{KeptSheet, SheetPlan, Sheets};
use dom_edits::SheetEdit;
use layer_order::Layers;
use selector_types::{Selector, SheetChange};
use std::alloc::Global;
use stylo_base::{EditRefused, NoMemory};

impl Sheets {
    /// Why an edit is refused: the first refusal in the order of unknown sheets, places and limits. None: it is
    /// accepted, where there is memory. It takes no memory.
    pub fn refusal(&self, edit: &SheetEdit) -> Option<EditRefused>
        ensures { result ≡ option_map refusal_answered
            (sheet_refusal (listed_seen self.now) (sheet_edit_seen edit.now)) }
    {
        refused(&self.sheets, self.last, edit)
    }

    /// Plans an edit: what it needs is made, and what is seen of the sheets stays. Only the edit's own text is read.
    pub fn plan(&mut self, alloc: Global, edit: &SheetEdit) -> Result<SheetPlan, EditRefused>
        ensures same { AreSameSheets self.old self.new }
        ensures planned { IfOk result (λ plan. accepted (planned plan.step (listed_seen self.old))
            ≡ sheets_applied (listed_seen self.old) (sheet_edit_seen edit.now)) }
        ensures fits { IfOk result (λ plan. Fits self.new plan) }
        ensures change { IfOk result (λ plan. TellsMarks (listed_seen self.old).listed
            (planned plan.step (listed_seen self.old)).listed
            (number_in self.old.last (sheet_edit_seen edit.now)) plan.change) }
        ensures refused { IfErr result (λ why. why ≡ unwrap_or
            (option_map refusal_answered (sheet_refusal (listed_seen self.old) (sheet_edit_seen edit.now)))
            out_of_memory) }
    {
        if let Some(why) = self.refusal(edit) {
            return Err(why);
        }
        Ok(self.planned(alloc, edit)?)
    }

    /// The same of an edit that nothing refuses.
    fn planned(&mut self, alloc: Global, edit: &SheetEdit) -> Result<SheetPlan, NoMemory>
        requires { sheet_refusal (listed_seen self.old) (sheet_edit_seen edit.now) ≡ None }
        ensures same { AreSameSheets self.old self.new }
        ensures planned { IfOk result (λ plan. accepted (planned plan.step (listed_seen self.old))
            ≡ sheets_applied (listed_seen self.old) (sheet_edit_seen edit.now)) }
        ensures fits { IfOk result (λ plan. Fits self.new plan) }
        ensures change { IfOk result (λ plan. TellsMarks (listed_seen self.old).listed
            (planned plan.step (listed_seen self.old)).listed
            (number_in self.old.last (sheet_edit_seen edit.now)) plan.change) }
    {
        let step = step_of(alloc, &self.sheets, self.last, edit)?;
        let (layers, change) = told_of(alloc, &self.sheets, &self.selectors, &self.layers, &step)?;
        make_room(
            &mut self.sheets,
            &mut self.rules,
            &mut self.selectors,
            &mut self.ranks,
            &mut self.positions,
            &step,
        )?;
        Ok(SheetPlan {
            change,
            step,
            layers,
        })
    }

    /// Makes an edit that was planned. It takes no memory.
    pub fn commit(&mut self, plan: SheetPlan)
        requires { Fits self.old plan }
        ensures { listed_seen self.new ≡ planned plan.step (listed_seen self.old) }
    {
        let SheetPlan { step, layers, .. } = plan;
        self.make(step, layers);
    }

    /// Makes a step of an edit, with the layers of all sheets after it. None: they stay.
    fn make(&mut self, step: SheetStep, layers: Option<Layers>)
        requires room { HasRoom self.old.sheets self.old.rules self.old.selectors self.old.ranks step }
        requires places { HasPlaces self.old.sheets.items self.old.positions step }
        requires numbered { AreNumbered (planned step (listed_seen self.old)) }
        requires few { length (planned step (listed_seen self.old)).listed ≤ sheet_limit }
        requires given { (planned step (listed_seen self.old)).last ≤ number_limit }
        requires layers { unwrap_or layers self.old.layers
            ≡ layers_of_sheets (planned step (listed_seen self.old)).listed }
        ensures { listed_seen self.new ≡ planned step (listed_seen self.old) }
    {
        let Sheets {
            sheets,
            last,
            rules,
            selectors,
            ranks,
            positions,
            layers: kept,
        } = self;
        make(sheets, last, rules, selectors, ranks, kept, step);
        put_positions(positions, sheets);
        put_layers(kept, ranks, layers, rules);
    }

    /// Makes an edit, or refuses it; then all is as it was. The answer is what it changed.
    pub fn apply(&mut self, alloc: Global, edit: &SheetEdit) -> Result<SheetChange, EditRefused>
        ensures applied { OnOk result (accepted (listed_seen self.new)
            ≡ sheets_applied (listed_seen self.old) (sheet_edit_seen edit.now)) }
        ensures change { IfOk result (TellsMarks (listed_seen self.old).listed (listed_seen self.new).listed
            (number_in self.old.last (sheet_edit_seen edit.now))) }
        ensures refused { IfErr result (λ why. why ≡ unwrap_or
            (option_map refusal_answered (sheet_refusal (listed_seen self.old) (sheet_edit_seen edit.now)))
            out_of_memory) }
        ensures kept { OnErr result (AreSameSheets self.old self.new) }
    {
        let plan = self.plan(alloc, edit)?;
        let SheetPlan {
            change,
            step,
            layers,
        } = plan;
        self.make(step, layers);
        Ok(change)
    }
}

/// The layers of all sheets after a step, and what it changes, as far as that tells whom it marks.
fn told_of(
    alloc: Global,
    sheets: &[KeptSheet],
    selectors: &[Vec<Selector>],
    layers: &Layers,
    step: &SheetStep,
) -> Result<(Option<Layers>, SheetChange), NoMemory>
    requires at { IsAtPlace sheets.now step.now }
    requires selectors { AreSelectorsOf sheets.now selectors.now }
    ensures layers { IfOk result (λ told. unwrap_or told.0 (layers_of_sheets (map kept_seen sheets.now))
        ≡ layers_of_sheets (stepped step.now (map kept_seen sheets.now))) }
    ensures keys { IfOk result (λ told. ∥ map key_seen told.1.keys.items
        ≡ step_keys step.now (map kept_seen sheets.now) ∥₁) }
    ensures swapped { IfOk result (λ told. told.1.swapped
        ≡ option_map_or (λ l. swapped layers.now l) told.0 false) }
{
    let after = layers_after(alloc, sheets, step)?;
    let change = change_of(alloc, sheets, selectors, step, layers, after.as_ref())?;
    Ok((after, change))
}
