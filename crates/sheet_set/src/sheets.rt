//! The style sheets of a document.

ghost use Rattle.std.specs.Prelude.{◌≡◌, ◌≤◌, IfOk, length, map, vec_len};
ghost use Rattle.base_model.specs.Limits.{number_limit, sheet_limit};
ghost use Rattle.edit_model.specs.SheetApply.{AreNumbered};
ghost use Rattle.sheet_model.specs.Sources.{layers_of_sheets, rules_of_sheets};
ghost use Rattle.sheet_set.specs.Kept.{kept_seen, taking};
ghost use Rattle.sheet_set.specs.Positions.{AreRulesOf, positions_from};
ghost use Rattle.sheet_set.specs.Ranks.{rank_seen};
ghost use Rattle.sheet_set.specs.Rules.{AreSame, placed_at, rules_with};

use crate::copied::copied;
use crate::kept_layers::layers_of;
use crate::positions::put_positions;
use crate::ranks::ranks_of;
use crate::taking_in::{taken_again, taken_in};
use crate::{KeptSheet, SheetInput, SheetRule};
use css_rules::SheetEdition;
use layer_order::Layers;
use selector_types::Selector;
use std::alloc::Global;
use stylo_base::NoMemory;

/// The style sheets of a document, and the rules and layers of the enabled ones, in the order of the
/// sheets and of their texts.
#[derive(Drop)]
pub struct Sheets {
    pub(crate) sheets: Vec<KeptSheet>,
    /// The last number that was given to a sheet.
    pub(crate) last: u32,
    pub(crate) rules: Vec<SheetRule>,
    pub(crate) selectors: Vec<Vec<Selector>>,
    pub(crate) ranks: Vec<u32>,
    pub(crate) positions: Vec<u32>,
    pub(crate) layers: Layers,
    ghost paired: { vec_len rules ≡ vec_len selectors },
    ghost ranked: { ranks.items ≡ map (rank_seen layers) rules.items },
    ghost placed: { vec_len positions ≡ vec_len rules },
    ghost positioned: { positions.items ≡ positions_from 0 sheets.items },
    ghost of_texts: { AreSame (placed_at positions.items (rules_with rules.items selectors.items))
        (rules_of_sheets (map kept_seen sheets.items)) },
    ghost layered: { layers ≡ layers_of_sheets (map kept_seen sheets.items) },
    ghost numbered: { ∥ AreNumbered (record { listed = map kept_seen sheets.items; last = last }) ∥₁ },
    ghost few: { length sheets.items ≤ sheet_limit },
    ghost given: { last ≤ number_limit },
}

impl Sheets {
    ghost use Rattle.layer_order.specs.View.{sheets_of};
    ghost use Rattle.sheet_set.specs.View.{listed_seen};

    /// These sheets, which are numbered from 1; there may be none. A rule whose selectors can't be read
    /// is dropped, and so is a declaration of an unknown property, or of a value that the property does
    /// not take. A sheet that is not enabled is kept with its own rules and layers, and has no part in
    /// those of all.
    pub fn start(alloc: Global, sheets: &[SheetInput]) -> Result<Sheets, NoMemory>
        requires { length sheets.now ≤ sheet_limit }
        ensures { IfOk result (λ started. listed_seen started
            ≡ record { listed = sheets_of sheets.now; last = length sheets.now }) }
    {
        Sheets::of_list(alloc, copied(alloc, sheets)?)
    }

    /// The same of a list of sheets that it takes over: no text is copied.
    pub fn of_list(alloc: Global, sheets: Vec<SheetInput>) -> Result<Sheets, NoMemory>
        requires { length sheets.items ≤ sheet_limit }
        ensures { IfOk result (λ started. listed_seen started
            ≡ record { listed = sheets_of sheets.items; last = length sheets.items }) }
    {
        let mut rules = Vec::new(alloc);
        let mut selectors = Vec::new(alloc);
        let mut list = Vec::with_capacity(alloc, sheets.len())?;
        for sheet in sheets {
            let at = SheetEdition {
                sheet: list.len() as u32 + 1,
                edition: 0,
            };
            let kept = taken_in(alloc, at, sheet, &mut rules, &mut selectors)?;
            list.push(kept)?;
        }
        let last = list.len() as u32;
        Sheets::of_kept(alloc, list, last, rules, selectors)
    }

    /// The same sheets, with texts of their own, which are read again.
    pub fn copy(&self, alloc: Global) -> Result<Sheets, NoMemory>
        ensures { IfOk result (λ copied. listed_seen copied ≡ listed_seen self.now) }
    {
        let mut rules = Vec::new(alloc);
        let mut selectors = Vec::new(alloc);
        let mut list = Vec::with_capacity(alloc, self.sheets.len())?;
        for sheet in &self.sheets {
            let kept = taken_again(alloc, sheet, &mut rules, &mut selectors)?;
            list.push(kept)?;
        }
        Sheets::of_kept(alloc, list, self.last, rules, selectors)
    }

    /// The sheets of this list with the last number that was given to one, and the rules of the enabled ones.
    fn of_kept(
        alloc: Global,
        sheets: Vec<KeptSheet>,
        last: u32,
        rules: Vec<SheetRule>,
        selectors: Vec<Vec<Selector>>,
    ) -> Result<Sheets, NoMemory>
        requires paired { vec_len rules ≡ vec_len selectors }
        requires texts { AreSame (rules_with rules.items selectors.items) (taking sheets.items) }
        requires numbered { ∥ AreNumbered (record { listed = map kept_seen sheets.items; last = last }) ∥₁ }
        requires few { length sheets.items ≤ sheet_limit }
        requires given { last ≤ number_limit }
        ensures { IfOk result (λ made. listed_seen made
            ≡ record { listed = map kept_seen sheets.items; last = last }) }
    {
        let RulePlaces {
            layers,
            ranks,
            positions,
        } = places_of(alloc, sheets.as_slice(), rules.as_slice())?;
        Ok(Sheets {
            sheets,
            last,
            rules,
            selectors,
            ranks,
            positions,
            layers,
        })
    }

    /// The sheets, disabled ones too, in their order.
    pub fn sheets(&self) -> &[KeptSheet]
        ensures { result.now ≡ self.now.sheets.items }
    {
        &self.sheets
    }

    /// The rules of the enabled sheets, in their order.
    pub fn rules(&self) -> &[SheetRule]
        ensures list { result.now ≡ self.now.rules.items }
        ensures of_sheets { AreRulesOf self.now.sheets.items result.now self.now.selectors.items }
    {
        &self.rules
    }

    /// The selectors of each rule.
    pub fn selectors(&self) -> &[Vec<Selector>]
        ensures list { result.now ≡ self.now.selectors.items }
        ensures paired { length result.now ≡ length self.now.rules.items }
        ensures of_sheets { AreRulesOf self.now.sheets.items self.now.rules.items result.now }
    {
        &self.selectors
    }

    /// The rank of the layer of each rule among those of its origin.
    pub fn ranks(&self) -> &[u32]
        ensures list { result.now ≡ map (rank_seen self.now.layers) self.now.rules.items }
        ensures paired { length result.now ≡ length self.now.rules.items }
    {
        &self.ranks
    }

    /// The position of the sheet of each rule among the enabled ones, from 0.
    pub fn positions(&self) -> &[u32]
        ensures list { result.now ≡ self.now.positions.items }
        ensures paired { length result.now ≡ length self.now.rules.items }
        ensures of_sheets { result.now ≡ positions_from 0 self.now.sheets.items }
    {
        &self.positions
    }

    /// The cascade layers of the enabled sheets.
    pub fn layers(&self) -> &Layers
        ensures layers { result.now ≡ self.now.layers }
        ensures of_sheets { result.now ≡ layers_of_sheets (map kept_seen self.now.sheets.items) }
    {
        &self.layers
    }
}

/// The layers of a list of sheets, and of each of its rules the rank of its layer and the position of its sheet.
#[derive(Drop)]
struct RulePlaces {
    layers: Layers,
    ranks: Vec<u32>,
    positions: Vec<u32>,
}

/// Where the rules of the enabled ones among sheets are.
fn places_of(
    alloc: Global,
    sheets: &[KeptSheet],
    rules: &[SheetRule],
) -> Result<RulePlaces, NoMemory>
    requires few { length sheets.now ≤ sheet_limit }
    requires room { length (taking sheets.now) ≤ length rules.now }
    ensures layers { IfOk result (λ made. made.layers ≡ layers_of_sheets (map kept_seen sheets.now)) }
    ensures ranks { IfOk result (λ made. made.ranks.items ≡ map (rank_seen made.layers) rules.now) }
    ensures positions { IfOk result (λ made. made.positions.items ≡ positions_from 0 sheets.now) }
{
    let layers = layers_of(alloc, sheets)?;
    let ranks = ranks_of(alloc, &layers, rules)?;
    let mut positions = Vec::with_capacity(alloc, rules.len())?;
    put_positions(&mut positions, sheets);
    Ok(RulePlaces {
        layers,
        ranks,
        positions,
    })
}
