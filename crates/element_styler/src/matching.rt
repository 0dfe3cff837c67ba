//! The declarations that apply to an element.

ghost use Rattle.std.specs.Prelude.{◌≡◌, ◌++◌, List, IfOk, OnOk, flat_map};
ghost use Rattle.scene_model.specs.Lookups.{IsElement};
ghost use Rattle.scene_model.specs.Ancestors.{ancestors};
ghost use Rattle.ancestor_filter.specs.Names.{StandsFor};
ghost use Rattle.cascade_model.specs.Matching.{all_matched, matching};
ghost use Rattle.cascade_core.specs.View.{lent_of, matched_of};
ghost use Rattle.layer_model.specs.Order.{Layers};
ghost use Rattle.selector_types.specs.declared.selector.Selector.{Selector};
ghost use Rattle.shorthands.specs.View.{declared_of};
ghost use Rattle.sheet_set.specs.Ranks.{rank_seen};
ghost use Rattle.sheet_set.specs.View.{placed_rule_of, put_at, sources_seen};
ghost use Rattle.element_styler.specs.MatchedRules.{declarations_of};
ghost use Rattle.element_styler.specs.Prepared.{IsMapOf};
ghost use Rattle.rule_maps.specs.RulesView.{rules_seen};

use crate::finder::Finder;
use crate::matched_rules::{MatchedRule, matching_rules};
use crate::style_attribute::{attach_owned, declared_in};
use ancestor_filter::Filter;
use cascade_core::{CascadePriority, LentMatched, Matched};
use dom_tree::Doc;
use rule_maps::RuleMap;
use selector_types::Specificity;
use sheet_set::{SheetRule, Sheets};
use std::alloc::Global;
use stylo_base::NoMemory;

/// The declarations that apply to `x`, by the rule map of the sheets and a filter that stands for the names of
/// the ancestors of `x`: those of the rules with a selector that holds there, in the order of the rules, and then
/// those of its `style` attribute. One of a shorthand stands for those of its properties. The only error is that
/// memory ran out.
pub fn match_element<'a>(
    alloc: Global,
    doc: &Doc,
    sheets: &'a Sheets,
    map: &RuleMap,
    filter: &Filter,
    x: u32,
) -> Result<Vec<Matched<'a>>, NoMemory>
    requires element { IsElement doc.now.elements x }
    requires map { IsMapOf (rules_seen sheets.now.selectors.items) map.now }
    requires above { StandsFor doc.now.elements (ancestors doc.now.elements x) filter.now }
    ensures { IfOk result (λ list.
        flat_map matched_of list.items ≡ matching doc.now.elements (sources_seen sheets.now) x) }
{
    let finder = Finder {
        doc,
        sheets,
        map,
        filter,
    };
    let mut found = Vec::new(alloc);
    let mut hits = Vec::new(alloc);
    matching_rules(&mut found, &mut hits, &finder, x)?;
    let mut list = all_held(alloc, declarations(alloc, sheets, &found)?)?;
    let declared = declared_in(alloc, doc.attribute(x, "style"))?;
    attach_owned(&mut list, sheets.layers(), declared)?;
    Ok(list)
}

/// The same declarations, to be kept beside others that are owned.
fn all_held<'a>(alloc: Global, lent: Vec<LentMatched<'a>>) -> Result<Vec<Matched<'a>>, NoMemory>
    ensures { IfOk result (λ list. flat_map matched_of list.items ≡ flat_map lent_of lent.entry.items) }
{
    let mut list = Vec::with_capacity(alloc, lent.len())?;
    for one in lent {
        list.push(one.held())?;
    }
    Ok(list)
}

/// The declarations of these rules, in their order.
pub(crate) fn declarations<'a>(
    alloc: Global,
    sheets: &'a Sheets,
    found: &[MatchedRule],
) -> Result<Vec<LentMatched<'a>>, NoMemory>
    ensures { IfOk result (λ list.
        flat_map lent_of list.items ≡ declarations_of (sources_seen sheets.now) found.now) }
{
    let rules = sheets.rules();
    let ranks = sheets.ranks();
    let positions = sheets.positions();
    let mut list = Vec::with_capacity(alloc, room(rules, found))?;
    for one in found {
        if let Some(rule) = rules.get(one.rule) {
            let place = RulePlace {
                rank: ranks[one.rule],
                position: positions[one.rule],
            };
            add_declarations(&mut list, rule, place, one.specificity)?;
        }
    }
    Ok(list)
}

/// For how many declarations of these rules there is to be room.
fn room(rules: &[SheetRule], found: &[MatchedRule]) -> usize {
    let mut room: usize = 0;
    for one in found {
        if let Some(rule) = rules.get(one.rule) {
            room = room.saturating_add(rule.declarations().len());
        }
    }
    room
}

/// The rank of a rule's layer, and the position of its sheet.
#[derive(Clone, Copy)]
struct RulePlace {
    rank: u32,
    position: u32,
}

/// Adds the declarations of a rule at a place.
fn add_declarations<'a>(
    list: &mut Vec<LentMatched<'a>>,
    rule: &'a SheetRule,
    place: RulePlace,
    specificity: Specificity,
) -> Result<(), NoMemory>
    ensures { (layers : Layers) (selectors : List Selector) → place.rank ≡ rank_seen layers rule.now
        → OnOk result (flat_map lent_of list.new.items ≡ flat_map lent_of list.old.items
        ++ all_matched layers (put_at place.position (placed_rule_of rule.now selectors)) specificity
        rule.now.body.value.first_index (flat_map declared_of rule.now.body.value.declarations.items)) }
{
    let mut index = rule.first_index();
    for declared in rule.declarations() {
        let priority = CascadePriority {
            origin: rule.origin(),
            attached: false,
            layer: place.rank,
            specificity,
            sheet: rule.sheet(),
            position: place.position,
            index,
        };
        let one = LentMatched { declared, priority };
        list.extend_from_slice(&[one])?;
        index += declared.count();
    }
    Ok(())
}
