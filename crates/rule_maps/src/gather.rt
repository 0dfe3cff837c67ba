//! The selectors of rules, by bucket.

ghost use Rattle.std.specs.Prelude.{◌≡◌, ◌∷◌, [], IfOk, OnOk};
ghost use Rattle.ancestor_filter.specs.Names.{slot};
ghost use Rattle.selector_types.specs.View.{selector_of, selectors_of};
ghost use Rattle.rule_map_model.specs.Buckets.{Bucket};
ghost use Rattle.rule_map_model.specs.Places.{placed, placed_from, placed_in};

use crate::ancestor_slots::slots_of;
use crate::bucket::BucketName;
use crate::pair::Pair;
use crate::rows::Row;
use selector_types::Selector;
use std::alloc::Global;
use stylo_base::NoMemory;

/// Selectors of rules: those that are found by a name, by the kind of that name, and the rest.
#[derive(Drop)]
pub(crate) struct Gathered<'a> {
    pub(crate) ids: Vec<Row<'a>>,
    pub(crate) classes: Vec<Row<'a>>,
    pub(crate) types: Vec<Row<'a>>,
    pub(crate) attributes: Vec<Row<'a>>,
    pub(crate) rest: Vec<Pair>,
}

impl<'a> Gathered<'a> {
    ghost use Rattle.rule_maps.specs.Gathered.{Gathers, bucket_seen, gathered_in};
    ghost use Rattle.rule_maps.specs.RulesView.{rules_seen};
    ghost use Rattle.rule_maps.specs.SlotView.{place_seen};

    /// No selectors.
    pub(crate) fn new(alloc: Global) -> Gathered<'a>
        ensures { (bucket : Bucket) → gathered_in result bucket ≡ [] }
    {
        Gathered {
            ids: Vec::new(alloc),
            classes: Vec::new(alloc),
            types: Vec::new(alloc),
            attributes: Vec::new(alloc),
            rest: Vec::new(alloc),
        }
    }

    /// Appends the selectors of rules. The error is also that there are more rules, or selectors of a rule, than
    /// numbers of 32 bits.
    pub(crate) fn push_all(&mut self, rules: &'a [Vec<Selector>]) -> Result<(), NoMemory>
        ensures { OnOk result (Gathers self.old self.new (placed_from slot 0 (rules_seen rules.now))) }
    {
        for index in 0..rules.len() {
            self.push_rule(number_of(index)?, &rules[index])?;
        }
        Ok(())
    }

    /// Appends the selectors of a rule.
    fn push_rule(&mut self, rule: u32, selectors: &'a [Selector]) -> Result<(), NoMemory>
        ensures { OnOk result (Gathers self.old self.new (placed_in slot rule 0 (selectors_of selectors.now))) }
    {
        for index in 0..selectors.len() {
            self.push_selector(rule, number_of(index)?, &selectors[index])?;
        }
        Ok(())
    }

    /// Appends a selector.
    fn push_selector(
        &mut self,
        rule: u32,
        number: u32,
        selector: &'a Selector,
    ) -> Result<(), NoMemory>
        ensures { OnOk result
            (Gathers self.old self.new (placed slot rule number (selector_of selector.now) ∷ [])) }
    {
        let pair = Pair {
            rule,
            selector: number,
            slots: slots_of(selector),
        };
        self.push(BucketName::of(selector), pair)
    }

    /// Appends a pair to a bucket.
    fn push(&mut self, bucket: BucketName<'a>, pair: Pair) -> Result<(), NoMemory>
        ensures { OnOk result (Gathers self.old self.new
            (record { bucket = bucket_seen bucket.entry; place = place_seen pair } ∷ [])) }
    {
        match bucket {
            BucketName::Id(name) => self.ids.push(Row { name, pair })?,
            BucketName::Class(name) => self.classes.push(Row { name, pair })?,
            BucketName::Type(name) => self.types.push(Row { name, pair })?,
            BucketName::Attribute(name) => self.attributes.push(Row { name, pair })?,
            BucketName::Any => self.rest.push(pair)?,
        }
        Ok(())
    }
}

/// An index as a number of 32 bits.
fn number_of(index: usize) -> Result<u32, NoMemory>
    ensures { IfOk result (λ number. number ≡ index) }
{
    if index > u32::MAX as usize {
        return Err(NoMemory);
    }
    Ok(index as u32)
}
