//! Rules by the names that an element must have to match them.

ghost use Rattle.std.specs.Prelude.{◌≡◌, ◌<◌, ◌++◌, List, IfOk, IfSome, OnOk, length, map, slice_get};
ghost use Rattle.scene_model.specs.Lookups.{IsElement};
ghost use Rattle.scene_model.specs.Valid.{IsValid};
ghost use Rattle.selector_model.specs.Selector as model;
ghost use Rattle.ancestor_filter.specs.Names.{slot};
ghost use Rattle.rule_map_model.specs.Buckets.{of_attribute};
ghost use Rattle.rule_map_model.specs.Candidates.{candidates as model_candidates};
ghost use Rattle.rule_map_model.specs.Places.{AreLookedAt, IsMapOf};

use crate::buckets::Buckets;
use crate::gather::Gathered;
use crate::pair::Pair;
use crate::table::Table;
use dom_tree::{AttributeNames, Doc, ElementNames, NameKind};
use selector_types::Selector;
use std::alloc::Global;
use stylo_base::NoMemory;

/// The selectors of rules, each in one bucket: by the first id of its subject, else the first class, else the
/// type, else the first attribute that the subject tests, else the one of what any element may match.
#[derive(Drop)]
pub struct RuleMap {
    pub(crate) ids: Table,
    pub(crate) classes: Table,
    pub(crate) types: Table,
    pub(crate) attributes: Table,
    /// What any element may match.
    pub(crate) rest: Vec<Pair>,
}

impl RuleMap {
    ghost use Rattle.rule_maps.specs.RulesView.{rules_seen};
    ghost use Rattle.rule_maps.specs.SlotView.{place_seen};
    ghost use Rattle.rule_maps.specs.View.{bucket_named, in_bucket};

    /// That of the selectors of rules: of each rule a list. The only error is that memory ran out, and so it is
    /// where there are more than 2^32 rules, or selectors of a rule.
    pub fn of(alloc: Global, rules: &[Vec<Selector>]) -> Result<RuleMap, NoMemory>
        ensures { IfOk result (λ m. IsMapOf slot (rules_seen rules.now) (in_bucket m)) }
    {
        let mut gathered = Gathered::new(alloc);
        gathered.push_all(rules)?;
        let Gathered {
            ids,
            classes,
            types,
            attributes,
            rest,
        } = gathered;
        Ok(RuleMap {
            ids: Table::of(alloc, ids)?,
            classes: Table::of(alloc, classes)?,
            types: Table::of(alloc, types)?,
            attributes: Table::of(alloc, attributes)?,
            rest,
        })
    }

    /// What `x` looks at, bucket by bucket: each selector that holds there is in one of them. It takes no memory.
    #[inline]
    pub fn buckets<'a>(&'a self, doc: &'a Doc, x: u32) -> Buckets<'a>
        requires { IsElement doc.now.elements x }
        ensures looked { AreLookedAt doc.now.elements x (in_bucket self.now) result }
        ensures valid { IsValid doc.now.elements }
    {
        Buckets::new(self, doc.names(x), doc.attribute_names(x))
    }

    /// The pairs under a name of an element.
    #[inline]
    pub(crate) fn under_name(&self, names: &ElementNames<'_>, index: usize) -> &[Pair]
        requires { index < length names.now }
        ensures { IfSome (slice_get names.now index)
            (λ name. map place_seen result.now ≡ in_bucket self.now (bucket_named name)) }
    {
        let table = match names.kind(index) {
            NameKind::Tag => &self.types,
            NameKind::Id => &self.ids,
            NameKind::Class => &self.classes,
        };
        if table.is_empty() {
            return &[];
        }
        table.find(names.key(index), names.text(index))
    }

    /// The pairs under the name of an attribute of an element.
    #[inline]
    pub(crate) fn under_attribute(&self, names: &AttributeNames<'_>, index: usize) -> &[Pair]
        requires { index < length names.now }
        ensures { IfSome (slice_get names.now index)
            (λ name. map place_seen result.now ≡ in_bucket self.now (of_attribute name)) }
    {
        if self.attributes.is_empty() {
            return &[];
        }
        self.attributes.find(names.key(index), names.text(index))
    }

    /// The numbers of the rules with some selector whose key `x` bears, rising, each once. The only error is that
    /// memory ran out.
    pub fn candidates(&self, alloc: Global, doc: &Doc, x: u32) -> Result<Vec<u32>, NoMemory>
        requires { IsElement doc.now.elements x }
        ensures { IfOk result (λ found. (rules : List (List model.Selector))
            → IsMapOf slot rules (in_bucket self.now)
            → found.items ≡ model_candidates doc.now.elements x rules) }
    {
        let mut found = Vec::new(alloc);
        let mut buckets = self.buckets(doc, x);
        while let Some(pairs) = buckets.next() {
            push_rules(&mut found, pairs)?;
        }
        for index in 0..self.attributes.heads.len() {
            push_rules(&mut found, self.attributes.part(index))?;
        }
        found.sort_unstable();
        found.dedup();
        Ok(found)
    }
}

/// Appends the numbers of the rules of pairs.
fn push_rules(found: &mut Vec<u32>, pairs: &[Pair]) -> Result<(), NoMemory>
    ensures { OnOk result (found.new.items ≡ found.old.items ++ map (λ pair. pair.rule) pairs.now) }
{
    for pair in pairs {
        found.push(pair.rule)?;
    }
    Ok(())
}
