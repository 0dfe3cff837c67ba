//! The buckets that an element looks at.

ghost use Rattle.std.specs.Prelude.{◌≡◌, ◌∷◌, [], false, MatchOption, map as mapped};
ghost use Rattle.rule_maps.specs.SlotView.{place_seen};
ghost use Rattle.rule_maps.specs.View.{buckets_left, in_bucket};

use crate::map::RuleMap;
use crate::pair::Pair;
use dom_tree::{AttributeNames, ElementNames};
use std::marker::Model;

/// The buckets of a map that an element looks at: what any element may match, then one for each name, then one for each
/// attribute. Contracts see the places of those that are left.
#[derive(Drop)]
pub struct Buckets<'a> {
    map: &'a RuleMap,
    names: ElementNames<'a>,
    attributes: AttributeNames<'a>,
    /// Whether what any element may match was given.
    rest: bool,
    /// How many names were given.
    name: usize,
    /// How many attributes were given.
    attribute: usize,
}

impl<'a> Model for Buckets<'a> {
    ghost use Rattle.std.specs.Prelude.{List, drop, map as mapped};
    ghost use Rattle.rule_map_model.specs.Places.{Place};
    ghost use Rattle.rule_maps.specs.View.{buckets_left, in_bucket};

    ghost Value = { List (List Place) };

    ghost view = { λ b. mapped (in_bucket b.map.now)
        (buckets_left b.rest (drop b.name b.names) (drop b.attribute b.attributes)) };
}

impl<'a> Buckets<'a> {
    /// Those of an element with these names and these names of attributes.
    #[inline]
    pub(crate) fn new(
        map: &'a RuleMap,
        names: ElementNames<'a>,
        attributes: AttributeNames<'a>,
    ) -> Buckets<'a>
        ensures { result ≡ mapped (in_bucket map.now) (buckets_left false names.entry attributes.entry) }
    {
        Buckets {
            map,
            names,
            attributes,
            rest: false,
            name: 0,
            attribute: 0,
        }
    }

    /// The pairs of the next bucket, which may be empty. None: all were given.
    #[inline(always)]
    pub fn next(&mut self) -> Option<&'a [Pair]>
        ensures { MatchOption result (self.old ≡ [])
            (λ pairs. self.old ≡ mapped place_seen pairs.now ∷ self.new) }
    {
        let map = self.map;
        let (name, attribute) = (self.name, self.attribute);
        if !self.rest {
            self.rest = true;
            return Some(&map.rest);
        }
        if name < self.names.len() {
            self.name = name + 1;
            return Some(map.under_name(&self.names, name));
        }
        if attribute < self.attributes.len() {
            self.attribute = attribute + 1;
            return Some(map.under_attribute(&self.attributes, attribute));
        }
        None
    }
}
