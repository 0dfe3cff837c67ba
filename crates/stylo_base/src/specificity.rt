//! How specific a selector is.

ghost use Rattle.std.specs.Prelude.{◌≡◌};
ghost use Rattle.base_model.specs.Specificity.{greater};

use std::marker::Model;

/// How many ids, how many classes, attributes and pseudo-classes, and how many types a selector
/// has: compared in that order.
#[derive(Clone, Copy, Debug, PartialEq, Eq, PartialOrd, Ord)]
pub struct Specificity {
    ids: u64,
    classes: u64,
    types: u64,
}

impl Model for Specificity {
    ghost use Rattle.base_model.specs.Specificity as model;

    ghost Value = { model.Specificity };

    ghost view = { λ s. record { ids = s.ids; classes = s.classes; types = s.types } };

    ghost inverse = { λ s. record { ids = s.ids; classes = s.classes; types = s.types } };
}

impl Specificity {
    /// Of these counts.
    pub fn new(ids: u64, classes: u64, types: u64) -> Specificity
        ensures { result ≡ record { ids = ids; classes = classes; types = types } }
    {
        Specificity {
            ids,
            classes,
            types,
        }
    }

    /// How many ids.
    pub fn ids(self) -> u64
        ensures { result ≡ self.ids }
    {
        self.ids
    }

    /// How many classes, attributes and pseudo-classes.
    pub fn classes(self) -> u64
        ensures { result ≡ self.classes }
    {
        self.classes
    }

    /// How many types.
    pub fn types(self) -> u64
        ensures { result ≡ self.types }
    {
        self.types
    }

    /// The more specific one.
    pub fn greater(self, other: Specificity) -> Specificity
        ensures { result ≡ greater self other }
    {
        if self < other { other } else { self }
    }
}
