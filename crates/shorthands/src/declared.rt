//! What a declaration declares.

ghost use Rattle.std.specs.Prelude.{◌≡◌, map};
ghost use Rattle.property_table.specs.View.{property_of};
ghost use Rattle.shorthands.specs.View.{declared_count, declared_longhands, offset_of};

use crate::Short;
use css_tokens::{CustomName, CustomValue, Wide};
use property_table::{PropId, Value};
use std::slice;

/// What is declared: a property of the table, all properties of a shorthand, or a custom property.
#[derive(Debug, Drop)]
pub enum Target {
    Longhand(PropId),
    Shorthand(Short),
    Custom(CustomName),
}

/// What it is declared to be.
#[derive(Debug, Drop)]
pub enum Given {
    /// A CSS-wide keyword (css-cascade-5, section 7.3).
    Wide(Wide),
    Exactly(Value),
    /// Tokens that refer to custom properties, which the property or the shorthand takes once they
    /// are expanded (css-variables-1, section 3).
    Referring(CustomValue),
    /// The value of a custom property.
    Holding(CustomValue),
}

/// What is declared, what it is declared to be, and whether that is `!important`. One of a shorthand
/// stands for a declaration of each of its properties (css-cascade-5, section 3).
#[derive(Debug, Drop)]
pub struct Declared {
    pub target: Target,
    pub given: Given,
    pub important: bool,
}

impl Declared {
    /// The properties of the table that are declared, in its order.
    pub fn longhands(&self) -> &[PropId]
        ensures { map property_of result.now ≡ declared_longhands self.now }
    {
        match &self.target {
            Target::Longhand(id) => slice::from_ref(id),
            Target::Shorthand(short) => short.longhands(),
            Target::Custom(_) => &[],
        }
    }

    /// How many declarations it stands for: one for each of these properties, or one of a custom
    /// property.
    pub fn count(&self) -> u64
        ensures { result ≡ declared_count self.now }
    {
        match &self.target {
            Target::Shorthand(short) => short.longhands().len() as u64,
            Target::Longhand(_) | Target::Custom(_) => 1,
        }
    }

    /// How many of these properties come before this one; 0 where it is none of them.
    pub fn offset(&self, id: PropId) -> u64
        ensures { result ≡ offset_of self.now (property_of id) }
    {
        match &self.target {
            Target::Shorthand(short) => short.offset(id),
            Target::Longhand(_) | Target::Custom(_) => 0,
        }
    }
}
