//! What the name of a declaration names, but for a custom property.

ghost use Rattle.std.specs.Prelude.{◌≡◌, map, option_map};
ghost use Rattle.std.specs.Str.{chars};
ghost use Rattle.sheet_model.specs.Declared.{property_name_in};
ghost use Rattle.sheet_model.specs.Shorthands.{longhands_named};
ghost use Rattle.property_table.specs.View.{property_of};
ghost use Rattle.shorthands.specs.View.{property_name_of};

use crate::Short;
use property_table::{PropId, by_name};
use std::slice;

/// A property, or a shorthand.
#[derive(Clone, Copy, Debug)]
pub enum PropertyName {
    Longhand(PropId),
    Shorthand(Short),
}

impl PropertyName {
    /// What the name names, ignoring ASCII case.
    pub fn named(name: &str) -> Option<PropertyName>
        ensures { option_map property_name_of result ≡ property_name_in (chars name.now) }
    {
        match by_name(name) {
            Some(id) => Some(PropertyName::Longhand(id)),
            None => Some(PropertyName::Shorthand(Short::named(name)?)),
        }
    }

    /// The properties that it sets, in the order of the table.
    pub fn longhands(&self) -> &[PropId]
        ensures { map property_of result.now ≡ longhands_named (property_name_of self.now) }
    {
        match self {
            PropertyName::Longhand(id) => slice::from_ref(id),
            PropertyName::Shorthand(short) => short.longhands(),
        }
    }
}
