//! The values that are known while those of declared custom properties are computed.

ghost use Rattle.std.specs.Prelude.{◌≡◌};
ghost use Rattle.custom_properties.specs.KnownView.{known_value};

use crate::DeclaredMap;
use crate::values::Values;
use css_tokens::{CustomMap, CustomValue};
use stylo_base::Text;

/// The values of the declared custom properties so far, each at its place, and what others have.
#[derive(Drop)]
pub(crate) struct Known<'a, 'b> {
    pub declared: &'a DeclaredMap<'b>,
    pub values: &'a [Option<CustomValue>],
    pub others: &'a CustomMap,
}

impl<'a, 'b> Values for Known<'a, 'b> {
    ghost use Rattle.custom_properties.specs.KnownView.{known_value};

    ghost lookup = { known_value };

    fn value(&self, name: &Text) -> Option<&CustomValue> {
        let Some(place) = self.declared.place(name) else {
            return self.others.get(name.as_str());
        };
        match self.values.get(place) {
            Some(Some(value)) => Some(value),
            _ => None,
        }
    }
}
