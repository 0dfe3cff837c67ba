//! The declared values of custom properties.

use crate::substituted_value::SubstitutedValue;
use crate::substitution::Substitution;
use css_tokens::{CustomValue, Wide};
use shorthands::{Declared, Given};
use std::alloc::Global;
use stylo_base::NoMemory;

/// Reads declared values as values of custom properties. The `var()`s in them are substituted later,
/// when all declarations of custom properties are known.
#[derive(Clone, Copy)]
pub(crate) struct CustomDeclarations;

impl<'a> Substitution<'a> for CustomDeclarations {
    ghost use Rattle.custom_model.specs.Value as model;
    ghost use Rattle.cascade_model.specs.Ending.{custom_meaning};

    type Value = &'a CustomValue;

    ghost Seen = { model.CustomValue };

    ghost seen = { λ value. value.now };

    ghost substituted = { λ c. custom_meaning };

    fn substituted(
        &mut self,
        _alloc: Global,
        declared: &'a Declared,
    ) -> Result<SubstitutedValue<&'a CustomValue>, NoMemory> {
        match &declared.given {
            Given::Holding(value) => Ok(SubstitutedValue::Value(value)),
            Given::Wide(word) => Ok(SubstitutedValue::Keyword(*word)),
            Given::Exactly(_) | Given::Referring(_) => Ok(SubstitutedValue::Keyword(Wide::Unset)),
        }
    }
}
