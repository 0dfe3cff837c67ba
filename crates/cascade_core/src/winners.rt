//! The declarations that apply to an element, with the one that wins for each property.

ghost use Rattle.std.specs.Prelude.{◌≡◌, ℕ, ◌<◌, IfOk, IfSome, false, length};
ghost use Rattle.custom_model.specs.Expand.{Lookup};
ghost use Rattle.property_table.specs.PropertySet.{has_row};
ghost use Rattle.property_table.specs.View.{value_seen};
ghost use Rattle.cascade_model.specs.Ending.{ending, unsets};
ghost use Rattle.std.specs.FinMap as finmap;
ghost use Rattle.value_model.specs.Table.{table};
ghost use Rattle.cascade_core.specs.CascadedValue.{cascaded_seen};
ghost use Rattle.cascade_core.specs.Declarations.{all_matched};
ghost use Rattle.cascade_core.specs.Won.{have_custom};

use crate::Declarations;
use crate::cascaded_value::CascadedValue;
use crate::longhands::Longhands;
use crate::places::Places;
use crate::rollback::rolled_back;
use crate::substitution::Substitution;
use property_table::{PropertySet, Value};
use std::alloc::Global;
use std::marker::Model;
use stylo_base::NoMemory;

/// The declarations that apply to an element, and the one that wins for each property, if there is
/// one. Contracts see the list of all these declarations, with a shorthand's as one for each of its
/// longhands.
#[derive(Drop)]
pub(crate) struct Winners<'a> {
    declarations: Declarations<'a>,
    places: Places,
}

impl<'a> Model for Winners<'a> {
    ghost use Rattle.std.specs.Prelude.{List};
    ghost use Rattle.cascade_model.specs.Key as model;
    ghost use Rattle.cascade_core.specs.Declarations.{all_matched, in_order};
    ghost use Rattle.cascade_core.specs.Won.{AreWinners};

    ghost Value = { List model.Matched };

    ghost view = { λ w. all_matched w.declarations };

    ghost invariant = { λ w. AreWinners (in_order w.declarations) w.places (all_matched w.declarations) };
}

impl<'a> Winners<'a> {
    /// The winners among these declarations.
    pub(crate) fn of(declarations: Declarations<'a>) -> Result<Winners<'a>, NoMemory>
        ensures { IfOk result (λ winners. winners ≡ all_matched declarations.entry) }
    {
        let places = Places::of(declarations)?;
        Ok(Winners {
            declarations,
            places,
        })
    }

    /// All these declarations.
    pub(crate) fn declarations(&self) -> Declarations<'a>
        ensures { all_matched result ≡ self.now }
    {
        self.declarations
    }

    /// The cascaded value of a property. It takes memory only where the winner has `var()`, or is
    /// `revert` or `revert-layer`.
    pub(crate) fn cascaded_value(
        &self,
        alloc: Global,
        longhands: &mut Longhands<'a, '_>,
    ) -> Result<CascadedValue<Value>, NoMemory>
        ensures same { longhands.new ≡ longhands.old }
        ensures value { let values = finmap.get longhands.old.custom in
            IfOk result (λ value. cascaded_seen value_seen value ≡ ending values longhands.old.property self.now) }
    {
        match self.by_winner(alloc, longhands)? {
            Some(value) => Ok(value),
            None => rolled_back(alloc, self.declarations, longhands),
        }
    }

    /// The cascaded value by the winner alone. None: the winner is `revert` or `revert-layer`.
    fn by_winner(
        &self,
        alloc: Global,
        longhands: &mut Longhands<'a, '_>,
    ) -> Result<Option<CascadedValue<Value>>, NoMemory>
        ensures same { longhands.new ≡ longhands.old }
        ensures value { let values = finmap.get longhands.old.custom in
            IfOk result (λ found. IfSome found (λ value.
            cascaded_seen value_seen value ≡ ending values longhands.old.property self.now)) }
    {
        let place = self.places.place(longhands.id());
        let Some(d) = self.declarations.at_place(place) else {
            return Ok(Some(CascadedValue::Unset));
        };
        let substituted = longhands.substituted(alloc, d.declared)?;
        Ok(CascadedValue::settled(substituted))
    }

    /// The properties that are declared. No other property has a declaration.
    pub(crate) fn declared(&self) -> &PropertySet
        ensures { (values : Lookup) (p : ℕ) → has_row p result.now ≡ false → p < length table
            → ending values p self.now ≡ unsets }
    {
        self.places.declared()
    }

    /// Whether a custom property is declared.
    pub(crate) fn have_custom(&self) -> bool
        ensures { result ≡ have_custom self.now }
    {
        self.places.have_custom()
    }
}
