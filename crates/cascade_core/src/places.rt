//! The place of the declaration that wins, for each property.

ghost use Rattle.std.specs.Prelude.{◌≡◌, ◌∷◌, [], ◌++◌, ◌+◌, IfOk, List, Some, option_map, slice_get};
ghost use Rattle.cascade_model.specs.Key.{Matched as Declaration};
ghost use Rattle.property_table.specs.View.{property_of};
ghost use Rattle.cascade_core.specs.Declarations.{all_matched, at_place, in_order};
ghost use Rattle.cascade_core.specs.View.{entry_of, lent_of};
ghost use Rattle.cascade_core.specs.Won.{AreWinners, won};

use crate::matched::{compare_for, is_custom};
use crate::{Declarations, LentMatched};
use property_table::{COUNT, PropId, PropertySet};
use stylo_base::NoMemory;

/// For each property the place of the declaration that wins among those that were added, and whether
/// one of them declares a custom property.
#[derive(Drop)]
pub(crate) struct Places {
    /// The place of the winner of each row of the table; 0 where there is none.
    rows: [u32; COUNT],
    /// The properties that have a winner.
    declared: PropertySet,
    have_custom: bool,
}

impl Places {
    /// The places of the winners among all these declarations. Of two that compare as equal the
    /// earlier one wins.
    pub(crate) fn of(declarations: Declarations<'_>) -> Result<Places, NoMemory>
        ensures { IfOk result (λ places.
            AreWinners (in_order declarations.entry) places (all_matched declarations.entry)) }
    {
        let mut places = Places::none();
        let mut place = 0;
        for d in declarations.matched {
            place = next(place)?;
            places.add(declarations, place, d);
        }
        for d in declarations.attached {
            place = next(place)?;
            places.add(declarations, place, d);
        }
        Ok(places)
    }

    /// The place of the winner of a property; 0 where there is none.
    pub(crate) fn place(&self, id: PropId) -> u32
        ensures { slice_get self.now.rows (property_of id) ≡ Some result }
    {
        self.rows[id.row()]
    }

    /// The properties that have a winner.
    pub(crate) fn declared(&self) -> &PropertySet
        ensures { result.now ≡ self.now.declared }
    {
        &self.declared
    }

    /// Whether a declaration of a custom property was added.
    pub(crate) fn have_custom(&self) -> bool
        ensures { result ≡ self.now.have_custom }
    {
        self.have_custom
    }

    /// No declaration was added.
    fn none() -> Places
        ensures { (list : List LentMatched) → AreWinners list result [] }
    {
        Places {
            rows: [0; COUNT],
            declared: PropertySet::new(),
            have_custom: false,
        }
    }

    /// Adds the declaration at a place. A shorthand's counts as one for each of its longhands.
    fn add(&mut self, declarations: Declarations<'_>, place: u32, d: &LentMatched<'_>)
        requires { at_place (in_order declarations) place ≡ Some d.now }
        ensures { (ds : List Declaration) → AreWinners (in_order declarations.entry) self.old ds
            → AreWinners (in_order declarations.entry) self.new (ds ++ lent_of d.now) }
    {
        if is_custom(d) {
            self.have_custom = true;
            return;
        }
        let ids = d.declared.longhands();
        for id in ids {
            self.put(declarations, *id, place, d);
        }
    }

    /// Adds the declaration at a place as one of this property.
    fn put(&mut self, declarations: Declarations<'_>, id: PropId, place: u32, d: &LentMatched<'_>)
        requires { at_place (in_order declarations) place ≡ Some d.now }
        ensures { (ds : List Declaration) → AreWinners (in_order declarations.entry) self.old ds
            → AreWinners (in_order declarations.entry) self.new (ds ++ entry_of (property_of id) d.now ∷ []) }
    {
        let row = id.row();
        self.rows[row] = self.better(declarations, id, place, d);
        self.declared.insert(id);
    }

    /// The place of the winner of a property once the declaration at `place` is added to it.
    fn better(
        &self,
        declarations: Declarations<'_>,
        id: PropId,
        place: u32,
        d: &LentMatched<'_>,
    ) -> u32
        requires { at_place (in_order declarations) place ≡ Some d.now }
        ensures { (ds : List Declaration) → let property = property_of id in
            let list = in_order declarations.entry in
            AreWinners list self.now ds → won (ds ++ entry_of property d.now ∷ []) property
            ≡ option_map (entry_of property) (at_place list result) }
    {
        let winning = self.place(id);
        let Some(winner) = declarations.at_place(winning) else {
            return place;
        };
        if compare_for(id, winner, d).is_lt() {
            place
        } else {
            winning
        }
    }
}

/// The place after this one, from 1. No memory holds so many declarations that there is none: one
/// takes more than 50 bytes.
fn next(place: u32) -> Result<u32, NoMemory>
    ensures { IfOk result (λ n. n ≡ place + 1) }
{
    place.checked_add(1).ok_or(NoMemory)
}
