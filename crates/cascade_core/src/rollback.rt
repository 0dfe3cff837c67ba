//! `revert` and `revert-layer`, which take the cascade back (css-cascade-5, sections 7.3.4 and 7.3.5).

ghost use Rattle.std.specs.Prelude.{◌≡◌, IfOk, filter, map};
ghost use Rattle.property_table.specs.View.{property_of, value_seen};
ghost use Rattle.cascade_model.specs.Ending.{ending};
ghost use Rattle.cascade_model.specs.Winner.{declares_longhand};
ghost use Rattle.cascade_model.specs.Key.{key_cmp};
ghost use Rattle.std.specs.FinMap as finmap;
ghost use Rattle.cascade_core.specs.View.{bound_seen, entry_of, head_of};
ghost use Rattle.cascade_core.specs.Rollback.{Descends, bound_by, keeps, unbounded, walked};
ghost use Rattle.cascade_core.specs.CascadedValue.{cascaded_seen};
ghost use Rattle.cascade_core.specs.SubstitutedValue.{substituted_seen};
ghost use Rattle.cascade_core.specs.Declarations.{all_matched};

use crate::cascaded_value::CascadedValue;
use crate::gathered::{Wanted, gathered};
use crate::level::Level;
use crate::longhands::Longhands;
use crate::matched::compare_for;
use crate::substituted_value::SubstitutedValue;
use crate::substitution::Substitution;
use crate::{Declarations, LentMatched};
use css_tokens::Wide;
use layer_order::Origin;
use property_table::{PropId, Value};
use std::alloc::Global;
use std::cmp::Ordering;
use stylo_base::NoMemory;

/// How far the cascade was taken back: which declarations are left.
#[derive(Clone, Copy)]
pub(crate) enum RollbackBound {
    /// All declarations.
    Unbounded,
    /// Those of lower origins.
    BelowOrigin(Origin),
    /// Those of lower levels.
    BelowLevel(Level),
}

impl RollbackBound {
    /// How far a declaration takes the cascade back, whose value is `revert-layer` or `revert`.
    fn by<V: Copy>(d: &LentMatched<'_>, substituted: SubstitutedValue<V>) -> RollbackBound
        ensures { bound_seen result ≡ bound_by (head_of d.now) (substituted_seen (λ v. v) substituted) }
    {
        match substituted {
            SubstitutedValue::Keyword(Wide::RevertLayer) => RollbackBound::BelowLevel(Level::of(d)),
            _ => RollbackBound::BelowOrigin(d.priority.origin),
        }
    }

    /// Whether a declaration is left.
    fn keeps(self, d: &LentMatched<'_>) -> bool
        ensures { result ≡ keeps (bound_seen self) (head_of d.now) }
    {
        match self {
            RollbackBound::Unbounded => true,
            RollbackBound::BelowOrigin(origin) => d.priority.origin.rank() < origin.rank(),
            RollbackBound::BelowLevel(level) => Level::of(d).compare(level).is_lt(),
        }
    }
}

/// The cascaded value of a property. It sorts the declarations of the property once, so that going
/// back from one to the next takes one step; `Winners` is asked first, which takes no memory.
pub(crate) fn rolled_back<'a>(
    alloc: Global,
    declarations: Declarations<'a>,
    longhands: &mut Longhands<'a, '_>,
) -> Result<CascadedValue<Value>, NoMemory>
    ensures same { longhands.new ≡ longhands.old }
    ensures value { let values = finmap.get longhands.old.custom in
        IfOk result (λ value. cascaded_seen value_seen value
        ≡ ending values longhands.old.property (all_matched declarations.entry)) }
{
    let list = descending(alloc, declarations, longhands.id())?;
    walk(alloc, &list, longhands)
}

/// The declarations of a property, from the greatest down. Of equal ones the first comes first.
fn descending<'a>(
    alloc: Global,
    declarations: Declarations<'a>,
    id: PropId,
) -> Result<Vec<LentMatched<'a>>, NoMemory>
    ensures { IfOk result (λ list. Descends
        (filter (declares_longhand (property_of id)) (all_matched declarations.entry))
        (map (entry_of (property_of id)) list.items)) }
{
    let mut list = gathered(alloc, declarations, Wanted::Property(id))?;
    list.sort_by(
        |a: &LentMatched<'_>, b: &LentMatched<'_>| -> Ordering
            ensures { result ≡ key_cmp (entry_of (property_of id) b.now) (entry_of (property_of id) a.now) }
        { compare_for(id, b, a) },
    )?;
    Ok(list)
}

/// The cascaded value of a property or a name, where these are the declarations of it, from the
/// greatest down.
pub(crate) fn walk<'a, S: Substitution<'a>>(
    alloc: Global,
    list: &[LentMatched<'a>],
    substitution: &mut S,
) -> Result<CascadedValue<S::Value>, NoMemory>
    ensures same { substitution.new ≡ substitution.old }
    ensures value { IfOk result (λ value. cascaded_seen S.seen value
        ≡ walked (S.substituted substitution.old) unbounded (map head_of list.now)) }
{
    let mut bound = RollbackBound::Unbounded;
    for d in list {
        if bound.keeps(d) {
            let substituted = substitution.substituted(alloc, d.declared)?;
            if let Some(value) = CascadedValue::settled(substituted) {
                return Ok(value);
            }
            bound = RollbackBound::by(d, substituted);
        }
    }
    Ok(CascadedValue::Unset)
}
