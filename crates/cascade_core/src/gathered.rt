//! The declarations to be sorted, out of all that apply.

ghost use Rattle.std.specs.Prelude.{◌≡◌, ◌∷◌, [], ◌++◌, IfOk, OnOk, filter, map, if◌then◌else◌};
ghost use Rattle.property_table.specs.View.{property_of};
ghost use Rattle.cascade_core.specs.Declarations.{all_matched};
ghost use Rattle.cascade_core.specs.View.{is_among, lent_of};
ghost use Rattle.cascade_core.specs.Wanted.{entry_by, wanted_by};

use crate::matched::is_custom;
use crate::{Declarations, LentMatched};
use property_table::PropId;
use std::alloc::Global;
use std::slice;
use stylo_base::NoMemory;

/// Which declarations are gathered.
#[derive(Clone, Copy)]
pub(crate) enum Wanted {
    /// Those that set this property, by itself or by a shorthand.
    Property(PropId),
    /// Those of custom properties.
    Custom,
}

impl Wanted {
    /// Whether a declaration is wanted.
    pub(crate) fn takes(self, d: &LentMatched<'_>) -> bool
        ensures { filter (wanted_by self) (lent_of d.now)
            ≡ (if result then entry_by self d.now ∷ [] else []) }
    {
        match self {
            Wanted::Property(id) => sets(d, id),
            Wanted::Custom => is_custom(d),
        }
    }
}

/// Whether a declaration sets the property.
fn sets(d: &LentMatched<'_>, id: PropId) -> bool
    ensures { result ≡ is_among (property_of id) d.now }
{
    d.declared.longhands().contains(&id)
}

/// The declarations that are wanted, in their order.
pub(crate) fn gathered<'a>(
    alloc: Global,
    declarations: Declarations<'a>,
    wanted: Wanted,
) -> Result<Vec<LentMatched<'a>>, NoMemory>
    ensures { IfOk result (λ list. map (entry_by wanted) list.items
        ≡ filter (wanted_by wanted) (all_matched declarations.entry)) }
{
    let mut list = Vec::new(alloc);
    for d in declarations.matched {
        add(&mut list, d, wanted)?;
    }
    for d in declarations.attached {
        add(&mut list, d, wanted)?;
    }
    Ok(list)
}

/// Adds a declaration, if it is wanted.
fn add<'a>(
    list: &mut Vec<LentMatched<'a>>,
    d: &'a LentMatched<'a>,
    wanted: Wanted,
) -> Result<(), NoMemory>
    ensures { OnOk result (map (entry_by wanted) list.new.items ≡ map (entry_by wanted) list.old.items
        ++ filter (wanted_by wanted) (lent_of d.now)) }
{
    if wanted.takes(d) {
        list.extend_from_slice(slice::from_ref(d))?;
    }
    Ok(())
}
