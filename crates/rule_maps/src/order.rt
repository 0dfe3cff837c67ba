//! Rows in the order of their names.

ghost use Rattle.std.specs.Prelude.{OnOk};
ghost use Rattle.std.specs.Prelude.{◌≡◌};
ghost use Rattle.rule_maps.specs.NameOrder.{name_cmp};
ghost use Rattle.rule_maps.specs.Rows.{AreSorted, HaveSameNamed, name_of};

use crate::name_order::compare;
use crate::rows::Row;
use std::cmp::Ordering;
use stylo_base::NoMemory;

/// Sorts rows by their names. Those of one name keep their order. The only error is that memory ran out.
pub(crate) fn sort_rows(rows: &mut Vec<Row<'_>>) -> Result<(), NoMemory>
    ensures sorted { OnOk result (AreSorted rows.new.items) }
    ensures stable { OnOk result (HaveSameNamed rows.old.items rows.new.items) }
{
    rows.sort_by(
        |a: &Row<'_>, b: &Row<'_>| -> Ordering
            ensures { result ≡ name_cmp (name_of a.now) (name_of b.now) }
        { compare(a.name, b.name) },
    )?;
    Ok(())
}
