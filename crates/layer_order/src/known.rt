//! The layers that names declare, by first appearance.

ghost use Rattle.std.specs.Prelude.{◌≡◌, IfOk, OnOk};
ghost use Rattle.layer_model.specs.Order.{declared, fronts, names_of, with_names};
ghost use Rattle.layer_order.specs.Known.{AreDeclared};
ghost use Rattle.layer_order.specs.View.{declarations, origin_of};

use crate::{LayerName, Origin};
use indexmap::IndexSet;
use std::alloc::Global;
use stylo_base::NoMemory;

/// The layers that the names of an origin declare.
pub(crate) fn declared_in(
    alloc: Global,
    list: &[(Origin, LayerName)],
    origin: Origin,
) -> Result<IndexSet<LayerName>, NoMemory>
    ensures { IfOk result (λ known. known.keys ≡ declared (names_of (origin_of origin) (declarations list.now))) }
{
    let mut known = IndexSet::new(alloc);
    for (from, name) in list {
        if from.rank() == origin.rank() {
            add(&mut known, name)?;
        }
    }
    Ok(known)
}

/// Adds a layer, and before it those that it is in. Of a layer that is known all of these are known.
fn add(known: &mut IndexSet<LayerName>, name: &LayerName) -> Result<(), NoMemory>
    requires { AreDeclared known.old.keys }
    ensures { OnOk result (known.new.keys ≡ with_names known.old.keys (fronts name.now)) }
{
    let Some(outer) = name.outer() else {
        return Ok(());
    };
    if known.contains(name) {
        return Ok(());
    }
    add(known, outer)?;
    known.insert(name.share()?)?;
    Ok(())
}
