//! The layers that sheets declare.

ghost use Rattle.std.specs.Prelude.{◌≡◌, ◌++◌, IfOk, OnOk, flat_map, map};
ghost use Rattle.layer_order.specs.View.{declarations};
ghost use Rattle.sheet_model.specs.Sources.{enabled_among, layers_of_sheets, sheet_layers};
ghost use Rattle.sheet_set.specs.Kept.{kept_seen};

use crate::KeptSheet;
use layer_order::{LayerName, Layers, Origin};
use std::alloc::Global;
use stylo_base::NoMemory;

/// The layers of the enabled ones among sheets.
pub(crate) fn layers_of(alloc: Global, sheets: &[KeptSheet]) -> Result<Layers, NoMemory>
    ensures { IfOk result (λ layers. layers ≡ layers_of_sheets (map kept_seen sheets.now)) }
{
    let mut found = Vec::new(alloc);
    add_layers_of(&mut found, sheets)?;
    Layers::of(alloc, found.as_slice())
}

/// Adds the layers that the enabled ones among sheets declare.
pub(crate) fn add_layers_of(
    found: &mut Vec<(Origin, LayerName)>,
    sheets: &[KeptSheet],
) -> Result<(), NoMemory>
    ensures { OnOk result (declarations found.new.items ≡ declarations found.old.items
        ++ flat_map sheet_layers (enabled_among (map kept_seen sheets.now))) }
{
    for sheet in sheets {
        if sheet.is_enabled() {
            add_layers(found, sheet.layers())?;
        }
    }
    Ok(())
}

/// Adds these layers.
pub(crate) fn add_layers(
    found: &mut Vec<(Origin, LayerName)>,
    layers: &[(Origin, LayerName)],
) -> Result<(), NoMemory>
    ensures { OnOk result (declarations found.new.items
        ≡ declarations found.old.items ++ declarations layers.now) }
{
    for layer in layers {
        found.push((layer.0, layer.1.share()?))?;
    }
    Ok(())
}
