//! How high the layers of rules are.

ghost use Rattle.std.specs.Prelude.{◌≡◌, ◌≤◌, IfOk, length, map, unwrap_or, vec_capacity};
ghost use Rattle.sheet_set.specs.Ranks.{rank_seen};

use crate::SheetRule;
use layer_order::Layers;
use std::alloc::Global;
use stylo_base::NoMemory;

/// The rank of the layer of each rule.
pub(crate) fn ranks_of(
    alloc: Global,
    layers: &Layers,
    rules: &[SheetRule],
) -> Result<Vec<u32>, NoMemory>
    ensures { IfOk result (λ ranks. ranks.items ≡ map (rank_seen layers.now) rules.now) }
{
    let mut ranks = Vec::with_capacity(alloc, rules.len())?;
    for rule in rules {
        ranks.push(layers.rank(rule.origin(), rule.layer()))?;
    }
    Ok(ranks)
}

/// The layers of all sheets after an edit, with the rank of each rule among them. None: both stay. It takes no memory.
pub(crate) fn put_layers(
    kept: &mut Layers,
    ranks: &mut Vec<u32>,
    layers: Option<Layers>,
    rules: &[SheetRule],
)
    requires { ranks.old.items ≡ map (rank_seen kept.old) rules.now }
    ensures layers { kept.new ≡ unwrap_or layers kept.old }
    ensures ranks { ranks.new.items ≡ map (rank_seen kept.new) rules.now }
{
    if let Some(layers) = layers {
        rank_again(ranks, &layers, rules);
        *kept = layers;
    }
}

/// Gives each rule its rank among other layers. There is room.
fn rank_again(ranks: &mut Vec<u32>, layers: &Layers, rules: &[SheetRule])
    requires { length rules.now ≤ vec_capacity ranks.old }
    ensures { ranks.new.items ≡ map (rank_seen layers.now) rules.now }
{
    ranks.clear();
    for rule in rules {
        ranks.push_reserved(layers.rank(rule.origin(), rule.layer()));
    }
}
