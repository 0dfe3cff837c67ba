//! The layers that names declare, each with those directly in it.

ghost use Rattle.std.specs.Prelude.{◌≡◌, ◌+◌, ◌<◌, ◌≤◌, ◌^◌, [], IfOk, OnOk, length, map, replicate, true};
ghost use Rattle.layer_model.specs.Order.{is_directly_in, with_names};
ghost use Rattle.layer_order.specs.Known.{AreDeclared, AreNested, layer_at};
ghost use Rattle.layer_order.specs.Nested.{IsNesting, below_at, inside_at};

use crate::LayerName;
use indexmap::IndexSet;
use std::alloc::Global;
use stylo_base::NoMemory;

/// How many layers there may be: a place of one is a `u32`.
pub(crate) const MOST: usize = 4_294_967_295;

/// The layers that names declare, by first appearance, and for each the places of those directly in it, and last of
/// those that are in none.
#[derive(Drop)]
pub(crate) struct Nesting {
    pub(crate) layers: IndexSet<LayerName>,
    inner: Vec<Vec<u32>>,
}

impl Nesting {
    /// Finds for each layer those directly in it.
    pub(crate) fn of(alloc: Global, layers: IndexSet<LayerName>) -> Result<Nesting, NoMemory>
        requires { AreDeclared layers.keys }
        ensures same { IfOk result (λ n. n.layers.keys ≡ layers.keys) }
        ensures nested { IfOk result IsNesting }
    {
        if layers.len() > MOST {
            return Err(NoMemory);
        }
        let inner = inner_of(alloc, &layers)?;
        Ok(Nesting { layers, inner })
    }

    /// Adds to `order` the layer of this place, and before it all that are in it, lowest first.
    #[cycle(below)]
    pub(crate) fn add_below(
        &self,
        order: &mut IndexSet<LayerName>,
        place: usize,
        levels: usize,
    ) -> Result<(), NoMemory>
        requires nested { IsNesting self.now }
        requires within { place ≤ length self.now.layers.keys }
        ensures { OnOk result (order.new.keys ≡ with_names order.old.keys (below_at self.now levels place)) }
    {
        self.add_inner(order, place, levels)?;
        order.insert(self.layer_at(place)?)?;
        Ok(())
    }

    /// Adds those that are directly in the layer of this place, each after all that are in it.
    #[cycle(below)]
    fn add_inner(
        &self,
        order: &mut IndexSet<LayerName>,
        place: usize,
        levels: usize,
    ) -> Result<(), NoMemory>
        requires nested { IsNesting self.now }
        requires within { place ≤ length self.now.layers.keys }
        ensures { OnOk result (order.new.keys ≡ with_names order.old.keys (inside_at self.now levels place)) }
    {
        if levels == 0 {
            return Ok(());
        }
        for inside in &self.inner[place] {
            self.add_below(order, *inside as usize, levels - 1)?;
        }
        Ok(())
    }

    /// The layer of this place; past the last stands what is in no layer.
    fn layer_at(&self, place: usize) -> Result<LayerName, NoMemory>
        ensures { IfOk result (λ name. name ≡ layer_at self.now.layers.keys place) }
    {
        match self.layers.get_index(place) {
            Some(layer) => layer.share(),
            None => Ok(LayerName::none()),
        }
    }
}

/// For each layer the places of those directly in it, and last of those in none.
fn inner_of(alloc: Global, layers: &IndexSet<LayerName>) -> Result<Vec<Vec<u32>>, NoMemory>
    requires declared { AreDeclared layers.now.keys }
    requires few { length layers.now.keys < 2 ^ 32 }
    ensures { IfOk result (λ inner.
        AreNested layers.now.keys (length layers.now.keys) (map (λ v. v.items) inner.items)) }
{
    let mut inner = empty_lists(alloc, layers.len() + 1)?;
    for place in 0..layers.len() {
        put_inside(&mut inner, layers, place)?;
    }
    Ok(inner)
}

/// Adds a layer to the list of the one that it is directly in.
fn put_inside(
    inner: &mut Vec<Vec<u32>>,
    layers: &IndexSet<LayerName>,
    place: usize,
) -> Result<(), NoMemory>
    requires declared { AreDeclared layers.now.keys }
    requires few { length layers.now.keys < 2 ^ 32 }
    requires within { place < length layers.now.keys }
    requires nested { AreNested layers.now.keys place (map (λ v. v.items) inner.old.items) }
    ensures { OnOk result (AreNested layers.now.keys (place + 1) (map (λ v. v.items) inner.new.items)) }
{
    let list = &mut inner[outer_place(layers, place)];
    list.push(place as u32)?;
    Ok(())
}

/// This many empty lists.
fn empty_lists(alloc: Global, count: usize) -> Result<Vec<Vec<u32>>, NoMemory>
    ensures { IfOk result (λ lists. map (λ v. v.items) lists.items ≡ replicate count []) }
{
    let mut lists = Vec::new(alloc);
    for _ in 0..count {
        lists.push(Vec::new(alloc))?;
    }
    Ok(lists)
}

/// The place of the layer that a layer is directly in.
fn outer_place(layers: &IndexSet<LayerName>, place: usize) -> usize
    requires declared { AreDeclared layers.now.keys }
    requires within { place < length layers.now.keys }
    ensures within { result ≤ length layers.now.keys }
    ensures directly { is_directly_in (layer_at layers.now.keys result) (layer_at layers.now.keys place) ≡ true }
{
    match layers.as_slice()[place].outer() {
        Some(outer) => layers.get_index_of(outer).unwrap_or(layers.len()),
        None => layers.len(),
    }
}
