//! The order of cascade layers.

use layer_order::{LayerName, Layers, Origin, Part, same_relative_order};
use std::alloc::Global;
use std::test::Fail;
use stylo_base::{Atom, NoMemory, Text};

fn named(alloc: Global, text: &str) -> Result<Part, NoMemory> {
    Ok(Part::Named(Atom::of_text(Text::of_str(alloc, text)?)))
}

/// `a.b`
fn nested(alloc: Global) -> Result<LayerName, NoMemory> {
    let outer = LayerName::none().within(alloc, named(alloc, "a")?)?;
    let inner = outer.within(alloc, named(alloc, "b")?)?;
    inner.share()
}

/// the layers of an author's sheet that declares that one
fn layers(alloc: Global) -> Result<Layers, NoMemory> {
    let list = [(Origin::Author, nested(alloc)?)];
    Layers::of(alloc, &list)
}

#[test]
fn no_layer_is_last(rt: HostRuntime) -> Result<(), Fail> {
    let layers = layers(rt.alloc())?;
    assert_eq!(rt; layers.rank(Origin::Author, &LayerName::none()), 2);
    Ok(())
}

/// the layers of an author's sheet that declares layers of one part
fn layers_named(alloc: Global, names: [&str; 2]) -> Result<Layers, NoMemory> {
    let first = LayerName::none().within(alloc, named(alloc, names[0])?)?;
    let second = LayerName::none().within(alloc, named(alloc, names[1])?)?;
    let list = [(Origin::Author, first), (Origin::Author, second)];
    Layers::of(alloc, &list)
}

/// whether layers of these names keep the order that layers of those have
fn keep_order(alloc: Global, before: [&str; 2], after: [&str; 2]) -> Result<bool, NoMemory> {
    let before = layers_named(alloc, before)?;
    let after = layers_named(alloc, after)?;
    Ok(same_relative_order(&before, &after))
}

#[test]
fn turned_layers_are_swapped(rt: HostRuntime) -> Result<(), Fail> {
    let stays = keep_order(rt.alloc(), ["a", "b"], ["b", "c"])?;
    let turned = keep_order(rt.alloc(), ["a", "b"], ["b", "a"])?;
    assert_eq!(rt; (stays, turned), (true, false));
    Ok(())
}
