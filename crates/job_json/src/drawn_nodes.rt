//! The document of a generated job.

ghost use Rattle.std.specs.Prelude.{◌≡◌, ◌<◌, ◌≤◌, ◌-◌, ◌/◌, ◌++◌, ◌∷◌, [], Some, codes, length, map, IfOk, OnOk};
ghost use Rattle.std.specs.Str.{chars};
ghost use Rattle.dom_tree.specs.View.{pair_of};
ghost use Rattle.job_json.specs.Gen.{drawn_node, drawn_nodes, html, plain_node};

use crate::draws::{draw, tag_text, write_class, write_id};
use dom_tree::{Attr, NodeInput, NodeList, States};
use rand_xoshiro::SplitMix64;
use std::alloc::Global;
use stylo_base::{NoMemory, Text};

/// Draws the document of so many nodes.
pub(crate) fn draw_nodes(
    alloc: Global,
    rng: &mut SplitMix64,
    nodes: u32,
) -> Result<NodeList, NoMemory>
    requires { 1 ≤ nodes }
    ensures list { IfOk result (λ list. list ≡ (drawn_nodes nodes rng.old).0) }
    ensures state { OnOk result (rng.new ≡ (drawn_nodes nodes rng.old).1) }
    ensures count { IfOk result (λ list. length list ≡ nodes) }
{
    let mut list = html(alloc)?;
    let mut class = Text::new(alloc);
    let mut id = Text::new(alloc);
    for index in 1..nodes {
        draw_node(&mut list, index, rng, &mut class, &mut id)?;
    }
    Ok(list)
}

/// The list of the root alone.
fn html(alloc: Global) -> Result<NodeList, NoMemory>
    ensures { IfOk result (λ list. list ≡ html ∷ []) }
{
    NodeList::of_root(
        alloc,
        NodeInput {
            tag: "html",
            attrs: &[],
            states: States::default(),
        },
    )
}

/// Draws the node at an index, and appends it. Its texts are written to `class` and `id`.
fn draw_node(
    list: &mut NodeList,
    index: u32,
    rng: &mut SplitMix64,
    class: &mut Text,
    id: &mut Text,
) -> Result<(), NoMemory>
    requires low { 1 ≤ index }
    requires next { length list.old ≡ index }
    ensures node { OnOk result (list.new ≡ list.old ++ (drawn_node index rng.old).0 ∷ []) }
    ensures state { OnOk result (rng.new ≡ (drawn_node index rng.old).1) }
{
    let tag = draw(rng, 4);
    let k = draw(rng, 16);
    let chance = draw(rng, 8);
    write_class(class, k)?;
    if chance == 0 {
        write_id(id, u64::from(index))?;
        push_with_id(list, index, tag_text(tag), class.as_str(), id.as_str())
    } else {
        push_without_id(list, index, tag_text(tag), class.as_str())
    }
}

/// Appends a node with a class and an id.
fn push_with_id<'a>(
    list: &mut NodeList,
    index: u32,
    tag: &'a str,
    class: &'a str,
    id: &'a str,
) -> Result<(), NoMemory>
    requires low { 1 ≤ index }
    requires next { length list.old ≡ index }
    ensures { OnOk result (list.new ≡ list.old ++ plain_node (Some ((index - 1) / 4)) (chars tag.now)
        ((codes "class", chars class.now) ∷ (codes "id", chars id.now) ∷ []) ∷ []) }
{
    let attrs = [
        Attr {
            name: "class",
            value: class,
        },
        Attr {
            name: "id",
            value: id,
        },
    ];
    push(list, index, tag, &attrs)
}

/// Appends a node with a class alone.
fn push_without_id<'a>(
    list: &mut NodeList,
    index: u32,
    tag: &'a str,
    class: &'a str,
) -> Result<(), NoMemory>
    requires low { 1 ≤ index }
    requires next { length list.old ≡ index }
    ensures { OnOk result (list.new ≡ list.old ++ plain_node (Some ((index - 1) / 4)) (chars tag.now)
        ((codes "class", chars class.now) ∷ []) ∷ []) }
{
    let attrs = [Attr {
        name: "class",
        value: class,
    }];
    push(list, index, tag, &attrs)
}

/// Appends the node at an index: a node has up to four children.
fn push(list: &mut NodeList, index: u32, tag: &str, attrs: &[Attr<'_>]) -> Result<(), NoMemory>
    requires low { 1 ≤ index }
    requires next { length list.old ≡ index }
    ensures { OnOk result (list.new
        ≡ list.old ++ plain_node (Some ((index - 1) / 4)) (chars tag.now) (map pair_of attrs.now) ∷ []) }
{
    list.push(
        (index - 1) / 4,
        NodeInput {
            tag,
            attrs,
            states: States::default(),
        },
    )
}
