//! Edits of child lists, and what they touch.

ghost use Rattle.std.specs.Prelude.{◌≡◌, ◌++◌, ◌+◌, ◌<◌, ◌≤◌, ◌∷◌, IfOk, None, OnErr, OnOk, drop, length, take};
ghost use Rattle.std.specs.List.Sorted.{IsPermutation};
ghost use Rattle.scene_model.specs.Nodes.{IsNodeList};
ghost use Rattle.change_model.specs.Sound.{IsSound};
ghost use Rattle.edit_model.specs.Apply.{after, refusal};
ghost use Rattle.edit_model.specs.Edit.{insert as model_insert, move, remove as model_remove};
ghost use Rattle.edit_model.specs.TouchedPairs.{touched_pairs};

use crate::touched::Touched;
use dom_tree::{Doc, NodeList};
use smallvec::SmallVec;
use std::alloc::Global;
use stylo_base::NoMemory;

/// Puts nodes in.
pub(crate) fn insert(
    alloc: Global,
    doc: &mut Doc,
    parent: u32,
    index: usize,
    nodes: &NodeList,
) -> Result<Touched, NoMemory>
    requires sound { IsSound doc.old }
    requires shaped { IsNodeList nodes.now }
    requires accepted { refusal doc.old (model_insert parent index nodes.now) ≡ None }
    ensures ok { OnOk result (doc.new ≡ after doc.old (model_insert parent index nodes.now)) }
    ensures touched { IfOk result (λ touched.
        IsPermutation (touched_pairs doc.old (model_insert parent index nodes.now)) touched) }
    ensures kept { OnErr result (doc.new ≡ doc.old) }
{
    let top = doc.last() as u32 + 1;
    let mut parents = SmallVec::new(alloc);
    let mut children = Vec::new(alloc);
    parents.push(parent)?;
    append_with(&mut children, doc.children(parent), index, top)?;
    doc.insert(alloc, parent, index, nodes)?;
    Ok(Touched::of_lists(alloc, parents, children))
}

/// Takes a subtree out.
pub(crate) fn remove(alloc: Global, doc: &mut Doc, x: u32) -> Result<Touched, NoMemory>
    requires sound { IsSound doc.old }
    requires accepted { refusal doc.old (model_remove x) ≡ None }
    ensures ok { OnOk result (doc.new ≡ after doc.old (model_remove x)) }
    ensures touched { IfOk result (λ touched. IsPermutation (touched_pairs doc.old (model_remove x)) touched) }
    ensures kept { OnErr result (doc.new ≡ doc.old) }
{
    let mut parents = SmallVec::new(alloc);
    let mut children = Vec::new(alloc);
    let Some(parent) = doc.parent(x) else {
        return Ok(Touched::of_lists(alloc, parents, children));
    };
    parents.push(parent)?;
    append_without(&mut children, doc.children(parent), doc.place(x) as usize)?;
    doc.remove(x);
    Ok(Touched::of_lists(alloc, parents, children))
}

/// Moves a subtree.
pub(crate) fn move_to(
    alloc: Global,
    doc: &mut Doc,
    x: u32,
    parent: u32,
    index: usize,
) -> Result<Touched, NoMemory>
    requires sound { IsSound doc.old }
    requires accepted { refusal doc.old (move x parent index) ≡ None }
    ensures ok { OnOk result (doc.new ≡ after doc.old (move x parent index)) }
    ensures touched { IfOk result (λ touched. IsPermutation (touched_pairs doc.old (move x parent index)) touched) }
    ensures kept { OnErr result (doc.new ≡ doc.old) }
{
    let touched = touched_by_move(alloc, doc, x, parent, index)?;
    doc.move_to(alloc, x, parent, index)?;
    Ok(touched)
}

/// What a move touches. To where the element is, that is nothing.
fn touched_by_move(
    alloc: Global,
    doc: &Doc,
    x: u32,
    parent: u32,
    index: usize,
) -> Result<Touched, NoMemory>
    requires sound { IsSound doc.now }
    requires accepted { refusal doc.now (move x parent index) ≡ None }
    ensures { IfOk result (λ touched. IsPermutation (touched_pairs doc.now (move x parent index)) touched) }
{
    let mut parents = SmallVec::new(alloc);
    let mut children = Vec::new(alloc);
    let Some(from) = doc.parent(x) else {
        return Ok(Touched::of_lists(alloc, parents, children));
    };
    let place = doc.place(x) as usize;
    if from != parent {
        parents.push(from)?;
        parents.push(parent)?;
        append_without(&mut children, doc.children(from), place)?;
        append_with(&mut children, doc.children(parent), index, x)?;
        return Ok(Touched::of_lists(alloc, parents, children));
    }
    if place != index {
        let mut others = Vec::new(alloc);
        append_without(&mut others, doc.children(parent), place)?;
        parents.push(parent)?;
        append_with(&mut children, &others, index, x)?;
        return Ok(Touched::of_lists(alloc, parents, children));
    }
    Ok(Touched::of_lists(alloc, parents, children))
}

/// Appends items to a list, with another one put in at an index.
fn append_with(list: &mut Vec<u32>, items: &[u32], index: usize, item: u32) -> Result<(), NoMemory>
    requires { index ≤ length items.now }
    ensures { OnOk result (list.new.items ≡ list.old.items ++ (take index items.now ++ item ∷ drop index items.now)) }
{
    list.reserve(items.len() + 1)?;
    list.extend_from_slice(&items[..index])?;
    list.push(item)?;
    list.extend_from_slice(&items[index..])?;
    Ok(())
}

/// Appends items to a list, without the one at an index.
fn append_without(list: &mut Vec<u32>, items: &[u32], index: usize) -> Result<(), NoMemory>
    requires { index < length items.now }
    ensures { OnOk result (list.new.items ≡ list.old.items ++ (take index items.now ++ drop (index + 1) items.now)) }
{
    list.reserve(items.len())?;
    list.extend_from_slice(&items[..index])?;
    list.extend_from_slice(&items[index + 1..])?;
    Ok(())
}
