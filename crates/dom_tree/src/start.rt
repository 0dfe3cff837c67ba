//! The tree order of the nodes of a list.

ghost use Rattle.std.specs.Prelude.{◌≡◌, ◌++◌, ◌≤◌, IfOk, OnOk, length, reverse};
ghost use Rattle.base_model.specs.Limits.{element_limit};
ghost use Rattle.scene_model.specs.Nodes.{IsNodeList, listed, tree_order};
ghost use Rattle.dom_tree.specs.ChildLists.{AreChildren, AreParts, lists_of};

use crate::child_lists::ChildLists;
use crate::nodes::NodeList;
use std::alloc::Global;
use stylo_base::NoMemory;

/// The children of the nodes of a list, and the numbers of the nodes in tree order.
pub(crate) fn order_nodes(
    alloc: Global,
    list: &NodeList,
) -> Result<(ChildLists, Vec<u32>), NoMemory>
    requires { length list.now ≤ element_limit }
    ensures parts { IfOk result (λ made. AreParts made.0.flat.items made.0.spans.items) }
    ensures children { IfOk result (λ made.
        AreChildren (length list.now) (listed list.now) (lists_of made.0.flat.items made.0.spans.items)) }
    ensures order { IfOk result (λ made. made.1.items ≡ tree_order list.now) }
    ensures shape { OnOk result (IsNodeList list.now) }
{
    let children = ChildLists::of_list(alloc, list)?;
    let order = walk(alloc, list, &children)?;
    Ok((children, order))
}

/// The numbers of the nodes of `list` in tree order: a walk from the root that visits what is below a
/// node before its next sibling. `lists` are the children of each.
fn walk(alloc: Global, list: &NodeList, lists: &ChildLists) -> Result<Vec<u32>, NoMemory>
    requires few { length list.now ≤ element_limit }
    requires parts { AreParts lists.now.flat.items lists.now.spans.items }
    requires children { AreChildren (length list.now) (listed list.now)
        (lists_of lists.now.flat.items lists.now.spans.items) }
    ensures order { IfOk result (λ order. order.items ≡ tree_order list.now) }
    ensures shape { IsNodeList list.now }
{
    let mut order = Vec::with_capacity(alloc, list.len())?;
    let mut ahead = Vec::new(alloc);
    ahead.push(1)?;
    while let Some(x) = ahead.pop() {
        order.push(x)?;
        append_reversed(&mut ahead, lists.of(x))?;
    }
    Ok(order)
}

/// Appends numbers to a list, the last one first.
fn append_reversed(list: &mut Vec<u32>, numbers: &[u32]) -> Result<(), NoMemory>
    ensures { OnOk result (list.new.items ≡ list.old.items ++ reverse numbers.now) }
{
    for number in numbers.iter().rev() {
        list.push(*number)?;
    }
    Ok(())
}
