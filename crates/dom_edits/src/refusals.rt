//! Why an edit of a document is refused.

ghost use Rattle.std.specs.Prelude.{◌≡◌, ◌≤◌, IfErr, IfOk, None, Some, false, length, option_map};
ghost use Rattle.std.specs.Str.{chars};
ghost use Rattle.scene_model.specs.Lookups.{IsElement, children, is_element, parent_of};
ghost use Rattle.scene_model.specs.Nodes.{IsNodeList};
ghost use Rattle.change_model.specs.ChildLists.{moved};
ghost use Rattle.change_model.specs.Fresh.{is_still};
ghost use Rattle.change_model.specs.Sound.{IsSound, is_below, without};
ghost use Rattle.edit_model.specs.Apply.{limit_past, nodes_past as model_nodes_past};
ghost use Rattle.edit_model.specs.Edit.{IsShaped, insert, move, remove, set};
ghost use Rattle.edit_model.specs.Refusal.{unknown_node};
ghost use Rattle.dom_edits.specs.EditView.{doc_edit_seen, nodes_seen, refusal_answered, refused_by};
ghost use Rattle.dom_edits.specs.AcceptedView.{IsJudged};

use crate::accepted::Accepted;
use crate::edits::{DocEdit, NewNodes, NodeLimit};
use dom_tree::{Doc, NodeList};
use stylo_base::limits::{ATTRIBUTE_LIMIT, DEPTH_LIMIT, ELEMENT_LIMIT, NUMBER_LIMIT, VALUE_LIMIT};
use stylo_base::{EditRefused, Kind};

/// An edit with its numbers, where nothing refuses it, or else its refusal.
pub(crate) fn judge<'a>(doc: &Doc, edit: &'a DocEdit) -> Result<Accepted<'a>, EditRefused>
    ensures judged { IsJudged doc.now (doc_edit_seen edit.now) result }
    ensures shaped { IsShaped (doc_edit_seen edit.now) }
    ensures sound { IsSound doc.now }
{
    match edit {
        DocEdit::Insert {
            parent,
            index,
            nodes,
        } => judge_insertion(doc, *parent, *index, nodes),
        DocEdit::Remove { node } => judge_removal(doc, *node),
        DocEdit::Move {
            node,
            parent,
            index,
        } => judge_move(doc, *node, *parent, *index),
        DocEdit::Set { node, name, value } => judge_value(
            doc,
            *node,
            name.as_str(),
            value.as_str(),
        ),
        DocEdit::Unset { node, name } => Ok(Accepted::Unset {
            x: known(doc, *node)?,
            name: name.as_str(),
        }),
        DocEdit::State { node, state, on } => Ok(Accepted::State {
            x: known(doc, *node)?,
            state: *state,
            on: *on,
        }),
    }
}

/// Judges an insertion.
fn judge_insertion<'a>(
    doc: &Doc,
    parent: u64,
    index: u64,
    nodes: &'a NewNodes,
) -> Result<Accepted<'a>, EditRefused>
    ensures judged { IsJudged doc.now (insert parent index (nodes_seen nodes.now)) result }
    ensures shaped { IsNodeList (nodes_seen nodes.now) }
    ensures sound { IsSound doc.now }
{
    let count = nodes.count();
    let p = known(doc, parent)?;
    if index > doc.children(p).len() as u64 {
        return Err(EditRefused::BadPlace);
    }
    let nodes = match nodes {
        NewNodes::Kept(nodes) => nodes.list(),
        NewNodes::Past(which) => return Err(refusal_by(*which)),
    };
    match past_insertion(doc, p, index as usize, nodes, count) {
        Some(why) => Err(why),
        None => Ok(Accepted::Insert {
            parent: p,
            index: index as usize,
            nodes,
        }),
    }
}

/// Judges a removal.
fn judge_removal<'a>(doc: &Doc, node: u64) -> Result<Accepted<'a>, EditRefused>
    ensures judged { IsJudged doc.now (remove node) result }
    ensures sound { IsSound doc.now }
{
    let x = known(doc, node)?;
    match doc.parent(x) {
        Some(_) => Ok(Accepted::Remove { x }),
        None => Err(EditRefused::BadPlace),
    }
}

/// Judges a move.
fn judge_move<'a>(
    doc: &Doc,
    node: u64,
    parent: u64,
    index: u64,
) -> Result<Accepted<'a>, EditRefused>
    ensures judged { IsJudged doc.now (move node parent index) result }
    ensures sound { IsSound doc.now }
{
    let x = known(doc, node)?;
    let p = known(doc, parent)?;
    let Some(from) = doc.parent(x) else {
        return Err(EditRefused::BadPlace);
    };
    if doc.is_below(x, p) || index > count_without(doc, x, from, p) as u64 {
        return Err(EditRefused::BadPlace);
    }
    match past_move(doc, x, from, p, index as usize) {
        Some(why) => Err(why),
        None => Ok(Accepted::Move {
            x,
            parent: p,
            index: index as usize,
            still: is_there(doc, x, from, p, index as usize),
        }),
    }
}

/// Judges a value of an attribute.
fn judge_value<'a>(
    doc: &Doc,
    node: u64,
    name: &'a str,
    value: &'a str,
) -> Result<Accepted<'a>, EditRefused>
    ensures judged { IsJudged doc.now (set node (chars name.now) (chars value.now)) result }
    ensures sound { IsSound doc.now }
{
    let x = known(doc, node)?;
    match past_limit(doc, x, name, value) {
        Some(why) => Err(why),
        None => Ok(Accepted::Set { x, name, value }),
    }
}

/// The element that has a number, if one has.
fn known(doc: &Doc, number: u64) -> Result<u32, EditRefused>
    ensures known { IfOk result (λ x. (x ≡ number) × IsElement doc.now.elements number) }
    ensures unknown { IfErr result (λ why. (why ≡ refusal_answered (unknown_node number))
        × (is_element doc.now.elements number ≡ false)) }
    ensures sound { IsSound doc.now }
{
    if number > doc.last() as u64 {
        return Err(EditRefused::UnknownNode(number));
    }
    let x = number as u32;
    if doc.contains(x) {
        Ok(x)
    } else {
        Err(EditRefused::UnknownNode(number))
    }
}

/// The refusal by a limit that a node passes by itself.
fn refusal_by(which: NodeLimit) -> EditRefused
    ensures { result ≡ refusal_answered (refused_by which) }
{
    match which {
        NodeLimit::Attributes => { EditRefused::Limit(Kind::Attributes, ATTRIBUTE_LIMIT as u64) }
        NodeLimit::Value => EditRefused::Limit(Kind::Value, VALUE_LIMIT as u64),
    }
}

/// The limit that an insertion would pass first, if it would pass one: of each node by itself, then of elements,
/// numbers and depth.
fn past_insertion(
    doc: &Doc,
    parent: u32,
    index: usize,
    nodes: &NodeList,
    count: usize,
) -> Option<EditRefused>
    requires sound { IsSound doc.now }
    requires there { IsElement doc.now.elements parent }
    requires shaped { IsNodeList nodes.now }
    requires count { count ≡ length nodes.now }
    ensures { result ≡ option_map refusal_answered (limit_past doc.now (insert parent index nodes.now)) }
{
    if let Some(which) = past_by_itself(nodes) {
        return Some(refusal_by(which));
    }
    if count > ELEMENT_LIMIT - doc.len() {
        return Some(EditRefused::Limit(Kind::Elements, ELEMENT_LIMIT as u64));
    }
    if count > NUMBER_LIMIT - doc.last() {
        return Some(EditRefused::Limit(Kind::Numbers, NUMBER_LIMIT as u64));
    }
    if nodes.deepest() > (DEPTH_LIMIT as usize).saturating_sub(doc.depth(parent)) {
        return Some(EditRefused::Limit(Kind::Depth, DEPTH_LIMIT as u64));
    }
    None
}

/// The limit that a node of a list is the first to pass by itself, if one does.
fn past_by_itself(nodes: &NodeList) -> Option<NodeLimit>
    ensures { option_map refused_by result ≡ model_nodes_past nodes.now }
{
    for index in 0..nodes.len() {
        if nodes.attribute_count(index) > ATTRIBUTE_LIMIT {
            return Some(NodeLimit::Attributes);
        }
        if nodes.longest_value(index) > VALUE_LIMIT {
            return Some(NodeLimit::Value);
        }
    }
    None
}

/// How many children `parent` has besides `x`, which is a child of `from`.
fn count_without(doc: &Doc, x: u32, from: u32, parent: u32) -> usize
    requires sound { IsSound doc.now }
    requires there { IsElement doc.now.elements parent }
    requires hung { parent_of doc.now.elements x ≡ Some from }
    requires apart { is_below doc.now.elements x parent ≡ false }
    ensures { result ≡ length (children (without doc.now.elements x) parent) }
{
    let count = doc.children(parent).len();
    if from == parent { count - 1 } else { count }
}

/// Whether `x`, a child of `from`, is where a move takes it.
fn is_there(doc: &Doc, x: u32, from: u32, parent: u32, index: usize) -> bool
    requires sound { IsSound doc.now }
    requires there { IsElement doc.now.elements parent }
    requires hung { parent_of doc.now.elements x ≡ Some from }
    requires apart { is_below doc.now.elements x parent ≡ false }
    requires index { index ≤ length (children (without doc.now.elements x) parent) }
    ensures { result ≡ is_still doc.now.elements (moved doc.now x parent index).elements x }
{
    if from != parent {
        return false;
    }
    doc.place(x) as usize == index
}

/// The limit of depth, if `x` or what is below it would pass it as a child of `parent`.
fn past_move(doc: &Doc, x: u32, from: u32, parent: u32, index: usize) -> Option<EditRefused>
    requires sound { IsSound doc.now }
    requires there { IsElement doc.now.elements parent }
    requires hung { parent_of doc.now.elements x ≡ Some from }
    requires apart { is_below doc.now.elements x parent ≡ false }
    ensures { result ≡ option_map refusal_answered (limit_past doc.now (move x parent index)) }
{
    // What is below it becomes as much deeper, or less deep, as itself.
    let now = doc.depth(x);
    let later = doc.depth(parent) + 1;
    if doc.deepest_below(x) + later > DEPTH_LIMIT as usize + now {
        return Some(EditRefused::Limit(Kind::Depth, DEPTH_LIMIT as u64));
    }
    None
}

/// The limit that would be exceeded once an attribute of `x` has this value, if one would.
fn past_limit(doc: &Doc, x: u32, name: &str, value: &str) -> Option<EditRefused>
    requires { IsElement doc.now.elements x }
    ensures { result ≡ option_map refusal_answered
        (limit_past doc.now (set x (chars name.now) (chars value.now))) }
{
    let most = match doc.attribute(x, name) {
        Some(_) => ATTRIBUTE_LIMIT,
        None => ATTRIBUTE_LIMIT - 1,
    };
    if doc.attribute_count(x) > most {
        return Some(EditRefused::Limit(Kind::Attributes, ATTRIBUTE_LIMIT as u64));
    }
    if value.len() > VALUE_LIMIT {
        return Some(EditRefused::Limit(Kind::Value, VALUE_LIMIT as u64));
    }
    None
}
