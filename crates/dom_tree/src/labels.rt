//! The id and the class list of each element.

ghost use Rattle.std.specs.Prelude.{◌≡◌, ◌<◌, ◌≤◌, ◌+◌, ◌++◌, vec_capacity, vec_len, IfOk, IfSome, List, OnOk, Some, codes, length, option_and_then, option_map, slice_get};
ghost use Rattle.std.specs.List.{AllByRecursion};
ghost use Rattle.std.specs.Str.{chars};
ghost use Rattle.scene_model.specs.Element.{Characters};
ghost use Rattle.scene_model.specs.Nodes.{Node};
ghost use Rattle.stylo_base.specs.NameList.{StandOnce};
ghost use Rattle.dom_tree.specs.Classes.{distinct_words, list_of};
ghost use Rattle.dom_tree.specs.Kept.{IsNameOf, KeepsTexts, text_of};
ghost use Rattle.dom_tree.specs.SiblingPlaces.{HasNameBelow};
ghost use Rattle.dom_tree.specs.Labels.{AreCuts, AreLabels, HasMore, IsGiven, IsLabel, KeepsLists, class_words, id_text};

use crate::class_lists::ClassLists;
use crate::node_columns::NodeColumns;
use std::alloc::Global;
use stylo_base::{Name, Names, NoMemory};

/// What selectors ask for most.
#[derive(Clone, Copy)]
pub(crate) struct Label {
    /// Its id, which is not empty, among the names of the columns.
    pub id: Option<Name>,
    /// Its class list. None: it has no attribute `class`.
    pub classes: Option<u32>,
}

/// The names of the attributes that labels are made of, where they have one.
#[derive(Clone, Copy)]
struct Asked {
    id: Option<Name>,
    class: Option<Name>,
}

/// The labels of all nodes, in their order, their class lists, one for each distinct value of `class`, and
/// which one was cut for a value, by its name.
pub(crate) fn label_nodes(
    alloc: Global,
    columns: &NodeColumns,
) -> Result<(Vec<Label>, ClassLists, Vec<Option<u32>>), NoMemory>
    ensures labels { IfOk result (λ made. AreLabels columns.now made.1 made.0.items) }
    ensures once { OnOk result (StandOnce columns.now.names) }
    ensures cuts { IfOk result (λ made. AreCuts columns.now.names made.1 made.2.items) }
{
    let names = columns.names();
    let asked = Asked {
        id: names.find("id"),
        class: names.find("class"),
    };
    let mut lists = ClassLists::new(alloc);
    let mut cuts = Vec::new(alloc);
    let labels = label_rows(alloc, columns, &asked, &mut lists, &mut cuts)?;
    Ok((labels, lists, cuts))
}

/// The labels of all nodes, where the attributes that are asked for have these names.
fn label_rows(
    alloc: Global,
    columns: &NodeColumns,
    asked: &Asked,
    lists: &mut ClassLists,
    cuts: &mut Vec<Option<u32>>,
) -> Result<Vec<Label>, NoMemory>
    requires once { StandOnce columns.now.names }
    requires id { IsNameOf columns.now.names (chars (codes "id")) asked.now.id }
    requires class { IsNameOf columns.now.names (chars (codes "class")) asked.now.class }
    requires cuts { AreCuts columns.now.names lists.old cuts.old.items }
    ensures labels { IfOk result (λ labels. AreLabels columns.now lists.new labels.items) }
    ensures cuts { AreCuts columns.now.names lists.new cuts.new.items }
{
    let names = columns.names();
    let mut labels = Vec::with_capacity(alloc, columns.len())?;
    for index in 0..columns.len() {
        let id = id_among(names, columns.value(index, asked.id));
        let value = columns.value(index, asked.class);
        let classes = classes_for(names, value, lists, cuts)?;
        labels.push(Label { id, classes })?;
    }
    Ok(labels)
}

/// The labels of the nodes of a list, for columns that they are not among: there their tags, their ids and their
/// values of `class` get names. The nodes of the columns stay, also where memory runs out.
pub(crate) fn label_list(
    alloc: Global,
    columns: &mut NodeColumns,
    list: &NodeColumns,
    lists: &mut ClassLists,
    cuts: &mut Vec<Option<u32>>,
) -> Result<Vec<Label>, NoMemory>
    requires once { StandOnce columns.old.names }
    requires cuts { AreCuts columns.old.names lists.old cuts.old.items }
    ensures labels { IfOk result (λ labels.
        AreLabels (record { names = columns.new.names; nodes = list.now.nodes }) lists.new labels.items) }
    ensures tags { OnOk result (AllByRecursion
        (λ node. HasNameBelow columns.new.names (length columns.new.names) node.tag) list.now.nodes) }
    ensures nodes { columns.new.nodes ≡ columns.old.nodes }
    ensures more { HasMore columns.old.names lists.old columns.new.names lists.new cuts.new.items }
{
    let names = list.names();
    let asked = Asked {
        id: names.find("id"),
        class: names.find("class"),
    };
    let mut labels = Vec::with_capacity(alloc, list.len())?;
    for index in 0..list.len() {
        let label = label_of(columns, list, index, &asked, lists, cuts)?;
        labels.push(label)?;
    }
    Ok(labels)
}

/// The label of one of them.
fn label_of(
    columns: &mut NodeColumns,
    list: &NodeColumns,
    index: usize,
    asked: &Asked,
    lists: &mut ClassLists,
    cuts: &mut Vec<Option<u32>>,
) -> Result<Label, NoMemory>
    requires index { index < length list.now.nodes }
    requires of_list { StandOnce list.now.names }
    requires id { IsNameOf list.now.names (chars (codes "id")) asked.now.id }
    requires class { IsNameOf list.now.names (chars (codes "class")) asked.now.class }
    requires once { StandOnce columns.old.names }
    requires cuts { AreCuts columns.old.names lists.old cuts.old.items }
    ensures label { IfOk result (λ label. IfSome (slice_get list.now.nodes index)
        (λ node. IsLabel columns.new.names lists.new node label)) }
    ensures tag { OnOk result (IfSome (slice_get list.now.nodes index)
        (λ node. HasNameBelow columns.new.names (length columns.new.names) node.tag)) }
    ensures nodes { columns.new.nodes ≡ columns.old.nodes }
    ensures more { HasMore columns.old.names lists.old columns.new.names lists.new cuts.new.items }
{
    let names = list.names();
    columns.intern(names.text(list.tag(index)))?;
    let id = renamed(columns, names, list.value(index, asked.id))?;
    let class = renamed(columns, names, list.value(index, asked.class))?;
    let id = id_among(columns.names(), id);
    let classes = classes_for(columns.names(), class, lists, cuts)?;
    Ok(Label { id, classes })
}

/// The name among those of columns of the text of a name among others.
fn renamed(
    columns: &mut NodeColumns,
    from: &Names,
    name: Option<Name>,
) -> Result<Option<Name>, NoMemory>
    requires within { IfSome name (λ n. n < length from.now) }
    requires once { StandOnce columns.old.names }
    ensures text { IfOk result (λ made.
        option_map (text_of columns.new.names) made ≡ option_map (text_of from.now) name) }
    ensures named { IfOk result (λ made. IfSome made (λ n. n < length columns.new.names)) }
    ensures nodes { columns.new.nodes ≡ columns.old.nodes }
    ensures kept { KeepsTexts columns.old.names columns.new.names }
    ensures once { StandOnce columns.new.names }
{
    match name {
        Some(name) => Ok(Some(columns.intern(from.text(name))?)),
        None => Ok(None),
    }
}

/// Appends labels. There is room.
pub(crate) fn append_labels(labels: &mut Vec<Label>, more: &[Label])
    requires { vec_len labels.old + length more.now ≤ vec_capacity labels.old }
    ensures { labels.new.items ≡ labels.old.items ++ more.now }
{
    let _done = labels.extend_from_slice(more);
}

/// What becomes of the label of a node once its attribute `name` has this value, or, with none, once it
/// has no such attribute. Class lists that were cut stay, whatever comes of the edit.
pub(crate) fn label_with(
    names: &Names,
    label: Label,
    name: &str,
    value: Option<Name>,
    lists: &mut ClassLists,
    cuts: &mut Vec<Option<u32>>,
) -> Result<Label, NoMemory>
    requires within { IfSome value (λ name. name < length names.now) }
    requires cuts { AreCuts names.now lists.old cuts.old.items }
    ensures label { IfOk result (λ made. (node after : Node) → IsLabel names.now lists.old node label
        → IsGiven (chars name.now) (option_map (text_of names.now) value) node after
        → IsLabel names.now lists.new after made) }
    ensures cuts { AreCuts names.now lists.new cuts.new.items }
    ensures kept { KeepsLists lists.old lists.new }
{
    if name == "id" {
        return Ok(Label {
            id: id_among(names, value),
            classes: label.classes,
        });
    }
    if name == "class" {
        return Ok(Label {
            id: label.id,
            classes: classes_for(names, value, lists, cuts)?,
        });
    }
    Ok(label)
}

/// The name of a value of `id` that is not empty.
fn id_among(names: &Names, value: Option<Name>) -> Option<Name>
    requires { IfSome value (λ name. name < length names.now) }
    ensures text { option_map (text_of names.now) result
        ≡ option_and_then id_text (option_map (text_of names.now) value) }
    ensures named { IfSome result (λ name. name < length names.now) }
{
    let value = value?;
    if names.text(value).is_empty() {
        None
    } else {
        Some(value)
    }
}

/// The class list of a value of `class`, if there is one.
#[inline(always)]
fn classes_for(
    names: &Names,
    value: Option<Name>,
    lists: &mut ClassLists,
    cuts: &mut Vec<Option<u32>>,
) -> Result<Option<u32>, NoMemory>
    requires within { IfSome value (λ name. name < length names.now) }
    requires cuts { AreCuts names.now lists.old cuts.old.items }
    ensures list { IfOk result (λ k. list_of lists.new k ≡ class_words (option_map (text_of names.now) value)) }
    ensures listed { IfOk result (λ k. IfSome k (λ n. n < length lists.new)) }
    ensures cuts { AreCuts names.now lists.new cuts.new.items }
    ensures kept { KeepsLists lists.old lists.new }
{
    match value {
        Some(value) => Ok(Some(list_for(names, value, lists, cuts)?)),
        None => Ok(None),
    }
}

/// The index of the class list of a value, which is appended where it was not cut before.
fn list_for(
    names: &Names,
    value: Name,
    lists: &mut ClassLists,
    cuts: &mut Vec<Option<u32>>,
) -> Result<u32, NoMemory>
    requires within { value < length names.now }
    requires cuts { AreCuts names.now lists.old cuts.old.items }
    ensures list { IfOk result (λ k. slice_get lists.new k ≡ Some (distinct_words (text_of names.now value))) }
    ensures cuts { AreCuts names.now lists.new cuts.new.items }
    ensures kept { KeepsLists lists.old lists.new }
{
    grow_cuts(names, cuts)?;
    if let Some(index) = cuts[value.index()] {
        return Ok(index);
    }
    let Ok(index) = u32::try_from(lists.len()) else {
        return Err(NoMemory);
    };
    lists.push(names.text(value))?;
    cuts[value.index()] = Some(index);
    Ok(index)
}

/// Makes room for the cut of each value that has a name.
fn grow_cuts(names: &Names, cuts: &mut Vec<Option<u32>>) -> Result<(), NoMemory>
    ensures room { OnOk result (length names.now ≤ length cuts.new.items) }
    ensures cuts { (lists : List (List Characters)) → AreCuts names.now lists cuts.old.items
        → AreCuts names.now lists cuts.new.items }
{
    if cuts.len() < names.len() {
        cuts.resize(names.len(), None)?;
    }
    Ok(())
}
