//! The document: its elements in tree order, and what is asked of one of them.

ghost use Rattle.std.specs.Prelude.{◌≡◌, ◌↔◌, ◌<◌, ◌≤◌, ℕ, IfOk, IsTrue, OnOk, codes, false, true, length, not, ◌&&◌, option_map, replicate};
ghost use Rattle.std.specs.Option.{option_map_or};
ghost use Rattle.std.specs.Str.{chars};
ghost use Rattle.base_model.specs.Limits.{element_limit, number_limit};
ghost use Rattle.base_model.specs.Text.{is_empty_text, same_text};
ghost use Rattle.scene_model.specs.Lookups.{IsElement, attribute_of, attributes_of, children, has_class, is_element, numbers, parent_of, place_of, place_of_type, right_of, siblings, state_of, tag_of};
ghost use Rattle.scene_model.specs.Document.{document_of};
ghost use Rattle.scene_model.specs.Nodes.{IsNodeList, listed, scene_of};
ghost use Rattle.scene_model.specs.Valid.{IsValid};
ghost use Rattle.change_model.specs.Sound.{IsSound};
ghost use Rattle.stylo_base.specs.NameList.{StandOnce};
ghost use Rattle.stylo_base.specs.StateView.{state_seen};
ghost use Rattle.dom_tree.specs.ChildLists.{AreChildren, AreParts, lists_of};
ghost use Rattle.dom_tree.specs.ElementNames.{AreNamesOf, names_of};
ghost use Rattle.dom_tree.specs.Labels.{AreCuts, AreLabels, class_words};
ghost use Rattle.dom_tree.specs.SiblingPlaces.{ArePlaces, AreZeros, HasTagBelow};

mod depths;
mod edits;
mod moves;
mod spots;
mod subtrees;

use crate::attribute_names::AttributeNames;
use crate::child_lists::ChildLists;
use crate::class_lists::ClassLists;
use crate::class_names::ClassNames;
use crate::element_names::ElementNames;
use crate::labels::{Label, label_nodes};
use crate::node_columns::NodeColumns;
use crate::nodes::NodeList;
use crate::sibling_places::SiblingPlaces;
use crate::start::order_nodes;
use std::alloc::Global;
use std::marker::Model;
use stylo_base::{Atom, NoMemory, State};

/// A document. Contracts see its elements in tree order, and the last number that was given to one.
/// An element goes by its number, from 1; a look-up of one takes no longer in a larger document.
#[derive(Drop)]
pub struct Doc {
    /// By number, from 1.
    columns: NodeColumns,
    /// By number, from 1.
    children: ChildLists,
    /// By number, from 1.
    places: SiblingPlaces,
    /// By number, from 1.
    labels: Vec<Label>,
    /// The class lists that the labels name.
    lists: ClassLists,
    /// The class list of each value, by its name, if one was cut for it.
    cuts: Vec<Option<u32>>,
    /// The numbers of the elements in tree order.
    order: Vec<u32>,
    /// By number, from 1: whether it is that of an element.
    present: Vec<bool>,
}

impl Model for Doc {
    ghost use Rattle.scene_model.specs.Document.{Document, document_code};

    ghost Value = { Document };

    ghost coded = { document_code };

    ghost use Rattle.dom_tree.specs.Whole.{document, IsWhole};

    ghost view = { λ d. document d.columns d.order.items };

    ghost invariant = { λ d. IsWhole (record {
      table = d.columns;
      spans = d.children.spans.items;
      flat = d.children.flat.items;
      index = d.places.index.items;
      before = d.places.before.items;
      after = d.places.after.items;
      tally = d.places.tally.items;
      labels = d.labels.items;
      lists = d.lists;
      cuts = d.cuts.items;
      order = d.order.items;
      present = d.present.items;
    }) };
}

impl Doc {
    /// The document of a list of nodes. The only error is that memory ran out.
    pub fn start(alloc: Global, list: &NodeList) -> Result<Doc, NoMemory>
        requires { length list.now ≤ element_limit }
        ensures { IfOk result (λ doc. doc ≡ document_of list.now) }
    {
        Doc::of_list(alloc, list.copy(alloc)?)
    }

    /// The document of a list of nodes, which it takes over: no text is copied. The only error is that
    /// memory ran out.
    pub fn of_list(alloc: Global, list: NodeList) -> Result<Doc, NoMemory>
        requires { length list ≤ element_limit }
        ensures { IfOk result (λ doc. doc ≡ document_of list) }
    {
        let (children, order) = order_nodes(alloc, &list)?;
        let columns = list.into_columns();
        let (places, present, labels, lists, cuts) = look_ups(alloc, &columns, &children)?;
        Ok(Doc {
            columns,
            children,
            places,
            labels,
            lists,
            cuts,
            order,
            present,
        })
    }

    /// How many elements there are.
    pub fn len(&self) -> usize
        ensures len { result ≡ length self.now.elements }
        ensures few { result ≤ element_limit }
    {
        self.order.len()
    }

    /// The last number that was given to an element: each element's number is from 1 to it.
    pub fn last(&self) -> usize
        ensures last { result ≡ self.now.last }
        ensures few { result ≤ number_limit }
        ensures numbered { (x : ℕ) → IsElement self.now.elements x → (0 < x) × (x ≤ result) }
        ensures sound { IsSound self.now }
    {
        self.columns.len()
    }

    /// The numbers of the elements in tree order.
    pub fn tree_order(&self, alloc: Global) -> Result<Vec<u32>, NoMemory>
        ensures order { IfOk result (λ v. v.items ≡ numbers self.now.elements) }
        ensures valid { IsValid self.now.elements }
    {
        Ok(Vec::from_slice(alloc, self.in_tree_order())?)
    }

    /// The numbers of the elements in tree order, which are lent.
    pub fn in_tree_order(&self) -> &[u32]
        ensures order { result.now ≡ numbers self.now.elements }
        ensures valid { IsValid self.now.elements }
        ensures sound { IsSound self.now }
    {
        self.order.as_slice()
    }

    /// Whether an element has the number `n`.
    pub fn contains(&self, n: u32) -> bool
        ensures { result ≡ is_element self.now.elements n }
    {
        0 < n && n as usize <= self.present.len() && self.present[n as usize - 1]
    }

    /// The number of the parent of `x`. None: it is the root.
    pub fn parent(&self, x: u32) -> Option<u32>
        requires { IsElement self.now.elements x }
        ensures parent { result ≡ parent_of self.now.elements x }
        ensures valid { IsValid self.now.elements }
        ensures few { length self.now.elements ≤ element_limit }
    {
        match self.columns.parent(x as usize - 1) {
            Some(parent) => Some(parent + 1),
            None => None,
        }
    }

    /// The numbers of the children of `x`, in tree order.
    pub fn children(&self, x: u32) -> &[u32]
        requires { IsElement self.now.elements x }
        ensures children { result.now ≡ children self.now.elements x }
        ensures valid { IsValid self.now.elements }
    {
        self.children.of(x)
    }

    /// The sibling index of `x`: how many siblings are before it.
    pub fn place(&self, x: u32) -> u32
        requires { IsElement self.now.elements x }
        ensures place { result ≡ place_of self.now.elements x }
        ensures valid { IsValid self.now.elements }
    {
        self.places.index[x as usize - 1]
    }

    /// The siblings after `x`, in tree order.
    pub fn right_siblings(&self, x: u32) -> &[u32]
        requires { IsElement self.now.elements x }
        ensures siblings { result.now ≡ right_of x (siblings self.now.elements x) }
        ensures valid { IsValid self.now.elements }
    {
        match self.parent(x) {
            None => &[],
            Some(parent) => self.children(parent).split_at(self.place(x) as usize + 1).1,
        }
    }

    /// How many siblings of its type are before `x`.
    pub fn place_of_type(&self, x: u32) -> u32
        requires { IsElement self.now.elements x }
        ensures { result ≡ place_of_type self.now.elements false x }
    {
        self.places.before[x as usize - 1]
    }

    /// How many siblings of its type are after `x`.
    pub fn place_of_type_from_last(&self, x: u32) -> u32
        requires { IsElement self.now.elements x }
        ensures { result ≡ place_of_type self.now.elements true x }
    {
        self.places.after[x as usize - 1]
    }

    /// The tag of `x`.
    pub fn tag(&self, x: u32) -> &str
        requires { IsElement self.now.elements x }
        ensures { chars result.now ≡ tag_of self.now.elements x }
    {
        self.columns.names().text(self.columns.tag(x as usize - 1))
    }

    /// Whether `x` has this tag.
    #[inline]
    pub fn has_tag_atom(&self, x: u32, tag: &Atom) -> bool
        requires { IsElement self.now.elements x }
        ensures { result ≡ same_text (tag_of self.now.elements x) tag.now }
    {
        self.columns
            .names()
            .is_atom(self.columns.tag(x as usize - 1), tag)
    }

    /// Whether `class` is one of the words of the `class` attribute of `x`.
    pub fn has_class(&self, x: u32, class: &str) -> bool
        requires { IsElement self.now.elements x }
        ensures { result ≡ has_class self.now.elements x (chars class.now) }
    {
        self.class_names(x).has_text(class)
    }

    /// Whether this class is one of the words of the `class` attribute of `x`.
    #[inline]
    pub fn has_class_atom(&self, x: u32, class: &Atom) -> bool
        requires { IsElement self.now.elements x }
        ensures { result ≡ has_class self.now.elements x class.now }
    {
        self.class_names(x).has(class)
    }

    /// The words of the `class` attribute of `x`, each once.
    #[inline]
    fn class_names(&self, x: u32) -> ClassNames<'_>
        requires { IsElement self.now.elements x }
        ensures { result ≡ class_words (attribute_of self.now.elements x (codes "class")) }
    {
        self.lists.of(self.labels[x as usize - 1].classes)
    }

    /// The names of `x`: its tag, its id, if it has one that is not empty, and its classes, each once. It
    /// takes no memory.
    #[inline]
    pub fn names(&self, x: u32) -> ElementNames<'_>
        requires { IsElement self.now.elements x }
        ensures { result ≡ names_of self.now.elements x }
    {
        ElementNames::new(
            self.columns.names(),
            self.columns.tag(x as usize - 1),
            self.labels[x as usize - 1].id,
            self.class_names(x),
        )
    }

    /// The names of the attributes of `x`, each once. It takes no memory.
    #[inline]
    pub fn attribute_names(&self, x: u32) -> AttributeNames<'_>
        requires { IsElement self.now.elements x }
        ensures names { AreNamesOf (attribute_of self.now.elements x) result }
        ensures valid { IsValid self.now.elements }
    {
        self.columns.attribute_names(x as usize - 1)
    }

    /// Whether `x` has the id that this atom is. An empty one is none.
    #[inline]
    pub fn has_id_atom(&self, x: u32, id: &Atom) -> bool
        requires { IsElement self.now.elements x }
        ensures { result ≡ option_map_or (λ value. not (is_empty_text value) && same_text value id.now)
            (attribute_of self.now.elements x (codes "id")) false }
    {
        match self.labels[x as usize - 1].id {
            Some(name) => self.columns.names().is_atom(name, id),
            None => false,
        }
    }

    /// The value of an attribute of `x`, if it has that attribute.
    pub fn attribute(&self, x: u32, name: &str) -> Option<&str>
        requires { IsElement self.now.elements x }
        ensures { option_map (λ value. chars value.now) result ≡ attribute_of self.now.elements x (chars name.now) }
    {
        let names = self.columns.names();
        let value = self.columns.value(x as usize - 1, names.find(name))?;
        Some(names.text(value))
    }

    /// The value of the attribute of `x` that this atom names, if it has that attribute.
    pub fn attribute_atom(&self, x: u32, name: &Atom) -> Option<&str>
        requires { IsElement self.now.elements x }
        ensures { option_map (λ value. chars value.now) result ≡ attribute_of self.now.elements x name.now }
    {
        self.columns.text_by_atom(x as usize - 1, name)
    }

    /// Whether two elements have the same attributes, in one pass over both.
    pub fn same_attributes(&self, x: u32, y: u32) -> bool
        requires x { IsElement self.now.elements x }
        requires y { IsElement self.now.elements y }
        ensures { IsTrue result ↔ (attributes_of self.now.elements x ≡ attributes_of self.now.elements y) }
    {
        self.columns.same_attributes(x as usize - 1, y as usize - 1)
    }

    /// Whether `x` is in a state.
    pub fn state(&self, x: u32, state: State) -> bool
        requires { IsElement self.now.elements x }
        ensures { result ≡ state_of self.now.elements x (state_seen state) }
    {
        let states = self.columns.states(x as usize - 1);
        match state {
            State::Hover => states.hover,
            State::Active => states.active,
            State::Focus => states.focus,
        }
    }
}

/// What is looked up of the nodes of a list, which have these children: their places, that the number of each is that
/// of an element, and their labels, with the class lists and which one was cut for a value.
fn look_ups(
    alloc: Global,
    columns: &NodeColumns,
    children: &ChildLists,
) -> Result<
    (
        SiblingPlaces,
        Vec<bool>,
        Vec<Label>,
        ClassLists,
        Vec<Option<u32>>,
    ),
    NoMemory,
>
    requires few { length columns.now.nodes ≤ element_limit }
    requires shape { IsNodeList columns.now.nodes }
    requires parts { AreParts children.now.flat.items children.now.spans.items }
    requires children { AreChildren (length columns.now.nodes) (listed columns.now.nodes)
        (lists_of children.now.flat.items children.now.spans.items) }
    ensures index { IfOk result (λ made. ArePlaces (length columns.now.nodes) (scene_of columns.now.nodes)
        (place_of (scene_of columns.now.nodes)) made.0.index.items) }
    ensures before { IfOk result (λ made. ArePlaces (length columns.now.nodes) (scene_of columns.now.nodes)
        (place_of_type (scene_of columns.now.nodes) false) made.0.before.items) }
    ensures after { IfOk result (λ made. ArePlaces (length columns.now.nodes) (scene_of columns.now.nodes)
        (place_of_type (scene_of columns.now.nodes) true) made.0.after.items) }
    ensures tally { IfOk result (λ made. AreZeros columns.now.names made.0.tally.items) }
    ensures tags { IfOk result (λ made. (x : ℕ) → IsElement (scene_of columns.now.nodes) x
        → HasTagBelow (scene_of columns.now.nodes) columns.now.names (length made.0.tally.items) x) }
    ensures present { IfOk result (λ made. made.1.items ≡ replicate (length columns.now.nodes) true) }
    ensures labels { IfOk result (λ made. AreLabels columns.now made.3 made.2.items) }
    ensures once { OnOk result (StandOnce columns.now.names) }
    ensures cuts { IfOk result (λ made. AreCuts columns.now.names made.3 made.4.items) }
{
    let present = vec![in alloc; true; columns.len()]?;
    let places = SiblingPlaces::of_nodes(alloc, columns, children)?;
    let (labels, lists, cuts) = label_nodes(alloc, columns)?;
    Ok((places, present, labels, lists, cuts))
}
