//! The document: the list of nodes that it is made of, and its elements with their look-ups.
//!
//! A list of nodes has one row for each node (parent, tag, states, and where its attributes are), one flat list of the
//! attributes of all nodes, sorted by name within a node, and the names. `Doc::of_list` takes these over and adds, by
//! number: the id (where it is not empty) and the class list of each element, the part of the flat list of children,
//! the sibling index, how many siblings of its type are before it and after it, and whether the number is an element's;
//! and beside them the numbers of the elements in tree order. A class list is there once for each distinct value of
//! `class`. Two elements have the same attributes exactly where their parts of the flat list are equal, so
//! `same_attributes` compares numbers in one pass and looks nothing up: it is what style sharing will ask.
//!
//! `insert`, `remove` and `move_to` change these columns in place. The numbers in tree order are one list: what is put
//! in is appended and turned to its spot, what goes is turned to the end and cut off, a move turns what is between. So
//! an edit costs one search in the order and one turn of it, and beside that what came, went or moved and the child
//! lists of the parents. Where a subtree ends is told by the next sibling of its top, or of the nearest element above
//! it that has one, not by counting. A child list is a part of the flat list: one that shrinks or is turned stays where
//! it is, one that grows is written anew at the end, and where more entries are left behind than numbers were given,
//! the flat list is made anew. Sibling indexes and places of a type are written by one call for the children of a
//! parent whose list changed (`SiblingPlaces::settle`), and for nobody else. The row, the label and the texts of a
//! removed element stay, and nobody asks for them: a number is never given twice. A `NodeList` keeps the depth of each
//! node as it comes, so how deep an insertion goes takes no memory to tell.
//!
//! `Doc::names` lends the names of an element as one list, each with its kind, its text and its key, and
//! `attribute_names` those of its attributes: whatever goes from an element to rules asks by these, and they take no
//! memory and hash nothing.
#![tactic(auto)]

mod attribute_names;
mod child_lists;
mod class_lists;
mod class_names;
mod doc;
mod element_names;
mod labels;
mod naming;
mod node_columns;
mod nodes;
mod numbers;
mod runs;
mod sibling_places;
mod span;
mod start;
mod turns;
mod words;

pub use attribute_names::AttributeNames;
pub use doc::Doc;
pub use element_names::{ElementNames, NameKind};
pub use nodes::{Attr, NodeInput, NodeList, States};
pub use words::has_word;
