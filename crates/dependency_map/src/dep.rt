//! A dependency of a selector.

use selector_types::{Combinator, Simple};

/// A step of a path, from one element to others.
#[derive(Clone, Copy, Debug, PartialEq, Eq)]
pub enum PathStep {
    /// To the elements that stand to the right of this combinator, where the element stands to its left.
    Forwards(Combinator),
}

/// What a dependency is on.
#[derive(Clone, Copy)]
pub enum Part<'a> {
    /// A simple test, lent from the selector.
    Tested(&'a Simple),
    /// A sibling combinator: it looks at the children lists that hold the elements at its right.
    Beside,
}

/// A part of a selector, and the path that leads from an element at which the part is asked to those
/// at which the whole selector is. The first step comes first; without a step it is the element itself.
#[derive(Drop)]
pub struct Dep<'a> {
    pub part: Part<'a>,
    pub path: Vec<PathStep>,
}
