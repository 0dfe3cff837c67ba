//! Where elements are in tree order, and where their subtrees end.

ghost use Rattle.std.specs.Prelude.{◌≡◌, ◌==◌, ◌+◌, length};
ghost use Rattle.std.specs.List.{position_or_len};
ghost use Rattle.scene_model.specs.Ancestors.{position_of};
ghost use Rattle.scene_model.specs.Lookups.{IsElement};
ghost use Rattle.change_model.specs.ChildLists.{spot};
ghost use Rattle.change_model.specs.Sound.{subtree_of};

use crate::doc::Doc;

impl Doc {
    /// The position of `x` in tree order, from 0. It takes a search.
    pub(crate) fn position(&self, x: u32) -> usize
        ensures { result ≡ position_of self.now.elements x }
    {
        position_in(self.in_tree_order(), x)
    }

    /// Where the subtree of `x` ends in tree order: at the next sibling of `x`, or else of the nearest element
    /// above it that has one.
    pub(crate) fn end_of(&self, x: u32) -> usize
        requires { IsElement self.now.elements x }
        ensures { result ≡ position_of self.now.elements x + length (subtree_of self.now.elements x) }
    {
        let order = self.in_tree_order();
        let mut top = x;
        while let Some(parent) = self.parent(top) {
            if let Some(next) = self.children(parent).get(self.place(top) as usize + 1) {
                return position_in(order, *next);
            }
            top = parent;
        }
        order.len()
    }

    /// Where the child of `parent` at an index begins in tree order, and for the index after the last child,
    /// where the subtree of `parent` ends.
    pub(crate) fn spot(&self, parent: u32, index: usize) -> usize
        requires { IsElement self.now.elements parent }
        ensures { result ≡ spot self.now.elements parent index }
    {
        match self.children(parent).get(index) {
            Some(child) => self.position(*child),
            None => self.end_of(parent),
        }
    }
}

/// Where a number is first in a list, and for one that is not in it, how long the list is.
fn position_in(list: &[u32], number: u32) -> usize
    ensures { result ≡ position_or_len (λ y. y == number) list.now }
{
    let mut place = 0;
    while place < list.len() && list[place] != number {
        place += 1;
    }
    place
}
