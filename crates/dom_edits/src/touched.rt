//! What an edit touched.

ghost use Rattle.std.specs.Prelude.{◌≡◌, ◌<◌, ℕ, length, map};
ghost use Rattle.std.specs.List.{list_any};
ghost use Rattle.std.specs.List.Sorted.{IsPermutation};
ghost use Rattle.scene_model.specs.Numbers.{is_in};
ghost use Rattle.edit_model.specs.TouchedBy.{is_listed, same_touch};
ghost use Rattle.edit_model.specs.TouchedPairs.{at_element};
ghost use Rattle.dom_edits.specs.TouchView.{AreAllTouches, AreSorted, AreSortedIfMany, pairs_at, touch_seen};
ghost use Rattle.dom_edits.specs.TouchedView.{list_pairs, list_touches};

use crate::touch::Touch;
use smallvec::SmallVec;
use std::alloc::Global;
use std::marker::Model;

/// So many touches are looked through one by one. More are sorted.
const FEW: usize = 8;

/// What an edit touched. Contracts see the list of pairs of what is touched and of the element at which
/// it is. An edit that changes lists of children touches three things, at many elements, of which no pairs
/// are made: each list is kept once.
#[derive(Drop)]
pub struct Touched {
    /// Ways in which elements are touched, in the order of their keys where they are more than a few. None:
    /// lists of children changed, or nothing did.
    touches: Vec<Touch>,
    /// The elements, at each of which all of them are.
    elements: SmallVec<u32, 1>,
    /// The elements whose lists of children changed: whether they have children is touched.
    parents: SmallVec<u32, 2>,
    /// The children of these as they are afterwards: their places and their neighbours are touched.
    children: Vec<u32>,
}

impl Model for Touched {
    ghost use Rattle.std.specs.Prelude.{List, ℕ};
    ghost use Rattle.edit_model.specs.Touched.{Touch};
    ghost use Rattle.dom_edits.specs.TouchView.{AreSortedIfMany, pairs_code};
    ghost use Rattle.dom_edits.specs.TouchedView.{AreOfOneKind, touched_seen};

    ghost Value = { List (Touch × ℕ) };

    ghost coded = { pairs_code };

    ghost view = { λ t. touched_seen t.touches.items t.elements.items t.parents.items t.children.items };

    ghost invariant = { λ t. AreSortedIfMany t.touches.items
        × AreOfOneKind t.touches.items t.parents.items t.children.items };
}

impl Touched {
    /// These, at one element.
    pub(crate) fn at_one(alloc: Global, x: u32, touches: Vec<Touch>) -> Touched
        ensures { IsPermutation (at_element x (map touch_seen touches.items)) result }
    {
        Touched {
            touches: in_order(touches),
            elements: SmallVec::from_buf(alloc, [x]),
            parents: SmallVec::new(alloc),
            children: Vec::new(alloc),
        }
    }

    /// Those of lists of children: `children` are all that these parents have afterwards. It takes no memory.
    pub(crate) fn of_lists(alloc: Global, parents: SmallVec<u32, 2>, children: Vec<u32>) -> Touched
        ensures { result ≡ list_pairs parents.items children.items }
    {
        Touched {
            touches: Vec::new(alloc),
            elements: SmallVec::new(alloc),
            parents,
            children,
        }
    }

    /// The ways in which elements are touched, and the elements, at each of which all of them are. Where there
    /// are none, lists of children changed, or nothing did.
    #[inline]
    pub fn parts(&self) -> (&[Touch], &[u32])
        ensures parts { 0 < length result.0.now → self.now ≡ pairs_at (map touch_seen result.0.now) result.1.now }
        ensures lists { length result.0.now ≡ 0 → AreAllTouches list_touches self.now }
    {
        (self.touches.as_slice(), self.elements.as_slice())
    }

    /// The elements that are touched so. It takes no memory.
    pub fn at(&self, touch: &Touch) -> &[u32]
        ensures elements { (y : ℕ) → is_in y result.now ≡ is_listed self.now (touch_seen touch.now) y }
    {
        if contains(&self.touches, touch) {
            return self.elements.as_slice();
        }
        match touch {
            Touch::Positional => self.children.as_slice(),
            Touch::Sibling => self.children.as_slice(),
            Touch::Empty => self.parents.as_slice(),
            _ => &[],
        }
    }
}

/// The same touches, in the order of their keys where they are more than a few.
fn in_order(touches: Vec<Touch>) -> Vec<Touch>
    ensures same { IsPermutation touches.items result.items }
    ensures sorted { AreSortedIfMany result.items }
{
    if touches.len() <= FEW {
        return touches;
    }
    let mut touches = touches;
    touches.sort_unstable_by_key(|touch| touch.key());
    touches
}

/// Whether this is among some.
fn contains(touches: &[Touch], touch: &Touch) -> bool
    requires { AreSortedIfMany touches.now }
    ensures { result ≡ list_any (same_touch (touch_seen touch.now)) (map touch_seen touches.now) }
{
    if touches.len() <= FEW {
        is_one_of(touches, touch)
    } else {
        is_among_sorted(touches, touch)
    }
}

/// Whether this is one of a few.
fn is_one_of(touches: &[Touch], touch: &Touch) -> bool
    ensures { result ≡ list_any (same_touch (touch_seen touch.now)) (map touch_seen touches.now) }
{
    for other in touches {
        if touch.is(other) {
            return true;
        }
    }
    false
}

/// Whether this is among what is sorted by key.
fn is_among_sorted(touches: &[Touch], touch: &Touch) -> bool
    requires { AreSorted touches.now }
    ensures { result ≡ list_any (same_touch (touch_seen touch.now)) (map touch_seen touches.now) }
{
    let key = touch.key();
    let first = touches.partition_point(|other| other.key() < key);
    for other in touches.split_at(first).1 {
        if key < other.key() {
            return false;
        }
        if touch.is(other) {
            return true;
        }
    }
    false
}
