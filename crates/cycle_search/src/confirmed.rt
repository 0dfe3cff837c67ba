//! The check of what a search found of a graph: which custom properties are on cycles, and that the
//! others come after all that they refer to.

ghost use Rattle.std.specs.Prelude.{◌≡◌, ℕ, ◌<◌, IsTrue, length, slice_get, slice_index_or, true};
ghost use Rattle.cycle_search.specs.declared.mark.Mark.{Mark};
ghost use Rattle.std.specs.List.{list_all};
ghost use Rattle.cycle_search.specs.Confirmed.{AreConfirmed, arrives, comes_by, falls, falls_from, goes_on, holds, nears, stands};

use crate::mark::{Edge, Mark};

/// Whether the marks fit the edges.
pub fn are_confirmed(edges: &[Edge], marks: &[Mark], order: &[usize]) -> bool
    ensures { IsTrue result → AreConfirmed edges.now marks.now order.now }
{
    all_fall(edges, marks) && all_hold(edges, marks, order)
}

/// Whether no edge leads to a higher group.
fn all_fall(edges: &[Edge], marks: &[Mark]) -> bool
    ensures { result ≡ list_all (falls marks.now) edges.now }
{
    for edge in edges {
        if !falls(marks, edge) {
            return false;
        }
    }
    true
}

/// Whether an edge leads to a lower group, or stays in one of names that are on cycles.
fn falls(marks: &[Mark], edge: &Edge) -> bool
    ensures { result ≡ falls marks.now edge.now }
{
    let Some(from) = marks.get(edge.from) else {
        return false;
    };
    let Some(to) = marks.get(edge.to) else {
        return false;
    };
    to.group < from.group || (from.is_cyclic && to.group == from.group)
}

/// Whether each mark is as the edges say.
fn all_hold(edges: &[Edge], marks: &[Mark], order: &[usize]) -> bool
    ensures { IsTrue result → (k : ℕ) (d : Mark) → k < length marks.now
        → holds edges.now marks.now order.now k (slice_index_or marks.now k d) ≡ true }
{
    for place in 0..marks.len() {
        if !holds(edges, marks, order, place) {
            return false;
        }
    }
    true
}

/// Whether the mark of a place is as the edges say.
fn holds(edges: &[Edge], marks: &[Mark], order: &[usize], place: usize) -> bool
    requires { place < length marks.now }
    ensures { (d : Mark) → result ≡ holds edges.now marks.now order.now place (slice_index_or marks.now place d) }
{
    let mark = &marks[place];
    if mark.is_cyclic {
        goes_on(edges, marks, place, mark) && arrives(edges, marks, place, mark)
    } else {
        match order.get(mark.group) {
            None => false,
            Some(other) => *other == place,
        }
    }
}

/// Whether a walk from a place goes on to the head of its group.
fn goes_on(edges: &[Edge], marks: &[Mark], place: usize, mark: &Mark) -> bool
    ensures { result ≡ goes_on marks.now place mark.now (slice_get edges.now mark.now.onward) }
{
    let Some(edge) = edges.get(mark.onward) else {
        return false;
    };
    if edge.from != place {
        return false;
    }
    let Some(next) = marks.get(edge.to) else {
        return false;
    };
    next.is_cyclic
        && next.head == mark.head
        && (edge.to == mark.head || next.onward_rank < mark.onward_rank)
}

/// Whether a walk from the head of its group arrives at a place.
fn arrives(edges: &[Edge], marks: &[Mark], place: usize, mark: &Mark) -> bool
    ensures { result ≡ arrives marks.now place mark.now (slice_get edges.now mark.now.arrival) }
{
    let Some(edge) = edges.get(mark.arrival) else {
        return false;
    };
    if edge.to != place {
        return false;
    }
    let Some(last) = marks.get(edge.from) else {
        return false;
    };
    last.is_cyclic
        && last.head == mark.head
        && (edge.from == mark.head || last.arrival_rank < mark.arrival_rank)
}
