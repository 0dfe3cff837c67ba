//! The search for cycles in a graph of custom properties: its strongly connected parts (Kosaraju's
//! way), each with walks from one of its members and back to it. What it finds is checked by
//! `confirmed`, so no proof rests on it. It goes over lists, so it takes chains and cycles of any
//! length.

use crate::mark::{Edge, GraphMarks, Mark};
use std::alloc::Global;
use stylo_base::NoMemory;

/// What stands for no place and for no edge.
const NONE: usize = usize::MAX;

/// The edges at each place, as linked lists of their numbers.
#[derive(Drop)]
struct Lists {
    first: Vec<usize>,
    next: Vec<usize>,
}

/// What the search finds of each place.
#[derive(Drop)]
struct Parts {
    group: Vec<usize>,
    head: Vec<usize>,
    /// On to the head.
    onward: Ways,
    /// From the head.
    arrival: Ways,
    is_cyclic: Vec<bool>,
}

/// For each place the edge that a walk takes there, and a rank.
#[derive(Drop)]
struct Ways {
    edge: Vec<usize>,
    rank: Vec<usize>,
}

/// A walk along all edges backward, deep first.
#[derive(Drop)]
struct Walk {
    /// The next edge to take at each place.
    cursor: Vec<usize>,
    seen: Vec<usize>,
    stack: Vec<usize>,
    finished: Vec<usize>,
    root: usize,
}

/// The marks of so many places.
pub fn search(alloc: Global, count: usize, edges: &[Edge]) -> Result<GraphMarks, NoMemory> {
    let inward = inward_lists(alloc, count, edges)?;
    let mut parts = grouped(alloc, count, edges, &inward)?;
    parts.note_inner_edges(edges);
    parts.rank_onward(alloc, edges, &inward)?;
    parts.marks(alloc, count)
}

/// The groups of so many places.
fn grouped(alloc: Global, count: usize, edges: &[Edge], inward: &Lists) -> Result<Parts, NoMemory> {
    let finished = finish_order(alloc, count, edges, inward)?;
    let outward = outward_lists(alloc, count, edges)?;
    let mut parts = Parts::new(alloc, count)?;
    parts.group_all(alloc, edges, &outward, &finished)?;
    Ok(parts)
}

/// The edges from each place.
fn outward_lists(alloc: Global, count: usize, edges: &[Edge]) -> Result<Lists, NoMemory> {
    let mut first = filled(alloc, count)?;
    let mut next = Vec::with_capacity(alloc, edges.len())?;
    for number in 0..edges.len() {
        let place = edges[number].from;
        next.push(at(&first, place))?;
        set(&mut first, place, number);
    }
    Ok(Lists { first, next })
}

/// The edges to each place.
fn inward_lists(alloc: Global, count: usize, edges: &[Edge]) -> Result<Lists, NoMemory> {
    let mut first = filled(alloc, count)?;
    let mut next = Vec::with_capacity(alloc, edges.len())?;
    for number in 0..edges.len() {
        let place = edges[number].to;
        next.push(at(&first, place))?;
        set(&mut first, place, number);
    }
    Ok(Lists { first, next })
}

/// The places in the order in which a walk backward has done with them.
fn finish_order(
    alloc: Global,
    count: usize,
    edges: &[Edge],
    inward: &Lists,
) -> Result<Vec<usize>, NoMemory> {
    let mut walk = Walk {
        cursor: Vec::from_slice(alloc, &inward.first)?,
        seen: filled(alloc, count)?,
        stack: Vec::new(alloc),
        finished: Vec::with_capacity(alloc, count)?,
        root: 0,
    };
    let steps = count.saturating_add(count).saturating_add(edges.len());
    for _ in 0..steps {
        if !walk.step(edges, inward)? {
            break;
        }
    }
    Ok(walk.finished)
}

impl Walk {
    /// One step. Whether there was one to take.
    fn step(&mut self, edges: &[Edge], inward: &Lists) -> Result<bool, NoMemory> {
        let Some(top) = self.stack.pop() else {
            return self.begin();
        };
        let number = at(&self.cursor, top);
        let Some(edge) = edges.get(number) else {
            self.finished.push(top)?;
            return Ok(true);
        };
        set(&mut self.cursor, top, at(&inward.next, number));
        self.stack.push(top)?;
        self.visit(edge.from)?;
        Ok(true)
    }

    /// Begins at the next place.
    fn begin(&mut self) -> Result<bool, NoMemory> {
        let root = self.root;
        if root >= self.seen.len() {
            return Ok(false);
        }
        self.root = root + 1;
        self.visit(root)?;
        Ok(true)
    }

    /// Comes to a place, if it is the first time.
    fn visit(&mut self, place: usize) -> Result<(), NoMemory> {
        if at(&self.seen, place) == NONE {
            set(&mut self.seen, place, 0);
            self.stack.push(place)?;
        }
        Ok(())
    }
}

impl Parts {
    /// Nothing is found yet of so many places.
    fn new(alloc: Global, count: usize) -> Result<Parts, NoMemory> {
        Ok(Parts {
            group: filled(alloc, count)?,
            head: filled(alloc, count)?,
            onward: Ways::new(alloc, count)?,
            arrival: Ways::new(alloc, count)?,
            is_cyclic: no_flags(alloc, count)?,
        })
    }

    /// Gives each place its group: a walk forward from the last place that was done with stays in
    /// its own group, where that of lower ones is known.
    fn group_all(
        &mut self,
        alloc: Global,
        edges: &[Edge],
        outward: &Lists,
        finished: &[usize],
    ) -> Result<(), NoMemory> {
        let mut queue = Vec::new(alloc);
        let mut group = 0;
        for back in 0..finished.len() {
            let root = finished[finished.len() - 1 - back];
            if at(&self.group, root) == NONE {
                set(&mut self.group, root, group);
                set(&mut self.head, root, root);
                queue.push(root)?;
                self.spread(&mut queue, edges, outward)?;
                group = group.saturating_add(1);
            }
        }
        Ok(())
    }

    /// Goes on from the places of a queue until it is empty.
    fn spread(
        &mut self,
        queue: &mut Vec<usize>,
        edges: &[Edge],
        outward: &Lists,
    ) -> Result<(), NoMemory> {
        for rank in 0..usize::MAX {
            let Some(place) = queue.pop() else {
                break;
            };
            self.spread_from(queue, edges, outward, place, rank)?;
        }
        Ok(())
    }

    /// Goes on from a place along its edges. A rank is that of the step in which a place is come to.
    fn spread_from(
        &mut self,
        queue: &mut Vec<usize>,
        edges: &[Edge],
        outward: &Lists,
        place: usize,
        rank: usize,
    ) -> Result<(), NoMemory> {
        let mut number = at(&outward.first, place);
        for _ in 0..edges.len() {
            let Some(edge) = edges.get(number) else {
                break;
            };
            if at(&self.group, edge.to) == NONE {
                self.join(edge.from, edge.to);
                self.arrival.put(edge.to, number, rank);
                queue.push(edge.to)?;
            }
            number = at(&outward.next, number);
        }
        Ok(())
    }

    /// Takes a place into the group of another.
    fn join(&mut self, from: usize, to: usize) {
        let group = at(&self.group, from);
        let head = at(&self.head, from);
        set(&mut self.group, to, group);
        set(&mut self.head, to, head);
    }

    /// Takes note of the edges within groups: what they come from is on a cycle, and they lead on
    /// from a head and arrive at it.
    fn note_inner_edges(&mut self, edges: &[Edge]) {
        for number in 0..edges.len() {
            let from = edges[number].from;
            let to = edges[number].to;
            if at(&self.group, from) == at(&self.group, to) {
                set_true(&mut self.is_cyclic, from);
                if at(&self.head, to) == to {
                    set(&mut self.arrival.edge, to, number);
                }
                if at(&self.head, from) == from {
                    set(&mut self.onward.edge, from, number);
                }
            }
        }
    }

    /// Finds the way on to the head from each place of its group.
    fn rank_onward(
        &mut self,
        alloc: Global,
        edges: &[Edge],
        inward: &Lists,
    ) -> Result<(), NoMemory> {
        let mut queue = Vec::new(alloc);
        for place in 0..self.head.len() {
            if at(&self.head, place) == place {
                queue.push(place)?;
            }
        }
        for rank in 0..usize::MAX {
            let Some(place) = queue.pop() else {
                break;
            };
            self.rank_back(&mut queue, edges, inward, place, rank)?;
        }
        Ok(())
    }

    /// Goes back from a place along the edges to it that are within its group.
    fn rank_back(
        &mut self,
        queue: &mut Vec<usize>,
        edges: &[Edge],
        inward: &Lists,
        place: usize,
        rank: usize,
    ) -> Result<(), NoMemory> {
        let mut number = at(&inward.first, place);
        for _ in 0..edges.len() {
            let Some(edge) = edges.get(number) else {
                break;
            };
            if self.is_unranked(edge.from, place) {
                self.onward.put(edge.from, number, rank);
                queue.push(edge.from)?;
            }
            number = at(&inward.next, number);
        }
        Ok(())
    }

    /// Whether a place is of the group of another, no head, and has no rank yet.
    fn is_unranked(&self, place: usize, other: usize) -> bool {
        at(&self.group, place) == at(&self.group, other)
            && at(&self.head, place) != place
            && at(&self.onward.rank, place) == NONE
    }

    /// The marks.
    fn marks(&self, alloc: Global, count: usize) -> Result<GraphMarks, NoMemory> {
        let mut order = filled(alloc, count)?;
        let mut marks = Vec::with_capacity(alloc, count)?;
        for place in 0..count {
            set(&mut order, at(&self.group, place), place);
            marks.push(self.mark(place))?;
        }
        Ok(GraphMarks { marks, order })
    }

    /// The mark of a place.
    fn mark(&self, place: usize) -> Mark {
        Mark {
            group: at(&self.group, place),
            is_cyclic: is_true(&self.is_cyclic, place),
            head: at(&self.head, place),
            onward: at(&self.onward.edge, place),
            onward_rank: at(&self.onward.rank, place),
            arrival: at(&self.arrival.edge, place),
            arrival_rank: at(&self.arrival.rank, place),
        }
    }
}

impl Ways {
    /// No edge is known yet at so many places.
    fn new(alloc: Global, count: usize) -> Result<Ways, NoMemory> {
        Ok(Ways {
            edge: filled(alloc, count)?,
            rank: filled(alloc, count)?,
        })
    }

    /// Puts an edge and its rank at a place.
    fn put(&mut self, place: usize, edge: usize, rank: usize) {
        set(&mut self.edge, place, edge);
        set(&mut self.rank, place, rank);
    }
}

/// So many times no place.
fn filled(alloc: Global, count: usize) -> Result<Vec<usize>, NoMemory> {
    let mut list = Vec::new(alloc);
    list.resize(count, NONE)?;
    Ok(list)
}

/// So many flags that are not set.
fn no_flags(alloc: Global, count: usize) -> Result<Vec<bool>, NoMemory> {
    let mut flags = Vec::new(alloc);
    flags.resize(count, false)?;
    Ok(flags)
}

/// What the list has at a place.
fn at(list: &[usize], place: usize) -> usize {
    match list.get(place) {
        None => NONE,
        Some(value) => *value,
    }
}

/// Puts a number at a place.
fn set(list: &mut Vec<usize>, place: usize, value: usize) {
    if place < list.len() {
        list[place] = value;
    }
}

/// Whether the flag at a place is set.
fn is_true(list: &[bool], place: usize) -> bool {
    match list.get(place) {
        None => false,
        Some(value) => *value,
    }
}

/// Sets the flag at a place.
fn set_true(list: &mut Vec<bool>, place: usize) {
    if place < list.len() {
        list[place] = true;
    }
}
