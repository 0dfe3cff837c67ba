//! What a search finds of a graph of custom properties: which of them are on cycles, and in which
//! order their values are computed.

/// A reference of one declared custom property to another, each by its place.
#[derive(Clone, Copy, Debug)]
pub struct Edge {
    pub from: usize,
    pub to: usize,
}

/// What is found of a custom property. References never lead to a higher group. One that is on a
/// cycle names the head of its group, and says how to walk there and from where a walk comes.
#[derive(Clone, Copy, Debug)]
pub struct Mark {
    pub group: usize,
    pub is_cyclic: bool,
    pub head: usize,
    /// The edge by which a walk goes on to the head, and a rank that falls along it.
    pub onward: usize,
    pub onward_rank: usize,
    /// The edge by which a walk from the head arrives, and a rank that falls against it.
    pub arrival: usize,
    pub arrival_rank: usize,
}

/// What a search finds of a graph.
#[derive(Debug, Drop)]
pub struct GraphMarks {
    /// A mark for each custom property.
    pub marks: Vec<Mark>,
    /// For each group the place of its custom property, where it has but one.
    pub order: Vec<usize>,
}
