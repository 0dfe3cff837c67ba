//! Selectors under their names, before these are sorted.

use crate::pair::Pair;
use stylo_base::Atom;

/// A name, and a selector that is in its bucket.
#[derive(Clone, Copy)]
pub(crate) struct Row<'a> {
    pub(crate) name: &'a Atom,
    pub(crate) pair: Pair,
}
