//! A gate that counts.

use io_edges::Gate;
use std::sync::atomic::{AtomicU64, Ordering};

/// Counts the passes of the first hand, whose number is 0.
#[derive(Drop)]
pub(crate) struct CountingGate {
    passes: AtomicU64,
}

impl CountingGate {
    /// A gate that nothing has passed.
    pub(crate) fn new() -> CountingGate {
        CountingGate {
            passes: AtomicU64::new(0),
        }
    }

    /// How often it was passed.
    pub(crate) fn passes(&self) -> u64 {
        self.passes.load(Ordering::SeqCst)
    }
}

impl Gate for CountingGate {
    fn pass(&self, hand: u32, _node: u32) {
        if hand == 0 {
            self.passes.fetch_add(1, Ordering::SeqCst);
        }
    }

    fn idle(&self, _hand: u32) {}
}
