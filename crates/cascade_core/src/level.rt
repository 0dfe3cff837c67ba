//! The level of a declaration, by which `revert-layer` goes back (css-cascade-5, section 7.3.5).

ghost use Rattle.std.specs.Prelude.{◌≡◌};
ghost use Rattle.cascade_core.specs.Rollback.{compare_level, level_of};
ghost use Rattle.cascade_core.specs.View.{head_of, level_seen};

use crate::LentMatched;
use layer_order::Origin;
use std::cmp::Ordering;

/// Its origin, whether it is in a `style` attribute, and its layer's rank: compared in that order.
#[derive(Clone, Copy)]
pub(crate) struct Level {
    origin: Origin,
    attached: bool,
    layer: u32,
}

impl Level {
    /// The level of a declaration.
    pub(crate) fn of(d: &LentMatched<'_>) -> Level
        ensures { level_seen result ≡ level_of (head_of d.now) }
    {
        Level {
            origin: d.priority.origin,
            attached: d.priority.attached,
            layer: d.priority.layer,
        }
    }

    /// Which of two levels is lower.
    pub(crate) fn compare(self, other: Level) -> Ordering
        ensures { result ≡ compare_level (level_seen self) (level_seen other) }
    {
        self.origin
            .rank()
            .cmp(&other.origin.rank())
            .then(self.attached.cmp(&other.attached))
            .then(self.layer.cmp(&other.layer))
    }
}
