//! What an edit does to the list of sheets, by the place in it.

use crate::KeptSheet;
use crate::kept_sheet::RuleRoom;

/// What an edit does to the list of sheets. What comes has its rules with it, and is not enabled yet.
#[derive(Drop)]
pub(crate) enum SheetStep {
    /// Nothing.
    Stay,
    /// A sheet comes to a place, and takes part or not.
    Come {
        place: usize,
        sheet: KeptSheet,
        on: bool,
    },
    /// The sheet at a place goes.
    Go {
        place: usize,
        room: RuleRoom,
    },
    /// A sheet takes the place of the one there, and its switch.
    Put {
        place: usize,
        sheet: KeptSheet,
        room: RuleRoom,
    },
    /// The sheet at a place takes part if it did not, and the other way round.
    Turn {
        place: usize,
        room: RuleRoom,
    },
}
