//! What an edit of sheets will do.

ghost use Rattle.std.specs.Prelude.{◌≡◌};

use crate::sheet_step::SheetStep;
use layer_order::Layers;
use selector_types::SheetChange;

/// What an edit of sheets will do, with all memory that it takes.
#[derive(Drop)]
pub struct SheetPlan {
    pub(crate) change: SheetChange,
    pub(crate) step: SheetStep,
    /// The layers of all sheets afterwards. None: they stay.
    pub(crate) layers: Option<Layers>,
}

impl SheetPlan {
    /// What it changes, as far as it tells whom it marks.
    pub fn change(&self) -> &SheetChange
        ensures { result.now ≡ self.now.change }
    {
        &self.change
    }
}
