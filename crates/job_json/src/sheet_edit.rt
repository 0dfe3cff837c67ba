//! One edit of the style sheets.

ghost use Rattle.std.specs.Prelude.{◌≡◌, IfOk};
ghost use Rattle.job_json.specs.KeptEdits.{lent_sheets_seen};

use crate::sheet::LentSheet;
use dom_edits::SheetEdit;
use std::alloc::Global;
use stylo_base::{NoMemory, Text};

/// An edit of the style sheets of the right shape, its text still in the input.
#[derive(Clone, Copy)]
pub(crate) enum LentSheetEdit<'a> {
    Add { index: u64, sheet: LentSheet<'a> },
    Remove { sheet: u64 },
    Replace { sheet: u64, text: &'a str },
    Enable { sheet: u64, on: bool },
}

impl<'a> LentSheetEdit<'a> {
    /// The edit, with a text of its own.
    pub fn owned(self, alloc: Global) -> Result<SheetEdit, NoMemory>
        ensures { IfOk result (λ edit. edit ≡ lent_sheets_seen self.entry) }
    {
        match self {
            LentSheetEdit::Add { index, sheet } => Ok(SheetEdit::Add {
                index,
                origin: sheet.origin,
                enabled: sheet.enabled,
                text: Text::of_str(alloc, sheet.text)?,
            }),
            LentSheetEdit::Remove { sheet } => Ok(SheetEdit::Remove { sheet }),
            LentSheetEdit::Replace { sheet, text } => Ok(SheetEdit::Replace {
                sheet,
                text: Text::of_str(alloc, text)?,
            }),
            LentSheetEdit::Enable { sheet, on } => Ok(SheetEdit::Enable { sheet, on }),
        }
    }
}
