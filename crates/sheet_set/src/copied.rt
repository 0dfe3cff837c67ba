//! Style sheets copied.

ghost use Rattle.std.specs.Prelude.{◌≡◌, IfOk};

use crate::SheetInput;
use std::alloc::Global;
use stylo_base::NoMemory;

/// The same sheets, with texts of their own.
pub(crate) fn copied(alloc: Global, sheets: &[SheetInput]) -> Result<Vec<SheetInput>, NoMemory>
    ensures { IfOk result (λ list. list.items ≡ sheets.now) }
{
    let mut list = Vec::with_capacity(alloc, sheets.len())?;
    for sheet in sheets {
        let text = sheet.text.copy(alloc)?;
        list.push(SheetInput {
            origin: sheet.origin,
            enabled: sheet.enabled,
            text,
        })?;
    }
    Ok(list)
}
