//! The positions of sheets among the enabled ones, one for each of their rules.

ghost use Rattle.std.specs.Prelude.{◌≡◌, ◌≤◌, ◌<◌, ◌^◌, length, vec_capacity};
ghost use Rattle.sheet_set.specs.Kept.{taking};
ghost use Rattle.sheet_set.specs.Positions.{positions_from};

use crate::KeptSheet;

/// Lists the position of the sheet of each rule that takes part, in place of what is listed. There is room.
pub(crate) fn put_positions(positions: &mut Vec<u32>, sheets: &[KeptSheet])
    requires few { length sheets.now < 2 ^ 32 }
    requires room { length (taking sheets.now) ≤ vec_capacity positions.old }
    ensures { positions.new.items ≡ positions_from 0 sheets.now }
{
    positions.clear();
    let mut position = 0;
    for sheet in sheets {
        if sheet.is_enabled() {
            let _done = positions.resize(positions.len() + sheet.count(), position);
            position += 1;
        }
    }
}
