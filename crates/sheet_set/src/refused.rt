//! Why an edit of style sheets is refused.

ghost use Rattle.std.specs.Prelude.{◌≡◌, ◌<◌, ◌≤◌, IfNone, IfSome, false, true, length, map, option_map, slice_index_or};
ghost use Rattle.std.specs.List.{list_any};
ghost use Rattle.base_model.specs.Limits.{number_limit, sheet_limit, text_limit};
ghost use Rattle.edit_model.specs.Refusal.{bytes_of, past, text_bytes, unknown_sheet, unless};
ghost use Rattle.edit_model.specs.SheetApply.{is_of, sheet_refusal};
ghost use Rattle.dom_edits.specs.EditView.{refusal_answered, sheet_edit_seen};
ghost use Rattle.sheet_set.specs.Kept.{kept_seen};
ghost use Rattle.sheet_set.specs.Planned.{one_more_refused};

use crate::KeptSheet;
use dom_edits::SheetEdit;
use stylo_base::limits::{NUMBER_LIMIT, SHEET_LIMIT, TEXT_LIMIT};
use stylo_base::{EditRefused, Kind, Text};

/// Why an edit of these sheets is refused: the first refusal in the order of unknown sheets, places and limits.
/// None: it is accepted, where there is memory.
pub(crate) fn refused(sheets: &[KeptSheet], last: u32, edit: &SheetEdit) -> Option<EditRefused>
    requires few { length sheets.now ≤ sheet_limit }
    requires given { last ≤ number_limit }
    ensures { result ≡ option_map refusal_answered
        (sheet_refusal (record { listed = map kept_seen sheets.now; last = last }) (sheet_edit_seen edit.now)) }
{
    match edit {
        SheetEdit::Add { index, text, .. } => one_more(sheets.len(), last, *index, text),
        SheetEdit::Remove { sheet } => unknown(sheets, *sheet),
        SheetEdit::Replace { sheet, text } => unknown(sheets, *sheet).or(too_long(text)),
        SheetEdit::Enable { sheet, .. } => unknown(sheets, *sheet),
    }
}

/// Why one more is refused.
fn one_more(count: usize, last: u32, index: u64, text: &Text) -> Option<EditRefused>
    requires few { count ≤ sheet_limit }
    requires given { last ≤ number_limit }
    ensures { result ≡ option_map refusal_answered (one_more_refused count last index text.now) }
{
    if index > count as u64 {
        return Some(EditRefused::BadPlace);
    }
    if count >= SHEET_LIMIT {
        return Some(EditRefused::Limit(Kind::Sheets, SHEET_LIMIT as u64));
    }
    if last as usize >= NUMBER_LIMIT {
        return Some(EditRefused::Limit(Kind::Numbers, NUMBER_LIMIT as u64));
    }
    too_long(text)
}

/// Whether a text is longer than a sheet's may be.
fn too_long(text: &Text) -> Option<EditRefused>
    ensures { result ≡ option_map refusal_answered (past text_bytes text_limit (bytes_of text.now)) }
{
    if text.byte_len() > TEXT_LIMIT {
        Some(EditRefused::Limit(Kind::Text, TEXT_LIMIT as u64))
    } else {
        None
    }
}

/// Whether no sheet has a number.
fn unknown(sheets: &[KeptSheet], number: u64) -> Option<EditRefused>
    ensures { result ≡ option_map refusal_answered
        (unless (list_any (is_of number) (map kept_seen sheets.now)) (unknown_sheet number)) }
{
    if place_of(sheets, number).is_some() {
        None
    } else {
        Some(EditRefused::UnknownSheet(number))
    }
}

/// Where the sheet with a number stands.
pub(crate) fn place_of(sheets: &[KeptSheet], number: u64) -> Option<usize>
    ensures none { IfNone result (list_any (is_of number) (map kept_seen sheets.now) ≡ false) }
    ensures some { IfSome result (λ place. (place < length sheets.now)
        × ((d : KeptSheet) → is_of number (kept_seen (slice_index_or sheets.now place d)) ≡ true)) }
{
    for place in 0..sheets.len() {
        if sheets[place].number() as u64 == number {
            return Some(place);
        }
    }
    None
}
