//! The style sheets of a job.

ghost use Rattle.std.specs.Prelude.{◌≡◌, ◌<◌, length, nat_le, encode_utf8_all, Some, None, IfOk, OnOk};
ghost use Rattle.std.specs.Str.{chars};
ghost use Rattle.json_reader.specs.Taken.{taken, Says};
ghost use Rattle.base_model.specs.Limits.{text_limit};
ghost use Rattle.job_json.specs.Parts.{sheets_read};
ghost use Rattle.job_json.specs.Kept.{sheet_seen, KeepsSheet};

use crate::checked::{Checked, one_more};
use crate::limits::{Within, past};
use crate::pointer::in_item;
use crate::sheet::{LentSheet, take_sheet};
use crate::sheet_list::SheetList;
use json::Reader;
use json_reader::{KeepItems, Stop, array, pass};
use layer_order::SheetInput;
use std::alloc::Global;
use stylo_base::limits::{SHEET_LIMIT, TEXT_LIMIT};
use stylo_base::{Kind, NoMemory, Text};

/// What is kept of the items of a list of sheets.
#[derive(Drop)]
struct SheetItems {
    alloc: Global,
    /// The first bad place. What comes after it is passed over.
    bad: Option<Text>,
    /// How many sheets there are before that place.
    count: usize,
    /// Whether a sheet has too long a text.
    is_long: bool,
    /// The sheets, as long as they pass no limit.
    list: Vec<SheetInput>,
}

impl<'a> KeepItems<'a> for SheetItems {
    ghost use Rattle.job_json.specs.Kept.{AreSheetsOf};

    ghost keeps = { AreSheetsOf };

    fn item(&mut self, reader: &mut Reader<'a>, depth: usize) -> Result<(), Stop> {
        if self.bad.is_some() {
            pass(reader, depth)?;
            return Ok(());
        }
        match take_sheet(self.alloc, reader, depth)? {
            Ok(sheet) => self.keep(sheet)?,
            Err(path) => self.bad = Some(in_item(self.alloc, self.count, &path)?),
        }
        Ok(())
    }
}

impl SheetItems {
    /// Counts one more sheet, and keeps it where no limit is passed.
    fn keep(&mut self, sheet: LentSheet<'_>) -> Result<(), NoMemory>
        ensures { OnOk result (KeepsSheet self.old (sheet_seen sheet.entry) self.new) }
    {
        if !is_short(sheet.text) {
            self.is_long = true;
        }
        if !self.is_long && self.count < SHEET_LIMIT {
            self.list.push(SheetInput {
                origin: sheet.origin,
                enabled: sheet.enabled,
                text: Text::of_str(self.alloc, sheet.text)?,
            })?;
        }
        self.count = one_more(self.count)?;
        Ok(())
    }
}

/// Whether the text of a sheet is not too long.
fn is_short(text: &str) -> bool
    ensures { result ≡ nat_le (length (encode_utf8_all (chars text.now))) text_limit }
{
    text.len() <= TEXT_LIMIT
}

/// Takes the list of the sheets of a job.
pub(crate) fn take_sheets(
    alloc: Global,
    reader: &mut Reader<'_>,
    depth: usize,
) -> Result<Checked<Within<SheetList>>, Stop>
    ensures ok { IfOk result (λ sheets. Says (λ d. sheets_read (Some d)) sheets
        (taken depth reader.old) reader.new) }
    ensures shorter { OnOk result (length reader.new < length reader.old) }
    ensures err { result ≡ Err Stop.NotJson → taken depth reader.old ≡ None }
{
    let mut sheets = SheetItems {
        alloc,
        bad: None,
        count: 0,
        is_long: false,
        list: Vec::new(alloc),
    };
    if !array(reader, depth, &mut sheets)? {
        return Ok(Err(Text::new(alloc)));
    }
    let SheetItems {
        bad,
        count,
        is_long,
        list,
        ..
    } = sheets;
    if let Some(path) = bad {
        return Ok(Err(path));
    }
    if let Some(passed) = past(Kind::Sheets, SHEET_LIMIT, count) {
        return Ok(Ok(Err(passed)));
    }
    if is_long {
        return Ok(Ok(Err((Kind::Text, TEXT_LIMIT as u64))));
    }
    Ok(Ok(Ok(SheetList::of_vec(list))))
}
