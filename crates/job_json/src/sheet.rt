//! One style sheet of a job.

ghost use Rattle.std.specs.Prelude.{◌≡◌, ◌<◌, length, None, option_map, option_and_then, IfOk, OnOk};
ghost use Rattle.serde_json.specs.Data.{no_members};
ghost use Rattle.json_reader.specs.Taken.{taken, Says};
ghost use Rattle.job_json.specs.Checked.{map_ok};
ghost use Rattle.job_json.specs.Words.{origin_named};
ghost use Rattle.job_json.specs.Shape.{sheet_in};
ghost use Rattle.job_json.specs.Kept.{sheet_seen, IsSheetOf, sheet_kept};

use crate::checked::Checked;
use crate::pointer::to_member;
use json::Reader;
use json_reader::{KeepMembers, Stop, boolean, object, pass, text};
use layer_order::Origin;
use std::alloc::Global;
use stylo_base::{NoMemory, Text};

/// A sheet of the right shape, its text still in the input.
#[derive(Clone, Copy)]
pub(crate) struct LentSheet<'a> {
    pub origin: Origin,
    pub enabled: bool,
    pub text: &'a str,
}

/// What is kept of the members of a sheet. None: it is not what it must be.
#[derive(Drop)]
pub(crate) struct SheetParts<'a> {
    origin: Option<Origin>,
    enabled: Option<bool>,
    pub text: Option<&'a str>,
}

impl<'a> KeepMembers<'a> for SheetParts<'a> {
    ghost use Rattle.job_json.specs.Kept.{IsSheetOf};

    ghost keeps = { IsSheetOf };

    fn member(&mut self, key: &'a str, reader: &mut Reader<'a>, depth: usize) -> Result<(), Stop> {
        match key {
            "origin" => self.origin = origin_in(text(reader, depth)?),
            "enabled" => self.enabled = boolean(reader, depth)?,
            "text" => self.text = text(reader, depth)?,
            _ => pass(reader, depth)?,
        }
        Ok(())
    }
}

/// Takes a sheet.
pub(crate) fn take_sheet<'a>(
    alloc: Global,
    reader: &mut Reader<'a>,
    depth: usize,
) -> Result<Checked<LentSheet<'a>>, Stop>
    ensures ok { IfOk result (λ sheet. Says sheet_in (map_ok sheet_seen sheet)
        (taken depth reader.old) reader.new) }
    ensures shorter { OnOk result (length reader.new < length reader.old) }
    ensures err { result ≡ Err Stop.NotJson → taken depth reader.old ≡ None }
{
    let mut parts = SheetParts::new();
    if !object(reader, depth, &mut parts)? {
        return Ok(Err(Text::new(alloc)));
    }
    Ok(parts.judge(alloc)?)
}

impl<'a> SheetParts<'a> {
    /// A sheet with no members.
    pub fn new() -> SheetParts<'a>
        ensures { IsSheetOf result no_members }
    {
        SheetParts {
            origin: None,
            enabled: Some(true),
            text: None,
        }
    }

    /// The sheet of the members.
    pub fn judge(&self, alloc: Global) -> Result<Checked<LentSheet<'a>>, NoMemory>
        ensures { IfOk result (λ sheet. map_ok sheet_seen sheet ≡ sheet_kept self.now) }
    {
        let Some(origin) = self.origin else {
            return Ok(Err(to_member(alloc, "origin")?));
        };
        let Some(enabled) = self.enabled else {
            return Ok(Err(to_member(alloc, "enabled")?));
        };
        let Some(text) = self.text else {
            return Ok(Err(to_member(alloc, "text")?));
        };
        Ok(Ok(LentSheet {
            origin,
            enabled,
            text,
        }))
    }
}

/// The origin that a word names.
fn origin_in(word: Option<&str>) -> Option<Origin>
    ensures { result ≡ option_and_then origin_named (option_map (λ t. t.now) word.entry) }
{
    match word? {
        "ua" => Some(Origin::UserAgent),
        "user" => Some(Origin::User),
        "author" => Some(Origin::Author),
        _ => None,
    }
}
