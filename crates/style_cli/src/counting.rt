//! How long lines are, counted without making them. Past 2^64 - 1 it is as if memory ran out.

ghost use Rattle.std.specs.Prelude.{◌≡◌, ◌+◌, IfOk, OnOk, length};
ghost use Rattle.std.specs.List.{flat_map};
ghost use Rattle.change_model.specs.Sound.{IsSound};
ghost use Rattle.scene_model.specs.Lookups.{IsElement};
ghost use Rattle.scene_model.specs.Scene.{elements_of};
ghost use Rattle.sheet_model.specs.Sources.{sources_of};
ghost use Rattle.report_text.specs.Elements.{elements_bytes, line_bytes};
ghost use Rattle.style_cli.specs.Printing.{AreRefused, IsSettled, ServesLengths, heading_bytes, refused_bytes};

use crate::batch::{Heading, RefusedEdit};
use crate::elements::style_of;
use report_text::{batch_line_len, element_line_len, refused_line_len};
use style_lines::Lengths;
use style_session::{Counts, Session};
use stylo_base::NoMemory;

/// The sum of two counts.
#[inline]
pub(crate) fn sum(one: u64, other: u64) -> Result<u64, NoMemory>
    ensures { IfOk result (λ n. n ≡ one + other) }
{
    one.checked_add(other).ok_or(NoMemory)
}

/// How many bytes the line of a batch and those of its refused edits have.
pub(crate) fn heading_len(number: u64, heading: &Heading) -> Result<u64, NoMemory>
    requires { AreRefused heading.now.refused.items }
    ensures { IfOk result (λ len. len ≡ length (heading_bytes number heading.now)) }
{
    let refused = heading.refused.len() as u64;
    let Counts { matched, cascaded } = heading.counts;
    let line = batch_line_len(number, heading.accepted, refused, matched, cascaded);
    sum(line, refused_len(&heading.refused)?)
}

/// How many bytes the lines of refused edits have.
fn refused_len(refused: &[RefusedEdit]) -> Result<u64, NoMemory>
    requires { AreRefused refused.now }
    ensures { IfOk result (λ len. len ≡ length (flat_map refused_bytes refused.now)) }
{
    let mut len: u64 = 0;
    for index in 0..refused.len() {
        let one = refused[index];
        len = sum(len, refused_line_len(one.place, &one.why))?;
    }
    Ok(len)
}

/// How many bytes the lines of all elements have. A length that is kept is taken as it stands; the others are counted,
/// and kept then.
#[inline(never)]
pub(crate) fn elements_len(session: &Session, lengths: &mut Lengths) -> Result<u64, NoMemory>
    requires settled { IsSettled session.now }
    requires serves { ServesLengths session.now lengths.old.kept.items }
    ensures len { IfOk result (λ len. len ≡ length (elements_bytes session.now.scene)) }
    ensures serves { OnOk result (ServesLengths session.now lengths.new.kept.items) }
{
    let mut len: u64 = 0;
    for number in session.doc().in_tree_order() {
        len = sum(len, line_len(session, *number, lengths)?)?;
    }
    Ok(len)
}

/// How many bytes the line of an element has. A line of 2^32 bytes or more is as if memory ran out.
#[inline]
fn line_len(session: &Session, number: u32, lengths: &mut Lengths) -> Result<u64, NoMemory>
    requires element { IsElement (elements_of session.now.scene) number }
    requires sound { IsSound session.now.scene.document }
    requires settled { IsSettled session.now }
    requires serves { ServesLengths session.now lengths.old.kept.items }
    ensures len { IfOk result (λ len. len
        ≡ length (line_bytes (elements_of session.now.scene) (sources_of session.now.scene.sheets) number)) }
    ensures serves { OnOk result (ServesLengths session.now lengths.new.kept.items) }
{
    if let Some(len) = lengths.of(number) {
        return Ok(u64::from(len));
    }
    count_line(session, number, lengths)
}

/// Counts the bytes of the line of an element, and keeps how many there are.
#[inline(never)]
fn count_line(session: &Session, number: u32, lengths: &mut Lengths) -> Result<u64, NoMemory>
    requires element { IsElement (elements_of session.now.scene) number }
    requires sound { IsSound session.now.scene.document }
    requires settled { IsSettled session.now }
    requires serves { ServesLengths session.now lengths.old.kept.items }
    ensures len { IfOk result (λ len. len
        ≡ length (line_bytes (elements_of session.now.scene) (sources_of session.now.scene.sheets) number)) }
    ensures serves { OnOk result (ServesLengths session.now lengths.new.kept.items) }
{
    let tag = session.doc().tag(number);
    let Ok(len) = u32::try_from(element_line_len(number, tag, style_of(session, number))) else {
        return Err(NoMemory);
    };
    lengths.keep(number, len)?;
    Ok(u64::from(len))
}
