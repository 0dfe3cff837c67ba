//! What is printed for a batch, for a refused edit and for an element, each line with its line feed.

ghost use Rattle.std.specs.Prelude.{◌≡◌, ◌≢◌, ◌++◌, IfOk, OnOk, codes, decimal, true};
ghost use Rattle.std.specs.Io.{StartsWith};
ghost use Rattle.std.specs.Str.{chars};
ghost use Rattle.stylo_base.specs.Ascii.{is_all_ascii};
ghost use Rattle.stylo_base.specs.KindName.{name_of};
ghost use Rattle.value_model.specs.Printed.{printed_declarations};
ghost use Rattle.report_text.specs.Lines.{batch_line, element_line, refusal_text, refused_line, separator};
ghost use Rattle.report_text.specs.Lines.{summary_line};

use std::alloc::Global;
use style_value::Style;
use stylo_base::{EditRefused, Kind, NoMemory, Text};

/// The line of a batch: how many of its edits were accepted and refused, and how many elements were
/// matched and cascaded in its restyle.
pub fn batch_line(
    alloc: Global,
    batch: u64,
    accepted: u64,
    refused: u64,
    matched: u64,
    cascaded: u64,
) -> Result<Text, NoMemory>
    ensures { IfOk result (λ t. t ≡ batch_line batch accepted refused matched cascaded) }
{
    let mut line = Text::new(alloc);
    push_count(&mut line, "batch ", batch)?;
    push_count(&mut line, ": ", accepted)?;
    push_count(&mut line, " accepted, ", refused)?;
    push_count(&mut line, " refused, ", matched)?;
    push_count(&mut line, " matched, ", cascaded)?;
    line.push_str(" cascaded\n")?;
    Ok(line)
}

/// Sums over all batches.
#[derive(Clone, Copy, Debug, PartialEq, Eq)]
pub struct Sums {
    /// The edits that were accepted.
    pub accepted: u64,
    /// The edits that were refused.
    pub refused: u64,
    /// The elements that were matched.
    pub matched: u64,
    /// The elements that were cascaded.
    pub cascaded: u64,
    /// The lines that printing all batches takes.
    pub lines: u64,
    /// The bytes of these lines, each with its line feed.
    pub bytes: u64,
}

/// The line of sums over the batches of a generated job: how many nodes it begins with, how many
/// batches follow, and the sums.
pub fn summary_line(alloc: Global, nodes: u64, batches: u64, sums: &Sums) -> Result<Text, NoMemory>
    ensures { IfOk result (λ t. t ≡ summary_line nodes batches sums.now) }
{
    let mut line = Text::new(alloc);
    push_count(&mut line, "nodes ", nodes)?;
    push_count(&mut line, ", batches ", batches)?;
    push_count(&mut line, ", accepted ", sums.accepted)?;
    push_count(&mut line, ", refused ", sums.refused)?;
    push_count(&mut line, ", matched ", sums.matched)?;
    push_count(&mut line, ", cascaded ", sums.cascaded)?;
    push_count(&mut line, ", lines ", sums.lines)?;
    push_count(&mut line, ", bytes ", sums.bytes)?;
    line.push_str("\n")?;
    Ok(line)
}

/// The line of a refused edit: its place in its batch, from 1, and why it is refused.
pub fn refused_line(alloc: Global, place: u64, why: &EditRefused) -> Result<Text, NoMemory>
    requires { why.now ≢ EditRefused.NoMemory }
    ensures { IfOk result (λ t. t ≡ refused_line place why.now) }
{
    let mut line = Text::new(alloc);
    push_refused_line(&mut line, place, why)?;
    Ok(line)
}

/// Appends the line of a refused edit to `line`. Out of memory, it begins with what it held, and a part of the line
/// may stand behind that.
pub fn push_refused_line(line: &mut Text, place: u64, why: &EditRefused) -> Result<(), NoMemory>
    requires { why.now ≢ EditRefused.NoMemory }
    ensures ok { OnOk result (line.new ≡ line.old ++ refused_line place why.now) }
    ensures begins { StartsWith line.new line.old }
{
    push_count(line, "refused ", place)?;
    push_refusal(line, why)?;
    line.push_str("\n")
}

/// Appends why an edit is refused, behind a colon.
fn push_refusal(line: &mut Text, why: &EditRefused) -> Result<(), NoMemory>
    requires { why.now ≢ EditRefused.NoMemory }
    ensures ok { OnOk result (line.new ≡ line.old ++ (codes ": " ++ refusal_text why.now)) }
    ensures begins { StartsWith line.new line.old }
{
    match why {
        EditRefused::UnknownNode(number) => push_count(line, ": unknown node ", *number),
        EditRefused::UnknownSheet(number) => push_count(line, ": unknown sheet ", *number),
        EditRefused::BadPlace => line.push_str(": bad place"),
        EditRefused::Limit(kind, most) => push_limit(line, *kind, *most),
        EditRefused::NoMemory => unreachable!(),
    }
}

/// Appends the kind of a limit and its number, behind a colon.
fn push_limit(line: &mut Text, kind: Kind, most: u64) -> Result<(), NoMemory>
    ensures ok { OnOk result
        (line.new ≡ line.old ++ (codes ": limit " ++ (name_of kind ++ (codes " " ++ decimal most)))) }
    ensures begins { StartsWith line.new line.old }
{
    line.push_str(": limit ")?;
    line.push_str(kind.name())?;
    push_count(line, " ", most)
}

/// The line of an element: its number, its tag, each property whose value is not the standing one,
/// and each custom property.
pub fn element_line(alloc: Global, number: u32, tag: &str, style: &Style) -> Result<Text, NoMemory>
    ensures { IfOk result (λ t. t ≡ element_line number (chars tag.now) style.now) }
{
    let mut line = Text::new(alloc);
    push_element_line(&mut line, number, tag, style)?;
    Ok(line)
}

/// Appends the line of an element to `line`. A text that is cleared and used again takes no memory
/// for a line that is no longer than those before. Out of memory, it begins with what it held, and a
/// part of the line may stand behind that.
pub fn push_element_line(
    line: &mut Text,
    number: u32,
    tag: &str,
    style: &Style,
) -> Result<(), NoMemory>
    ensures ok { OnOk result (line.new ≡ line.old ++ element_line number (chars tag.now) style.now) }
    ensures begins { StartsWith line.new line.old }
{
    line.push_number(u64::from(number))?;
    line.push_str(" ")?;
    line.push_str(tag)?;
    line.push_str("{")?;
    push_declarations(line, style)?;
    line.push_str("}\n")
}

/// Appends the properties whose value is not the standing one, and the custom ones, to the line. Their
/// texts are kept with the style.
fn push_declarations(line: &mut Text, style: &Style) -> Result<(), NoMemory>
    ensures ok { OnOk result (line.new ≡ line.old ++ printed_declarations style.now) }
    ensures begins { StartsWith line.new line.old }
{
    let own = style.text();
    let custom = style.custom().text();
    line.push_str(own)?;
    if custom.is_empty() {
        return Ok(());
    }
    line.push_str(separator(own, custom))?;
    line.push_str(custom)
}

/// What stands between two texts of declarations: nothing, where one of them is empty.
pub(crate) fn separator(before: &str, after: &str) -> &'static str
    ensures text { result.now ≡ separator before.now after.now }
    ensures ascii { is_all_ascii result.now ≡ true }
{
    if before.is_empty() || after.is_empty() {
        ""
    } else {
        "; "
    }
}

/// Appends a word in ASCII and a number to the line.
#[inline]
fn push_count(line: &mut Text, before: &str, count: u64) -> Result<(), NoMemory>
    requires { is_all_ascii before.now ≡ true }
    ensures ok { OnOk result (line.new ≡ line.old ++ (before.now ++ decimal count)) }
    ensures begins { StartsWith line.new line.old }
{
    line.push_str(before)?;
    line.push_number(count)
}
