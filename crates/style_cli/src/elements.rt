//! The lines of the elements.

ghost use Rattle.std.specs.Prelude.{◌≡◌, IsErrOf, OnErr, OnOk};
ghost use Rattle.std.specs.Io.KnownBytes.{Appends};
ghost use Rattle.change_model.specs.Sound.{IsSound};
ghost use Rattle.io_edges.specs.Cause.{HasCause};
ghost use Rattle.scene_model.specs.Lookups.{IsElement};
ghost use Rattle.scene_model.specs.Scene.{elements_of};
ghost use Rattle.sheet_model.specs.Sources.{sources_of};
ghost use Rattle.session_model.specs.Standing.{style_in};
ghost use Rattle.report_text.specs.Elements.{elements_bytes, line_bytes};
ghost use Rattle.style_lines.specs.Loops.{GrewByFront};
ghost use Rattle.style_cli.specs.Printing.{IsSettled, Serves};

use io_edges::{Sink, SinkRefused};
use report_text::push_element_line;
use std::alloc::Global;
use style_lines::{Lines, write_all};
use style_session::{Session, StyleAnswer};
use style_value::Style;
use stylo_base::Text;

/// Writes the line of each element, in tree order. Lines that are kept are written as they stand; the
/// others are made, and kept then if they are to be.
#[inline(never)]
pub(crate) fn print_elements<K: Sink>(
    alloc: Global,
    session: &Session,
    lines: &mut Lines,
    keeps: bool,
    sink: &mut K,
) -> Result<(), SinkRefused>
    requires settled { IsSettled session.now }
    requires serves { Serves session.now lines.old }
    ensures ok { OnOk result (Appends (K.held sink.old) (K.held sink.new)
        (elements_bytes session.now.scene)) }
    ensures err { OnErr result (GrewByFront (K.held sink.old) (K.held sink.new)
        (elements_bytes session.now.scene)) }
    ensures serves { OnOk result (Serves session.now lines.new) }
    ensures cause { HasCause (K.faults sink.old) (K.faults sink.new) (IsErrOf result SinkRefused.Failed) }
{
    lines.count_anew();
    let mut line = Text::new(alloc);
    // The proof calls the loop by this label.
    'printing: for number in session.doc().in_tree_order() {
        print_line(session, *number, &mut line, lines, keeps, sink)?;
    }
    Ok(())
}

/// Writes the line of an element: as it is kept, or made, and kept then if it is to be.
#[inline]
fn print_line<K: Sink>(
    session: &Session,
    number: u32,
    line: &mut Text,
    lines: &mut Lines,
    keeps: bool,
    sink: &mut K,
) -> Result<(), SinkRefused>
    requires element { IsElement (elements_of session.now.scene) number }
    requires sound { IsSound session.now.scene.document }
    requires settled { IsSettled session.now }
    requires serves { Serves session.now lines.old }
    ensures ok { OnOk result (Appends (K.held sink.old) (K.held sink.new)
        (line_bytes (elements_of session.now.scene) (sources_of session.now.scene.sheets) number)) }
    ensures err { OnErr result (GrewByFront (K.held sink.old) (K.held sink.new)
        (line_bytes (elements_of session.now.scene) (sources_of session.now.scene.sheets) number)) }
    ensures serves { OnOk result (Serves session.now lines.new) }
    ensures cause { HasCause (K.faults sink.old) (K.faults sink.new) (IsErrOf result SinkRefused.Failed) }
{
    let Some(kept) = lines.line(number) else {
        return print_element(session, number, line, lines, keeps, sink);
    };
    let bytes = kept.len();
    write_all(sink, kept)?;
    lines.count(bytes);
    Ok(())
}

/// Makes the line of an element in the text that is lent for it, keeps it if it is to be, and writes it.
fn print_element<K: Sink>(
    session: &Session,
    number: u32,
    line: &mut Text,
    lines: &mut Lines,
    keeps: bool,
    sink: &mut K,
) -> Result<(), SinkRefused>
    requires element { IsElement (elements_of session.now.scene) number }
    requires sound { IsSound session.now.scene.document }
    requires settled { IsSettled session.now }
    requires serves { Serves session.now lines.old }
    ensures ok { OnOk result (Appends (K.held sink.old) (K.held sink.new)
        (line_bytes (elements_of session.now.scene) (sources_of session.now.scene.sheets) number)) }
    ensures err { OnErr result (GrewByFront (K.held sink.old) (K.held sink.new)
        (line_bytes (elements_of session.now.scene) (sources_of session.now.scene.sheets) number)) }
    ensures serves { OnOk result (Serves session.now lines.new) }
    ensures cause { HasCause (K.faults sink.old) (K.faults sink.new) (IsErrOf result SinkRefused.Failed) }
{
    line.clear();
    push_element_line(
        line,
        number,
        session.doc().tag(number),
        style_of(session, number),
    )?;
    let bytes = line.as_str().as_bytes();
    if keeps {
        lines.keep(number, bytes)?;
    }
    write_all(sink, bytes)
}

/// The style of an element, where nothing is marked or fresh.
pub(crate) fn style_of(session: &Session, number: u32) -> &Style
    requires element { IsElement (elements_of session.now.scene) number }
    requires settled { IsSettled session.now }
    ensures { result.now ≡ style_in session.now.scene number }
{
    match session.style(number) {
        StyleAnswer::Kept(style) => style,
        StyleAnswer::Stale | StyleAnswer::NoNode => unreachable!(),
    }
}
