//! The lines that are told of a batch before its elements.

ghost use Rattle.std.specs.Prelude.{◌≡◌, ◌≢◌, IsErrOf, OnErr, OnOk};
ghost use Rattle.std.specs.List.{flat_map};
ghost use Rattle.std.specs.Io.KnownBytes.{Appends};
ghost use Rattle.io_edges.specs.Cause.{HasCause};
ghost use Rattle.style_lines.specs.Loops.{GrewByFront};
ghost use Rattle.style_cli.specs.Printing.{AreRefused, heading_bytes, refused_bytes};

use crate::batch::{Heading, RefusedEdit};
use io_edges::{Sink, SinkRefused};
use report_text::{batch_line, push_refused_line};
use std::alloc::Global;
use style_lines::write_line;
use style_session::Counts;
use stylo_base::{EditRefused, Text};

/// Writes the line of a batch, and those of its refused edits.
pub(crate) fn print_heading<K: Sink>(
    alloc: Global,
    number: u64,
    heading: &Heading,
    sink: &mut K,
) -> Result<(), SinkRefused>
    requires { AreRefused heading.now.refused.items }
    ensures ok { OnOk result (Appends (K.held sink.old) (K.held sink.new) (heading_bytes number heading.now)) }
    ensures err { OnErr result (GrewByFront (K.held sink.old) (K.held sink.new) (heading_bytes number heading.now)) }
    ensures cause { HasCause (K.faults sink.old) (K.faults sink.new) (IsErrOf result SinkRefused.Failed) }
{
    let refused = heading.refused.len() as u64;
    let Counts { matched, cascaded } = heading.counts;
    let line = batch_line(alloc, number, heading.accepted, refused, matched, cascaded)?;
    write_line(sink, &line)?;
    print_refused(alloc, &heading.refused, sink)
}

/// Writes the line of each refused edit.
fn print_refused<K: Sink>(
    alloc: Global,
    refused: &[RefusedEdit],
    sink: &mut K,
) -> Result<(), SinkRefused>
    requires { AreRefused refused.now }
    ensures ok { OnOk result (Appends (K.held sink.old) (K.held sink.new) (flat_map refused_bytes refused.now)) }
    ensures err { OnErr result (GrewByFront (K.held sink.old) (K.held sink.new)
        (flat_map refused_bytes refused.now)) }
    ensures cause { HasCause (K.faults sink.old) (K.faults sink.new) (IsErrOf result SinkRefused.Failed) }
{
    let mut line = Text::new(alloc);
    for index in 0..refused.len() {
        print_one(&mut line, refused[index], sink)?;
    }
    Ok(())
}

/// Writes the line of a refused edit, made in the text that is lent for it.
fn print_one<K: Sink>(line: &mut Text, one: RefusedEdit, sink: &mut K) -> Result<(), SinkRefused>
    requires { one.why ≢ EditRefused.NoMemory }
    ensures ok { OnOk result (Appends (K.held sink.old) (K.held sink.new) (refused_bytes one)) }
    ensures err { OnErr result (GrewByFront (K.held sink.old) (K.held sink.new) (refused_bytes one)) }
    ensures cause { HasCause (K.faults sink.old) (K.faults sink.new) (IsErrOf result SinkRefused.Failed) }
{
    line.clear();
    push_refused_line(line, one.place, &one.why)?;
    write_line(sink, line)
}
