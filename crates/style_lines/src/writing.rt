//! Writes a whole piece or line, in as many writes as the sink takes.

ghost use Rattle.std.specs.Prelude.{OnOk, OnErr, IsErrOf, encode_utf8_all};
ghost use Rattle.std.specs.Io.KnownBytes.{Appends};
ghost use Rattle.io_edges.specs.Cause.{HasCause};
ghost use Rattle.style_lines.specs.Loops.{GrewByFront};

use io_edges::{Sink, SinkRefused};
use stylo_base::Text;

/// Writes all of the piece. At an error the sink has taken a front of it.
#[inline(always)]
pub fn write_all<K: Sink>(sink: &mut K, piece: &[u8]) -> Result<(), SinkRefused>
    ensures ok { OnOk result (Appends (K.held sink.old) (K.held sink.new) piece.now) }
    ensures err { OnErr result (GrewByFront (K.held sink.old) (K.held sink.new) piece.now) }
    ensures cause { HasCause (K.faults sink.old) (K.faults sink.new) (IsErrOf result SinkRefused.Failed) }
{
    if piece.is_empty() {
        return Ok(());
    }
    let taken = sink.write(piece)?;
    if taken < piece.len() {
        return write_rest(sink, piece.split_at(taken).1);
    }
    Ok(())
}

/// Writes all of what a sink has not taken at once. At an error it has taken a front of it.
#[inline(never)]
fn write_rest<K: Sink>(sink: &mut K, piece: &[u8]) -> Result<(), SinkRefused>
    ensures ok { OnOk result (Appends (K.held sink.old) (K.held sink.new) piece.now) }
    ensures err { OnErr result (GrewByFront (K.held sink.old) (K.held sink.new) piece.now) }
    ensures cause { HasCause (K.faults sink.old) (K.faults sink.new) (IsErrOf result SinkRefused.Failed) }
{
    let mut at = 0;
    while at < piece.len() {
        let (_, rest) = piece.split_at(at);
        at += sink.write(rest)?;
    }
    Ok(())
}

/// Writes a line.
pub fn write_line<K: Sink>(sink: &mut K, line: &Text) -> Result<(), SinkRefused>
    ensures ok { OnOk result (Appends (K.held sink.old) (K.held sink.new) (encode_utf8_all line.now)) }
    ensures err { OnErr result (GrewByFront (K.held sink.old) (K.held sink.new) (encode_utf8_all line.now)) }
    ensures cause { HasCause (K.faults sink.old) (K.faults sink.new) (IsErrOf result SinkRefused.Failed) }
{
    write_all(sink, line.as_str().as_bytes())
}
