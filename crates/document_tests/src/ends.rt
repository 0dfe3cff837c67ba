//! Sources and sinks: what they give and take, and where they fail.

use io_edges::{Failed, MemorySink, MemorySource, Sink, SinkRefused, Source, StdSink, StdSource};
use std::io;
use std::io::{Read, Write};
use std::test::Fail;

/// After a fault the same bytes are still to come.
#[test]
fn memory_source_fails(rt: HostRuntime) -> Result<(), Fail> {
    let mut source = MemorySource::whole(rt.alloc(), b"hello", &[2])?;
    let mut buffer = [0u8; 4];
    let counts = (
        source.read(&mut buffer),
        source.read(&mut buffer),
        source.read(&mut buffer),
    );
    assert_eq!(rt; (counts, buffer[0]), ((Ok(4), Err(Failed), Ok(1)), b'o'));
    Ok(())
}

/// A write that fails leaves nothing in the sink.
#[test]
fn memory_sink_fails(rt: HostRuntime) -> Result<(), Fail> {
    let mut sink = MemorySink::whole(rt.alloc(), &[2, 3])?;
    let counts = (sink.write(b"ab"), sink.write(b"cd"), sink.write(b""));
    let failed = Err(SinkRefused::Failed);
    assert_eq!(rt;
        (counts, sink.held()),
        ((Ok(2), failed, failed), b"ab".as_slice())
    );
    Ok(())
}

#[test]
fn std_source(rt: HostRuntime) {
    let mut source = StdSource::new(b"abc".as_slice());
    let mut buffer = [0u8; 2];
    let counts = (
        source.read(&mut buffer),
        source.read(&mut buffer),
        source.read(&mut buffer),
    );
    assert_eq!(rt; (counts, buffer), ((Ok(2), Ok(1), Ok(0)), *b"cb"));
}

#[test]
fn std_sink(rt: HostRuntime) -> Result<(), Fail> {
    let mut held = Vec::new(rt.alloc());
    let mut sink = StdSink::new(rt.alloc(), &mut held)?;
    let counts = (sink.write(b"ab"), sink.write(b""), sink.finish());
    drop(sink);
    assert_eq!(rt;
        (counts, held.as_slice()),
        ((Ok(2), Ok(0), Ok(())), b"ab".as_slice())
    );
    Ok(())
}

/// It fails at each read, and takes all that is written and fails at each flush.
#[derive(Clone, Copy)]
struct Broken;

impl Read for Broken {
    fn read(&mut self, _buf: &mut [u8]) -> io::Result<usize> {
        Err(io::Error::other("broken"))
    }
}

impl Write for Broken {
    fn write(&mut self, buf: &[u8]) -> io::Result<usize> {
        Ok(buf.len())
    }

    fn flush(&mut self) -> io::Result<()> {
        Err(io::Error::other("broken"))
    }
}

#[test]
fn broken_reader(rt: HostRuntime) {
    let mut buffer = [0u8; 2];
    assert_eq!(rt; StdSource::new(Broken).read(&mut buffer), Err(Failed));
}

#[test]
fn broken_writer(rt: HostRuntime) -> Result<(), Fail> {
    let mut sink = StdSink::new(rt.alloc(), Broken)?;
    let answers = (sink.write(b"a"), sink.finish());
    assert_eq!(rt; answers, (Ok(1), Err(Failed)));
    Ok(())
}
