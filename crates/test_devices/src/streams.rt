// Calls of sources and sinks.
use std::alloc::Global;
use std::io;
use test_script::{Device, bytes_of, bytes_read, counted, done};
use ts_io::{Sink, Source, write_all_counted};

/// Any source. `read` reads two bytes.
#[derive(Drop)]
pub(crate) struct SourceCalls<S> {
    pub(crate) source: S,
}

impl<S: Source> Device for SourceCalls<S> {
    fn answer(&mut self, alloc: Global, verb: &str, _text: &str) -> io::Result<Option<String>> {
        match verb {
            "read" => read_two(alloc, &mut self.source),
            _ => Ok(None),
        }
    }
}

/// Reads two bytes.
pub(crate) fn read_two<S: Source>(alloc: Global, source: &mut S) -> io::Result<Option<String>> {
    let mut buf = [0; 2];
    let outcome = source.read(&mut buf);
    bytes_read(alloc, outcome, &buf)
}

/// Any sink. `write BYTES` writes once, and `write-all BYTES` as often as needed.
#[derive(Drop)]
pub(crate) struct SinkCalls<K> {
    pub(crate) sink: K,
}

impl<K: Sink> Device for SinkCalls<K> {
    fn answer(&mut self, alloc: Global, verb: &str, text: &str) -> io::Result<Option<String>> {
        write(alloc, &mut self.sink, verb, text)
    }
}

/// Makes a call of a sink.
pub(crate) fn write<K: Sink>(
    alloc: Global,
    sink: &mut K,
    verb: &str,
    text: &str,
) -> io::Result<Option<String>> {
    match verb {
        "write" => counted(alloc, sink.write(&bytes_of(alloc, text)?)),
        "write-all" => done(alloc, write_all_counted(sink, &bytes_of(alloc, text)?)),
        _ => Ok(None),
    }
}
