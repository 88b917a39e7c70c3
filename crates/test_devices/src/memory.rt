// Sources, sinks and a listener in memory, and adapters over std's readers and writers.
use crate::faulty::Flaky;
use crate::streams::{SinkCalls, SourceCalls, write};
use std::alloc::Global;
use std::io;
use std::io::ErrorKind;
use test_script::{Device, Script, answer_of, bytes_of, counted, done, numbers_of, shown};
use ts_io::{CountSink, Ends, Listener, MemListener, MemSink, MemSource, Sink, StdSink, StdSource};

/// `MemSource abc 2`: has these bytes, gives up to five of them a read, and fails at reads with these numbers.
pub(crate) fn source(script: &mut Script, text: &str) -> io::Result<()> {
    let alloc = script.alloc();
    let (bytes, fail) = text.split_once(' ').unwrap_or((text, ""));
    let source = MemSource::new(bytes_of(alloc, bytes)?, 5, numbers_of(alloc, fail)?);
    script.run(&mut SourceCalls { source })
}

/// `MemSink 2`: takes up to two bytes a write, and fails at writes with these numbers. `bytes` are those that it has.
pub(crate) fn sink(script: &mut Script, text: &str) -> io::Result<()> {
    let alloc = script.alloc();
    let sink = MemSink::new(alloc, 2, numbers_of(alloc, text)?);
    script.run(&mut MemSinkCalls { sink })
}

#[derive(Drop)]
struct MemSinkCalls {
    sink: MemSink,
}

impl Device for MemSinkCalls {
    fn answer(&mut self, alloc: Global, verb: &str, text: &str) -> io::Result<Option<String>> {
        match verb {
            "bytes" => shown(alloc, self.sink.bytes()),
            _ => write(alloc, &mut self.sink, verb, text),
        }
    }
}

/// `CountSink`. Its calls are those of sinks, `total` and `errors`.
pub(crate) fn counting_sink(script: &mut Script) -> io::Result<()> {
    script.run(&mut CountSinkCalls {
        sink: CountSink::new(),
    })
}

#[derive(Drop)]
struct CountSinkCalls {
    sink: CountSink,
}

impl Device for CountSinkCalls {
    fn answer(&mut self, alloc: Global, verb: &str, text: &str) -> io::Result<Option<String>> {
        match verb {
            "total" => answer_of(alloc, self.sink.total()),
            "errors" => answer_of(alloc, self.sink.errors()),
            _ => write(alloc, &mut self.sink, verb, text),
        }
    }
}

/// `MemListener 1`: one link, whose input is `in`. The calls of the listener with these numbers fail. It is opened
/// twice, and accepts the link, whose output takes calls of sinks. After it is closed, `accept` again must fail, and
/// `done` is how many links have closed, and what was written to the first.
pub(crate) fn listener(script: &mut Script, text: &str) -> io::Result<()> {
    let alloc = script.alloc();
    let mut links = Vec::new(alloc);
    links.push(Ends {
        input: MemSource::new(bytes_of(alloc, "in")?, 9, Vec::new(alloc)),
        out: MemSink::new(alloc, 9, Vec::new(alloc)),
    })?;
    let mut listener = MemListener::new(alloc, links, numbers_of(alloc, text)?)?;
    script.check("open", done(alloc, listener.open("here"))?)?;
    script.check("open", done(alloc, listener.open("here"))?)?;
    let Ok(mut ends) = listener.accept() else {
        return Err(io::Error::from(ErrorKind::NotConnected));
    };
    script.check("write", counted(alloc, ends.out.write(b"out"))?)?;
    listener.close(ends);
    let is_refused = listener.accept().is_err();
    script.check("refused", answer_of(alloc, is_refused)?)?;
    script.check("closed", answer_of(alloc, listener.done().len())?)?;
    script.check("written", first_written(alloc, listener.done())?)
}

// What was written to the first of these links.
fn first_written(alloc: Global, links: &[Ends<MemSource, MemSink>]) -> io::Result<Option<String>> {
    match links.first() {
        Some(link) => shown(alloc, link.out.bytes()),
        None => Ok(None),
    }
}

/// `StdSource abc`, a source over a slice.
pub(crate) fn std_source(script: &mut Script, text: &str) -> io::Result<()> {
    script.run(&mut SourceCalls {
        source: StdSource::new(text.as_bytes()),
    })
}

/// `StdSink`, a sink over a vector. What is `written` is seen at the end.
pub(crate) fn std_sink(script: &mut Script) -> io::Result<()> {
    let alloc = script.alloc();
    let mut written = Vec::new(alloc);
    script.run(&mut SinkCalls {
        sink: StdSink::new(&mut written),
    })?;
    script.check("written", shown(alloc, &written)?)
}

/// `FlakySource`, a source over a reader, every second of whose calls fails, the first one too.
pub(crate) fn flaky_source(script: &mut Script) -> io::Result<()> {
    script.run(&mut SourceCalls {
        source: StdSource::new(Flaky { fails: true }),
    })
}

/// `FlakySink`, a sink over a writer, every second of whose flushes fails, the first one too.
pub(crate) fn flaky_sink(script: &mut Script) -> io::Result<()> {
    script.run(&mut FlakySinkCalls {
        sink: StdSink::new(Flaky { fails: true }),
    })
}

#[derive(Drop)]
struct FlakySinkCalls {
    sink: StdSink<Flaky>,
}

impl Device for FlakySinkCalls {
    fn answer(&mut self, alloc: Global, verb: &str, text: &str) -> io::Result<Option<String>> {
        match verb {
            "unacknowledged" => answer_of(alloc, self.sink.unacknowledged()),
            _ => write(alloc, &mut self.sink, verb, text),
        }
    }
}
