// Calls of logs, and logs in memory.
use std::alloc::Global;
use std::io;
use test_script::{
    Device, Script, answer_of, bytes_of, bytes_read, cause, counted, done, number_of, numbers_of,
    push_bytes, shown,
};
use ts_io::{Failed, Gathered, Log, MemLog, append_all_counted, write_draft_all};

/// Any log. `read` shows its buffer of four bytes, which is filled from the start by each read.
#[derive(Drop)]
pub(crate) struct LogCalls<J> {
    log: J,
    buf: [u8; 4],
}

impl<J: Log> LogCalls<J> {
    pub(crate) fn new(log: J) -> Self {
        LogCalls { log, buf: [0; 4] }
    }

    fn read(&mut self, alloc: Global) -> io::Result<Option<String>> {
        let outcome = self.log.read(&mut self.buf);
        bytes_read(alloc, outcome, &self.buf)
    }

    // `read-and-cut 2 1` reads, and then cuts to each of two lengths, at most what was read.
    fn read_and_cut(&mut self, alloc: Global, text: &str) -> io::Result<Option<String>> {
        let (first, second) = text.split_once(' ').unwrap_or((text, ""));
        let (first, second) = (number_of(first), number_of(second));
        let Ok((count, first, second)) = read_and_cut_twice(
            &mut self.log,
            &mut self.buf,
            first,
            second,
        ) else {
            return answer_of(alloc, "failed");
        };
        let mut answer = format!(in alloc; "{count} ")?;
        push_bytes(&mut answer, &self.buf)?;
        answer.push_str(if first { ", ok" } else { ", failed" })?;
        answer.push_str(if second { ", ok" } else { ", failed" })?;
        Ok(Some(answer))
    }

    // The calls on drafts. `replace n ew` drafts these bytes in two writes and publishes them.
    fn answer_on_draft(
        &mut self,
        alloc: Global,
        verb: &str,
        text: &str,
    ) -> io::Result<Option<String>> {
        match verb {
            "draft" => done(alloc, self.log.draft()),
            "write-draft" => counted(alloc, self.log.write_draft(&bytes_of(alloc, text)?)),
            "write-draft-all" => done(
                alloc,
                write_draft_all(&mut self.log, &bytes_of(alloc, text)?),
            ),
            "publish" => done(alloc, self.log.publish()),
            "replace" => done(alloc, replace(&mut self.log, text)),
            _ => Ok(None),
        }
    }
}

impl<J: Log> Device for LogCalls<J> {
    fn answer(&mut self, alloc: Global, verb: &str, text: &str) -> io::Result<Option<String>> {
        match verb {
            "open" => done(alloc, self.log.open(text)),
            "read" => self.read(alloc),
            "read-and-cut" => self.read_and_cut(alloc, text),
            "cut-all" => done(alloc, self.log.cut(0)),
            "append" => counted(alloc, self.log.append(&bytes_of(alloc, text)?)),
            "append-all" => done(
                alloc,
                append_all_counted(&mut self.log, &bytes_of(alloc, text)?),
            ),
            "sync" => done(alloc, self.log.sync()),
            "cause" => cause(alloc, self.log.last_cause()),
            _ => self.answer_on_draft(alloc, verb, text),
        }
    }
}

// Returns how many bytes were read, and whether each cut succeeded.
fn read_and_cut_twice<J: Log>(
    log: &mut J,
    buf: &mut [u8],
    first: u64,
    second: u64,
) -> Result<(usize, bool, bool), Failed> {
    let count = log.read(buf)?;
    let first = log.cut(first.min(count as u64)).is_ok();
    let second = log.cut(second.min(count as u64)).is_ok();
    Ok((count, first, second))
}

fn replace<J: Log>(log: &mut J, text: &str) -> Result<(), Failed> {
    let (first, second) = text.split_once(' ').unwrap_or((text, ""));
    log.draft()?;
    write_draft_all(log, first.as_bytes())?;
    write_draft_all(log, second.as_bytes())?;
    log.publish()
}

/// `MemLog abc 2 5`: has these bytes and fails at these calls. Its calls are those of logs, and `bytes`.
pub(crate) fn in_memory(script: &mut Script, text: &str) -> io::Result<()> {
    let alloc = script.alloc();
    let (bytes, fail) = text.split_once(' ').unwrap_or((text, ""));
    let log = MemLog::new(bytes_of(alloc, bytes)?, numbers_of(alloc, fail)?);
    script.run(&mut MemLogCalls {
        calls: LogCalls::new(log),
    })
}

#[derive(Drop)]
struct MemLogCalls {
    calls: LogCalls<MemLog>,
}

impl Device for MemLogCalls {
    fn answer(&mut self, alloc: Global, verb: &str, text: &str) -> io::Result<Option<String>> {
        match verb {
            "bytes" => shown(alloc, self.calls.log.bytes()),
            _ => self.calls.answer(alloc, verb, text),
        }
    }
}

/// `Gathered 3`, over an empty log that fails at these calls. At the end, `bytes` are those of the log.
pub(crate) fn gathered(script: &mut Script, text: &str) -> io::Result<()> {
    let alloc = script.alloc();
    let mut log = MemLog::new(Vec::new(alloc), numbers_of(alloc, text)?);
    script.run(&mut GatheredCalls {
        gathered: Gathered::new(alloc, &mut log),
    })?;
    script.check("bytes", shown(alloc, log.bytes())?)
}

#[derive(Drop)]
struct GatheredCalls<'a> {
    gathered: Gathered<'a, MemLog>,
}

impl Device for GatheredCalls<'_> {
    fn answer(&mut self, alloc: Global, verb: &str, text: &str) -> io::Result<Option<String>> {
        match verb {
            "add" => done(alloc, self.gathered.add(text.as_bytes())),
            "settle" => done(alloc, self.gathered.settle()),
            "sync" => done(alloc, self.gathered.sync()),
            _ => Ok(None),
        }
    }
}
