// Calls the library without the program: `execute` for each request, and `Session::piece` for a stream in two pieces.
ghost use Rattle.std.specs.Prelude.{◌≡◌, ◌<◌};
ghost use Rattle.ts_engine.specs.Top.{AreUsable};

use crate::limits::usable;
use crate::run::Talking;
use std::alloc::{AllocError, Global};
use std::marker::Brand;
use std::sync::ledger::{Blank, Ledger};
use test_talks::Setting;
use ts_engine::{Db, Go, Limits, Session, execute, read};
use ts_io::MemClock;
use ts_resp::{Next, Out, Reader, Word};
use ts_sample::Steps;

// The clock reading of each command.
const READING: u64 = 1000;

// Whether `execute` gives exactly the expected replies.
pub(crate) fn is_executed(
    alloc: Global,
    setting: &Setting,
    own: &Talking,
) -> Result<bool, AllocError> {
    let limits = usable(setting.limits);
    let found = replies::<Brand>(alloc, limits, &own.exchange.input, Blank::new(1))?;
    Ok(found.as_slice() == own.exchange.out.as_slice())
}

// The replies to the requests in these bytes, up to the first that is no command.
fn replies<L: Ledger>(
    alloc: Global,
    limits: Limits,
    input: &[u8],
    blank: Blank,
) -> Result<Vec<u8>, AllocError>
    requires limits { AreUsable limits }
    requires name { blank.name ≡ L.name }
    requires parts { blank.parts ≡ L.parts }
    requires some { 0 < blank.parts }
{
    let mut steps = Steps::<L>::new(blank);
    let mut db = Db::new(alloc, limits);
    let mut reader = Reader::new(alloc, limits.wire);
    let mut replies = Vec::new(alloc);
    reader.feed(input)?;
    for _ in 0..input.len() {
        let Next::Request(words) = reader.next() else {
            return Ok(replies);
        };
        if !add_reply(alloc, &mut db, words, &mut steps, &mut replies)? {
            return Ok(replies);
        }
    }
    Ok(replies)
}

// Executes the command of a request, and adds its reply. Returns whether the request is a command.
fn add_reply<L: Ledger>(
    alloc: Global,
    db: &mut Db,
    words: Vec<Word>,
    steps: &mut Steps<L>,
    replies: &mut Vec<u8>,
) -> Result<bool, AllocError> {
    let Ok(command) = read(words) else {
        return Ok(false);
    };
    let mut room = Out::new(alloc)?;
    execute(db, command, READING, &mut room, steps);
    replies.extend_from_slice(room.bytes())?;
    Ok(true)
}

// Whether a session writes exactly the expected replies, and has executed as many requests, ends its stream inside the
// same request and has the same last result as expected. The first piece has this many bytes.
pub(crate) fn goes_on(
    alloc: Global,
    setting: &Setting,
    own: &Talking,
    expected: &str,
    first: usize,
) -> Result<bool, AllocError> {
    let limits = usable(setting.limits);
    let input = own.exchange.input.as_slice();
    let (early, late) = input.split_at(first.min(input.len()));
    let mut out = own.stream.ends(&own.exchange, 1, setting.takes())?.out;
    let mut clock = MemClock::new(Vec::from_slice(alloc, &setting.readings)?);
    let mut db = Db::new(alloc, limits);
    let mut session = Session::new(alloc, limits.wire)?;
    let go = match session.piece(&mut db, early, &mut clock, &mut out) {
        Go::More => session.piece(&mut db, late, &mut clock, &mut out),
        end => end,
    };
    let executed = session.executed();
    let place = session.place();
    let found = format!(in alloc; "executed {executed}, place {place:?}, {go:?}")?;
    Ok(out.bytes() == own.exchange.out.as_slice() && found.as_str() == expected)
}
