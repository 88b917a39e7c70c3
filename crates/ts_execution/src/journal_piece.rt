// Reads one piece of a journal, and tells whether what it leaves unfinished begins as a record does.
ghost use Rattle.std.specs.Prelude.{◌≡◌, ◌≢◌, ℕ, ⊤, ◌+◌, ◌<◌, ◌≤◌, ◌^◌, length, drop};
ghost use Rattle.std.specs.Io.KnownBytes.{IsAtEnd};
ghost use Rattle.ts_io.specs.Causes.{Rose};
ghost use Rattle.ts_io.specs.Logs.{unread, place_after};
ghost use Rattle.ts_resp.specs.Reading.{fed};
ghost use Rattle.ts_db.specs.DbState.{Simulates};
ghost use Rattle.ts_journal.specs.Loading.{begins_as_record};
ghost use Rattle.ts_execution.specs.JournalReplay.{ReplaysPiece, IfRead, still_record};

use crate::load_state::Loading;
use std::marker::Brand;
use std::sync::ledger::Blank;
use ts_db::Db;
use ts_io::Log;

// The result of one read of a journal.
#[derive(Clone, Copy, Debug, PartialEq, Eq)]
pub(crate) enum Piece {
    // this many bytes were read; 0 at the end of the journal
    Read(usize),
    // the read failed
    Fault,
    // out of memory
    Memory,
}

// Reads one piece, at offset `taken`, and replays the changes that it completes, unless the journal has already broken.
// Updates whether the unfinished request begins as a record does.
pub(crate) fn read_piece<J: Log>(
    loading: &mut Loading,
    db: &mut Db,
    log: &mut J,
    buffer: &mut [u8],
    taken: u64,
    is_record: &mut bool,
) -> Piece
    requires within { fed loading.old.reader + length buffer.old < 2 ^ 64 }
    requires room { 0 < length buffer.old }
    ensures takes { IfRead result
        (λ count. ReplaysPiece taken count is_record.old is_record.new (unread (J.content log.old) (J.place log.old))
        (unread (J.content log.new) (J.place log.new))
        loading.old loading.new db.old db.new) }
    ensures carries { Simulates db.old db.new (λ from to. ⊤) }
    ensures at_end { result ≡ Piece.Read 0 → IsAtEnd (unread (J.content log.new) (J.place log.new)) }
    ensures bound { IfRead result (λ count. count ≤ length buffer.old) }
    ensures content { J.content log.new ≡ J.content log.old }
    ensures place { IfRead result (λ count. J.place log.new ≡ place_after (J.place log.old) count) }
    ensures later { J.faults log.old ≤ J.faults log.new }
    ensures fault { result ≡ Piece.Fault → Rose (J.faults log.old) (J.faults log.new) }
    ensures no_fault { result ≢ Piece.Fault → J.faults log.new ≡ J.faults log.old }
{
    match log.read(buffer) {
        Ok(count) => {
            if loading.replay_piece::<Brand>(db, &buffer[..count], Blank::new(1)) {
                let begin = loading.reader.place();
                *is_record = still_record(*is_record, begin, taken, &buffer[..count]);
                Piece::Read(count)
            } else {
                Piece::Memory
            }
        }
        Err(_) => Piece::Fault,
    }
}

// Whether the request that begins at this offset begins as a record does, after a piece at offset `before`. `was` tells
// it of the bytes before.
fn still_record(was: bool, begin: Option<u64>, before: u64, piece: &[u8]) -> bool
    ensures { result ≡ still_record was begin before piece.now }
{
    match begin {
        Some(at) if before <= at => begins_as_record(piece, at - before),
        _ => was,
    }
}

// Whether a record may begin at this offset of the piece: there is a `*`, or the piece ends before it.
#[tactic(auto, using(crate::proofs::RestBytes::begins_past, crate::proofs::RestBytes::begins_at))]
fn begins_as_record(piece: &[u8], at: u64) -> bool
    ensures { result ≡ begins_as_record (drop at piece.now) }
{
    if piece.len() as u64 <= at {
        return true;
    }
    piece[at as usize] == b'*'
}
