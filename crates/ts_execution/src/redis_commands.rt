// The general Redis commands: DEL, EXISTS, PING and ECHO.
ghost use Rattle.std.specs.Prelude.{◌≡◌, ◌<◌, ◌^◌, length, ◌+◌, ◌≤◌, [], IsTrue};
ghost use Rattle.ts_spec.specs.Step.{drop_keys, count_there};
ghost use Rattle.ts_resp.specs.Replies.{reply_of};
ghost use Rattle.ts_spec.specs.Replies.{number, reply_to};
ghost use Rattle.ts_db.specs.DbState.{DbState, Represents, Simulates};
ghost use Rattle.ts_questions.specs.Answering.{IsShort, IsTextOrLost};
ghost use Rattle.ts_execution.specs.Handling.{IsStep, may_run_out_of_memory};
ghost use Rattle.ts_spec.specs.Command.{Ping, Echo};
ghost use Rattle.ts_spec.specs.Queries.{ping_response};
ghost use Rattle.ts_spec.specs.Response.{Word as WordBack};

use crate::answers::number;
use ts_db::Db;
use ts_questions::write_or_out_of_memory;
use ts_resp::{Out, Reply, Word, put};

/// Deletes keys in order. Returns how many existed; a repeated key counts once.
pub(crate) fn drop_keys(db: &mut Db, keys: &[Word]) -> Reply
    requires few { length keys.now < 2 ^ 63 }
    ensures answer { Simulates db.old db.new
        (λ from to. IsStep (drop_keys from.state 0 keys.now) from (reply_of result) to) }
    ensures short { IsShort (reply_of result) }
{
    number(db.drop_keys(keys))
}

/// Returns how many of the arguments are keys. A repeated key counts each time.
pub(crate) fn count_keys(db: &Db, keys: &[Word]) -> Reply
    requires few { length keys.now < 2 ^ 63 }
    ensures answer { (from : DbState) → Represents db.now from
        → reply_of result ≡ number (count_there from.state keys.now) }
    ensures short { IsShort (reply_of result) }
{
    let mut count = 0;
    for key in keys {
        if db.has(key) {
            count += 1;
        }
    }
    number(count)
}

/// Writes the reply to PING: PONG, or the argument.
pub(crate) fn write_pong(word: Option<Word>, out: &mut Out)
    requires empty { out.old.bytes ≡ [] }
    requires room { 128 ≤ out.old.spare }
    ensures reply { IsTextOrLost (IsTrue (may_run_out_of_memory (Ping word))) (ping_response word) out.new.bytes }
    ensures room { 128 ≤ length out.new.bytes + out.new.spare }
{
    match word {
        None => put(&Reply::Simple("PONG"), out),
        Some(word) => write_word(word, out),
    }
}

/// Writes an argument back. A long one may run out of memory.
pub(crate) fn write_word(word: Word, out: &mut Out)
    requires empty { out.old.bytes ≡ [] }
    requires room { 128 ≤ out.old.spare }
    ensures reply { IsTextOrLost (IsTrue (may_run_out_of_memory (Echo word))) (WordBack word) out.new.bytes }
    ensures room { 128 ≤ length out.new.bytes + out.new.spare }
{
    write_or_out_of_memory(&sent_back(word), out);
}

fn sent_back(word: Word) -> Reply
    ensures { reply_of result ≡ reply_to (WordBack word) }
{
    Reply::Bulk(word)
}
