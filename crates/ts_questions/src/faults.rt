// Error replies: rejected by the database, too many rows, out of memory.
ghost use Rattle.std.specs.Prelude.{◌≡◌, ◌⊎◌, ◌+◌, ◌<◌, ◌≤◌, [], length};
ghost use Rattle.ts_spec.specs.Keyed.{Keyed};
ghost use Rattle.ts_spec.specs.Refusal.{EmptyRows};
ghost use Rattle.ts_spec.specs.Replies.{refusal_reply as shown_refusal, memory_reply};
ghost use Rattle.ts_spec.specs.Text.{Error, text};
ghost use Rattle.ts_sample.specs.declared.sample.Id.{Id};
ghost use Rattle.ts_resp.specs.Replies.{reply_of};
ghost use Rattle.ts_db.specs.Faults.{refusal_of};
ghost use Rattle.ts_questions.specs.Answering.{message_of, IsShort, lost_reply};

use ts_db::DbFault;
use ts_resp::{Out, Reply, encode, put};

/// The error reply to a query with EMPTY whose rows exceed the limit.
pub(crate) fn too_many_rows() -> Reply
    ensures { reply_of result ≡ shown_refusal EmptyRows }
{
    Reply::Error("ERR TSDB: too many empty buckets")
}

/// The error reply to a command that the database rejects or has no memory for. It names no key.
pub fn refusal_reply(fault: DbFault) -> Reply
    ensures reply { (ids : Keyed Id) → reply_of result ≡ Error (message_of (refusal_of ids fault)) }
    ensures short { IsShort (reply_of result) }
{
    error(message(fault))
}

// An error reply with this text.
fn error(words: &'static str) -> Reply
    ensures { reply_of result ≡ Error words.now }
{
    Reply::Error(words)
}

// The message of an error.
fn message(fault: DbFault) -> &'static str
    ensures { (ids : Keyed Id) → result.now ≡ message_of (refusal_of ids fault) }
{
    match fault {
        DbFault::NoKey => "ERR TSDB: the key does not exist",
        DbFault::KeyExists => "ERR TSDB: the key already exists",
        DbFault::KeysFull => "ERR TSDB: too many keys",
        DbFault::LabelsFull => "ERR TSDB: too many labels",
        DbFault::TooOld => "ERR TSDB: timestamp is older than retention",
        DbFault::Duplicate => "ERR TSDB: duplicate sample",
        DbFault::OutOfRange => "ERR TSDB: result out of range",
        DbFault::BeforeLast => "ERR TSDB: timestamp is before the last sample",
        DbFault::SamplesFull { written: true, .. } => "ERR TSDB: too many samples",
        DbFault::SamplesFull { written: false, .. } =>
            "ERR TSDB: too many samples in a destination",
        DbFault::DeleteBeyondRetention => "ERR TSDB: the interval meets an expired bucket",
        DbFault::SameKey => "ERR TSDB: source and destination are the same",
        DbFault::SourceIsDest => "ERR TSDB: the source is a destination",
        DbFault::DestIsSource => "ERR TSDB: the destination is a source",
        DbFault::DestHasSource => "ERR TSDB: the destination has a source",
        DbFault::RulesSpent => "ERR TSDB: too many rules made",
        DbFault::RulesFull => "ERR TSDB: too many rules",
        DbFault::NoRule => "ERR TSDB: the rule does not exist",
        DbFault::Memory(_) => "OOM out of memory",
    }
}

/// Writes the out-of-memory error. The output always has capacity reserved for it.
pub fn write_out_of_memory(out: &mut Out)
    requires empty { out.old.bytes ≡ [] }
    requires room { 128 ≤ length out.old.bytes + out.old.spare }
    ensures bytes { out.new.bytes ≡ text memory_reply }
    ensures room { 128 ≤ length out.new.bytes + out.new.spare }
{
    put(&Reply::Error("OOM out of memory"), out);
}

/// Replaces the output by an error: too many rows, or else out of memory.
pub(crate) fn write_row_error(are_too_many: bool, out: &mut Out)
    requires room { 128 ≤ length out.old.bytes + out.old.spare }
    ensures bytes { out.new.bytes ≡ text (lost_reply are_too_many) }
    ensures room { 128 ≤ length out.new.bytes + out.new.spare }
{
    out.clear();
    if are_too_many {
        put(&too_many_rows(), out);
        return;
    }
    write_out_of_memory(out);
}

/// Writes a reply, growing the output as needed, or writes the out-of-memory error.
pub fn write_or_out_of_memory(reply: &Reply, out: &mut Out)
    requires empty { out.old.bytes ≡ [] }
    requires room { 128 ≤ out.old.spare }
    ensures bytes { (out.new.bytes ≡ text (reply_of reply.now))
        ⊎ ((out.old.spare < length (text (reply_of reply.now))) × (out.new.bytes ≡ text memory_reply)) }
    ensures room { 128 ≤ length out.new.bytes + out.new.spare }
{
    match encode(reply, out) {
        Ok(()) => {}
        Err(_) => write_out_of_memory(out),
    }
}
