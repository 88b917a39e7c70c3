// The record of one change, and how large the requests of a journal may be.
ghost use Rattle.std.specs.Prelude.{◌≡◌, is_some, IfOk, IfSome, OnOk, List, All};
ghost use Rattle.ts_spec.specs.Encoded.{Fits, encoded};
ghost use Rattle.ts_spec.specs.Wire.{Request, Ended, stream_at, requests_of, ending_of};
ghost use Rattle.ts_command.specs.Reading.{command_of};
ghost use Rattle.ts_journal.specs.Draft.{AppendsWords};
ghost use Rattle.ts_journal.specs.Fixed.{is_fixed, fixed_words};
ghost use Rattle.ts_journal.specs.Limits.{IsBounded, IsRecordWithin, journal_limits};

use crate::addition::addition_text;
use crate::changes::{
    draft_add, draft_alter, draft_create, draft_create_rule, draft_del_range, draft_delete_rule,
    draft_drop, draft_incr, time_of,
};
use crate::draft::Draft;
use crate::reply::is_error;
use crate::triples::Triples;
use std::alloc::{AllocError, Global};
use ts_command::{Command, SimpleAdd};
use ts_resp::Out;
use ts_spec::WireLimits;

// What is known of a record before the reply.
#[derive(Drop)]
pub(crate) enum Content {
    // The whole record of a command that succeeds or fails as one.
    Fixed(Out),
    // The whole record of TS.ADD without options other than ON_DUPLICATE.
    Addition(Vec<u8>),
    // The arguments of each triple of TS.MADD.
    Triples(Triples),
}

/// The record of one change, prepared before the change is executed. It is a request that has the same effect whenever
/// it is executed. The reply decides what it contains.
#[derive(Drop)]
pub struct Record {
    held: Content,
}

impl Record {
    ghost use Rattle.ts_command.specs.Reading.{command_of};
    ghost use Rattle.ts_command.specs.SimpleAdd.{simple_add_of};
    ghost use Rattle.ts_journal.specs.Content.{bytes_after};
    ghost use Rattle.ts_journal.specs.Record.{is_change, IsRecordOf};

    /// Prepares the record of a command with this reading of the clock. Returns `None` if the command is not a change.
    /// Allocates all memory that the record needs.
    pub fn take(
        alloc: Global,
        command: &Command,
        reading: u64,
    ) -> Result<Option<Record>, AllocError>
        ensures change { IfOk result (λ r. is_some r ≡ is_change (command_of command.now)) }
        ensures record { IfOk result
            (λ r. IfSome r (λ record_. IsRecordOf reading (command_of command.now) (bytes_after record_))) }
    {
        if let Command::Madd { triples } = command {
            let triples = Triples::take(alloc, triples, reading)?;
            return Ok(Some(Record {
                held: Content::Triples(triples),
            }));
        }
        if !is_fixed(command) {
            return Ok(None);
        }
        let mut draft = Draft::new(alloc)?;
        draft_fixed(&mut draft, command, reading)?;
        Ok(Some(Record {
            held: Content::Fixed(draft.close()),
        }))
    }

    /// Prepares the record of TS.ADD without options other than ON_DUPLICATE, without building its command. The record
    /// is the one that `take` makes of that command. Allocates all memory that the record needs.
    pub fn of_addition(
        alloc: Global,
        addition: &SimpleAdd,
        reading: u64,
    ) -> Result<Record, AllocError>
        ensures { IfOk result (λ record_. IsRecordOf reading (simple_add_of addition.now) (bytes_after record_)) }
    {
        let text = addition_text(alloc, addition, reading)?;
        Ok(Record {
            held: Content::Addition(text),
        })
    }

    /// Returns the record, given the text of the command's reply. It is empty if nothing was accepted. Allocates
    /// nothing.
    pub fn bytes(&mut self, reply: &[u8]) -> &[u8]
        ensures { result.now ≡ bytes_after self.old reply.now }
    {
        if is_error(reply) {
            return &[];
        }
        match &mut self.held {
            Content::Fixed(out) => out.bytes(),
            Content::Addition(text) => text,
            Content::Triples(triples) => triples.accepted_part(reply),
        }
    }
}

// Whether a command has such a record.
pub(crate) fn is_fixed(command: &Command) -> bool
    ensures { result ≡ is_fixed (command_of command.now) }
{
    match command {
        Command::Create { .. }
        | Command::Alter { .. }
        | Command::Add { .. }
        | Command::Incr { .. }
        | Command::DelRange { .. }
        | Command::CreateRule { .. }
        | Command::DeleteRule { .. }
        | Command::Drop { .. } => true,
        _ => false,
    }
}

// Appends its arguments. Appends none if the command has no such record.
pub(crate) fn draft_fixed(
    draft: &mut Draft,
    command: &Command,
    reading: u64,
) -> Result<(), AllocError>
    ensures { OnOk result (AppendsWords draft.old draft.new (fixed_words reading (command_of command.now))) }
{
    match command {
        Command::Create { key, spec } => draft_create(draft, key, spec),
        Command::Alter { key, change } => draft_alter(draft, key, change),
        Command::Add {
            key,
            at,
            value,
            on,
            spec,
        } => draft_add(draft, key, time_of(*at, reading), *value, *on, spec),
        Command::Incr {
            key,
            change,
            at,
            spec,
        } => draft_incr(draft, key, *change, time_of(*at, reading), spec),
        Command::DelRange { key, from, to } => draft_del_range(draft, key, *from, *to),
        Command::CreateRule {
            source,
            dest,
            agg,
            grid,
        } => draft_create_rule(draft, source, dest, *agg, grid.align(), grid.duration()),
        Command::DeleteRule { source, dest } => draft_delete_rule(draft, source, dest),
        Command::Drop { keys } => draft_drop(draft, keys),
        _ => Ok(()),
    }
}

/// The limits for the journal of a server with limits `limits`. If a request within `limits`, an array or an inline
/// line, is a command, its record fits the journal's limits. Records written one after another read back under them.
/// Allocates nothing.
pub fn limits_of(limits: WireLimits) -> WireLimits
    requires { IsBounded limits }
    ensures exact { result ≡ journal_limits limits }
    ensures fits { (request : Request) → IsRecordWithin limits request → Fits result request }
    ensures requests { (records : List Request) → All (IsRecordWithin limits) records
        → requests_of (stream_at result 0 (encoded records)) ≡ records }
    ensures ending { (records : List Request) → All (IsRecordWithin limits) records
        → ending_of (stream_at result 0 (encoded records)) ≡ Ended }
{
    WireLimits {
        words: limits.words + limits.line_bytes + 32,
        word_bytes: limits.word_bytes + limits.line_bytes + 32,
        request_bytes: 24 * (limits.request_bytes + limits.line_bytes) + 512,
        line_bytes: limits.line_bytes,
    }
}
