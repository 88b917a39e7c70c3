// TS.INFO: properties of a series and of its storage.
ghost use Rattle.std.specs.Prelude.{◌≡◌, ◌+◌, ◌*◌, ◌^◌, ◌<◌, ◌≤◌, [], length, map, true, false, Some, IfOk};
ghost use Rattle.ts_spec.specs.Keyed.{get};
ghost use Rattle.ts_spec.specs.Queries.{info_response};
ghost use Rattle.ts_spec.specs.Replies as spec;
ghost use Rattle.ts_spec.specs.Text.{Simple, Value};
ghost use Rattle.ts_resp.specs.Replies.{reply_of};
ghost use Rattle.ts_db.specs.DbState.{DbState, Represents, reach_at};
ghost use Rattle.ts_db.specs.Information.{info_of, rule_info_of};
ghost use Rattle.ts_questions.specs.Answering.{IsReplyText};

use crate::names::{encoding_name, policy_name};
use std::alloc::{AllocError, Global};
use std::sync::ledger::Ledger;
use ts_agg::name;
use ts_db::{Db, Info, RuleInfo};
use ts_labels::Labels;
use ts_questions::{refusal_reply, write_or_out_of_memory, write_out_of_memory};
use ts_resp::{Out, Reply, Word, put};
use ts_sample::{Cell, Steps, Units};

/// Writes the reply to TS.INFO.
pub(crate) fn write_info<L: Ledger>(db: &Db, key: &Word, out: &mut Out, steps: &mut Steps<L>)
    requires empty { out.old.bytes ≡ [] }
    requires room { 128 ≤ out.old.spare }
    ensures reply { (from : DbState) → Represents db.now from
        → IsReplyText (info_response from.state key.now (get key.now from.state)) out.new.bytes }
    ensures room { 128 ≤ length out.new.bytes + out.new.spare }
    ensures steps { steps.new ≤ steps.old + 2 * reach_at db.now key.now }
{
    match db.info(key, steps) {
        Ok(info) => match info_reply(info) {
            Ok(reply) => write_or_out_of_memory(&reply, out),
            Err(_) => write_out_of_memory(out),
        },
        Err(fault) => put(&refusal_reply(fault), out),
    }
}

// The reply: twelve names, each followed by its value.
fn info_reply(info: Info) -> Result<Reply, AllocError>
    ensures { IfOk result (λ reply. reply_of reply ≡ spec.info_reply (info_of info)) }
{
    if !has_integers(&info) {
        return Err(AllocError);
    }
    let alloc = *info.rules.allocator();
    let options = info.options;
    let labels = labels_reply(alloc, &info.labels)?;
    let rules = rules_reply(alloc, info.rules)?;
    let values = vec![in alloc;
        simple("totalSamples"),
        number(info.total),
        simple("firstTimestamp"),
        number(info.first),
        simple("lastTimestamp"),
        number(info.last),
        simple("retentionTime"),
        number(options.retention),
        simple("chunkSize"),
        number(options.chunk_size as u64),
        simple("chunkType"),
        simple(encoding_name(options.encoding)),
        simple("duplicatePolicy"),
        simple(policy_name(options.policy)),
        simple("labels"),
        labels,
        simple("sourceKey"),
        word_or_nil(info.source),
        simple("rules"),
        rules,
        simple("ignoreMaxTimeDiff"),
        number(options.ignore.time),
        simple("ignoreMaxValDiff"),
        value(options.ignore.value),
    ]?;
    Ok(array(values))
}

fn simple(words: &'static str) -> Reply
    ensures { reply_of result ≡ Simple words.now }
{
    Reply::Simple(words)
}

fn array(replies: Vec<Reply>) -> Reply
    ensures { reply_of result ≡ spec.array (map reply_of replies.items) }
{
    Reply::Array(replies)
}

// Whether every number fits an integer reply of 64 bits.
fn has_integers(info: &Info) -> bool
    ensures total { result ≡ true → info.now.total < 2 ^ 63 }
    ensures first { result ≡ true → info.now.first < 2 ^ 63 }
    ensures last { result ≡ true → info.now.last < 2 ^ 63 }
    ensures retention { result ≡ true → info.now.options.retention < 2 ^ 63 }
    ensures ignored { result ≡ true → info.now.options.ignore.time < 2 ^ 63 }
{
    is_integer(info.total)
        && is_integer(info.first)
        && is_integer(info.last)
        && is_integer(info.options.retention)
        && is_integer(info.options.ignore.time)
}

// Whether a number fits an integer reply of 64 bits.
fn is_integer(number: u64) -> bool
    ensures small { result ≡ true → number < 2 ^ 63 }
    ensures great { result ≡ false → 2 ^ 63 ≤ number }
{
    number <= i64::MAX as u64
}

fn number(number: u64) -> Reply
    requires { number < 2 ^ 63 }
    ensures { reply_of result ≡ spec.number number }
{
    Reply::Int(number as i64)
}

fn value(value: Units) -> Reply
    ensures { reply_of result ≡ Value (Some value) }
{
    Reply::Value(Cell::Number(value))
}

// The reply to an optional key: a bulk string or nil.
fn word_or_nil(word: Option<Word>) -> Reply
    ensures { reply_of result ≡ spec.bulk_or_nil word }
{
    match word {
        None => Reply::Nil,
        Some(word) => Reply::Bulk(word),
    }
}

// The array of all labels.
fn labels_reply(alloc: Global, labels: &Labels) -> Result<Reply, AllocError>
    ensures { IfOk result (λ reply. reply_of reply ≡ spec.array (map spec.label_reply labels.now)) }
{
    let mut replies = Vec::with_capacity(alloc, labels.len())?;
    for i in 0..labels.len() {
        replies.push_reserved(label_reply(alloc, labels.label_at(i), labels.value_at(i))?);
    }
    Ok(Reply::Array(replies))
}

// `[label, value]`.
fn label_reply(alloc: Global, name: &Word, value: &Word) -> Result<Reply, AllocError>
    ensures { IfOk result (λ reply. reply_of reply
        ≡ spec.label_reply (record { name = name.now; value = value.now })) }
{
    let name = Reply::Bulk(name.copy()?);
    let value = Reply::Bulk(value.copy()?);
    Ok(Reply::Array(vec![in alloc; name, value]?))
}

// The array of all compaction rules.
fn rules_reply(alloc: Global, rules: Vec<RuleInfo>) -> Result<Reply, AllocError>
    ensures { IfOk result (λ reply. reply_of reply
        ≡ spec.array (map spec.rule_reply (map rule_info_of rules.items))) }
{
    let mut replies = Vec::with_capacity(alloc, rules.len())?;
    for rule in rules {
        replies.push_reserved(rule_reply(alloc, rule)?);
    }
    Ok(Reply::Array(replies))
}

// `[destination, duration, aggregator, alignment]`.
fn rule_reply(alloc: Global, rule: RuleInfo) -> Result<Reply, AllocError>
    ensures { IfOk result (λ reply. reply_of reply ≡ spec.rule_reply (rule_info_of rule)) }
{
    let (duration, align) = (rule.grid.duration(), rule.grid.align());
    if !is_integer(duration) || !is_integer(align) {
        return Err(AllocError);
    }
    let agg = Reply::Simple(name(rule.agg));
    let dest = Reply::Bulk(rule.dest);
    Ok(Reply::Array(vec![in alloc; dest, number(duration), agg, number(align)]?))
}
