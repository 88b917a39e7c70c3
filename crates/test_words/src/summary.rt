// Commands and queries as text.
use crate::texts::{change_text, filters, labels_to_show, samples, spec_text, text, words};
use std::alloc::{AllocError, Global};
use ts_command::{Command, Filter, GroupBy, Query, Show};
use ts_resp::Word;

// The summary of a command.
pub(crate) fn summary(alloc: Global, command: &Command) -> Result<String, AllocError> {
    match command {
        Command::Create { key, spec } => {
            format!(in alloc; "create {} {}", text(key), spec_text(alloc, spec)?)
        }
        Command::Alter { key, change } => {
            format!(in alloc; "alter {} {}", text(key), change_text(alloc, change)?)
        }
        Command::Add {
            key,
            at,
            value,
            on,
            spec,
        } => {
            let (value, spec) = (value.get(), spec_text(alloc, spec)?);
            format!(in alloc; "add {} {at:?} {value} on {on:?} {spec}", text(key))
        }
        Command::Incr {
            key,
            change,
            at,
            spec,
        } => {
            let (change, spec) = (change.get(), spec_text(alloc, spec)?);
            format!(in alloc; "add to {} {at:?} {change} {spec}", text(key))
        }
        Command::Madd { triples } => format!(in alloc; "add{}", samples(alloc, triples)?),
        _ => rule(alloc, command),
    }
}

// Rules and deletions.
fn rule(alloc: Global, command: &Command) -> Result<String, AllocError> {
    match command {
        Command::CreateRule {
            source,
            dest,
            agg,
            grid,
        } => {
            format!(in alloc;
                "rule from {} to {} {agg:?} {grid:?}",
                text(source),
                text(dest)
            )
        }
        Command::DeleteRule { source, dest } => {
            format!(in alloc; "no rule from {} to {}", text(source), text(dest))
        }
        Command::DelRange { key, from, to } => {
            format!(in alloc; "delete {} from {from} to {to}", text(key))
        }
        Command::Drop { keys } => format!(in alloc; "delete{}", words(alloc, keys)?),
        _ => question(alloc, command),
    }
}

// Queries for samples.
fn question(alloc: Global, command: &Command) -> Result<String, AllocError> {
    match command {
        Command::Range { key, latest, query } => range(alloc, key, *latest, query),
        Command::MRange {
            latest,
            show,
            filters,
            query,
            group,
        } => {
            let chosen = selection(alloc, *latest, show, filters)?;
            let group = group_text(alloc, group)?;
            format!(in alloc; "ranges {chosen} {query:?}{group}")
        }
        Command::Get { key, latest } => last(alloc, key, *latest),
        Command::MGet {
            latest,
            show,
            filters,
        } => { format!(in alloc; "last {}", selection(alloc, *latest, show, filters)?) }
        _ => small(alloc, command),
    }
}

// Small commands.
fn small(alloc: Global, command: &Command) -> Result<String, AllocError> {
    match command {
        Command::QueryIndex { filters: chosen } => filters(alloc, chosen),
        Command::InfoOf { key } => format!(in alloc; "info {}", text(key)),
        Command::Ping { word: None } => String::from_str(alloc, "ping"),
        Command::Ping { word: Some(word) } => format!(in alloc; "ping {}", text(word)),
        Command::Echo { word } => format!(in alloc; "echo {}", text(word)),
        Command::Quit => String::from_str(alloc, "quit"),
        Command::Exists { keys } => format!(in alloc; "exists{}", words(alloc, keys)?),
        _ => String::from_str(alloc, "another command"),
    }
}

// Whether LATEST is given.
fn latest_word(latest: bool) -> &'static str {
    if latest { "latest " } else { "" }
}

// TS.RANGE and TS.REVRANGE.
pub(crate) fn range(
    alloc: Global,
    key: &Word,
    latest: bool,
    query: &Query,
) -> Result<String, AllocError> {
    let (key, latest) = (text(key), latest_word(latest));
    format!(in alloc; "range {latest}{key} {query:?}")
}

// TS.GET.
pub(crate) fn last(alloc: Global, key: &Word, latest: bool) -> Result<String, AllocError> {
    let (key, latest) = (text(key), latest_word(latest));
    format!(in alloc; "last {latest}{key}")
}

// The filters of a query, and which labels its reply shows.
pub(crate) fn selection(
    alloc: Global,
    latest: bool,
    show: &Show,
    chosen: &[Filter],
) -> Result<String, AllocError> {
    let latest = latest_word(latest);
    let (labels, filters) = (labels_to_show(alloc, show)?, filters(alloc, chosen)?);
    format!(in alloc; "{latest}{labels} {filters}")
}

// GROUPBY, if it is given.
pub(crate) fn group_text(alloc: Global, group: &Option<GroupBy>) -> Result<String, AllocError> {
    let Some(GroupBy { label, reducer }) = group else {
        return String::from_str(alloc, "");
    };
    format!(in alloc; " by {} {reducer:?}", text(label))
}
