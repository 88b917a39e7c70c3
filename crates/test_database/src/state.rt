// All that a database tells of its keys.
use crate::queries::query;
use crate::texts::word;
use std::alloc::Global;
use std::io;
use std::io::ErrorKind;
use std::sync::ledger::Ledger;
use ts_db::{Db, DbFault, Info};
use ts_sample::Steps;

const KEYS: &str = "a b c d e f g h i j k l m n o p q r s t u v w x y z";

/// How many keys there are, and for each of one letter its id, its information, and its samples without the latest row
/// and with it.
pub(crate) fn state_text<L: Ledger>(
    alloc: Global,
    db: &Db,
    steps: &mut Steps<L>,
) -> io::Result<String> {
    let count = db.count();
    let mut text = format!(in alloc; "{count}")?;
    for key in KEYS.split(' ') {
        push_key(alloc, &mut text, db, key, steps)?;
    }
    Ok(text)
}

fn push_key<L: Ledger>(
    alloc: Global,
    text: &mut String,
    db: &Db,
    key: &str,
    steps: &mut Steps<L>,
) -> io::Result<()> {
    let word = word(alloc, key)?;
    match db.info(&word, steps) {
        Ok(info) => push_info(alloc, text, &info)?,
        Err(DbFault::Memory(_)) => return Err(io::Error::from(ErrorKind::OutOfMemory)),
        Err(_) => return Ok(()),
    }
    let id = db.id_of(&word);
    let samples = query(alloc, db, "all", key, false, steps)?;
    let latest = query(alloc, db, "all", key, true, steps)?;
    let known = format!(in alloc; " {id:?} {samples:?} {latest:?};")?;
    text.push_str(&known)?;
    Ok(())
}

fn push_info(alloc: Global, text: &mut String, info: &Info) -> io::Result<()> {
    let (total, first, last) = (info.total, info.first, info.last);
    let (options, labels, source) = (&info.options, &info.labels, &info.source);
    let known = format!(in alloc; "{total} {first} {last} {options:?} {labels:?} {source:?}")?;
    text.push_str(&known)?;
    for rule in &info.rules {
        let (dest, grid, agg) = (&rule.dest, &rule.grid, &rule.agg);
        let known = format!(in alloc; " {dest:?} {grid:?} {agg:?}")?;
        text.push_str(&known)?;
    }
    Ok(())
}
