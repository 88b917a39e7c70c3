// What a checkpoint says of a database: its ids, and the series and the rules of each.
use crate::texts::word;
use std::alloc::Global;
use std::io;
use ts_db::Db;

/// The ids of all keys, in key order.
pub(crate) fn ids_text(alloc: Global, db: &Db) -> io::Result<Option<String>> {
    let ids = db.ids()?;
    Ok(Some(format!(in alloc; "{ids:?}")?))
}

/// `stored a` is the id of a key, the rule count and the highest time of its series, and the id of the destination of
/// its first rule, with the start of the open bucket and the count there.
pub(crate) fn stored_text(alloc: Global, db: &Db, key: &str) -> io::Result<Option<String>> {
    let Some(id) = db.id_of(&word(alloc, key)?) else {
        return Ok(None);
    };
    let (series, rule) = (db.series_of(id), db.rules_of(id).first());
    let rule = rule.map(|rule| (rule.dest, rule.current, rule.running.parts().count));
    let (born, high) = (series.born(), series.high());
    Ok(Some(format!(in alloc; "{id:?}, {born} rules, {high:?}, {rule:?}")?))
}
