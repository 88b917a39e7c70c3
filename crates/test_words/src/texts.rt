// Words, options and samples as text.
use std::alloc::{AllocError, Global};
use std::str;
use ts_command::{Change, Filter, Show, Spec, Triple};
use ts_labels::Labels;
use ts_resp::Word;

// A word as text. All words come from lines of text.
pub(crate) fn text(word: &Word) -> &str {
    str::from_utf8(word.bytes()).unwrap_or("no text")
}

// Words, each after a space.
pub(crate) fn words(alloc: Global, words: &[Word]) -> Result<String, AllocError> {
    let mut list = String::new(alloc);
    for word in words {
        list.push(' ')?;
        list.push_str(text(word))?;
    }
    Ok(list)
}

// Labels with their values.
pub(crate) fn labels(alloc: Global, labels: &Labels) -> Result<String, AllocError> {
    let mut list = String::from_str(alloc, "labels")?;
    for i in 0..labels.len() {
        list.push(' ')?;
        list.push_str(text(labels.label_at(i)))?;
        list.push('=')?;
        list.push_str(text(labels.value_at(i)))?;
    }
    Ok(list)
}

// Which labels are shown.
pub(crate) fn labels_to_show(alloc: Global, show: &Show) -> Result<String, AllocError> {
    match show {
        Show::Nothing => String::from_str(alloc, "no labels"),
        Show::All => String::from_str(alloc, "all labels"),
        Show::Selected(names) => {
            let names = words(alloc, names)?;
            format!(in alloc; "labels{names}")
        }
    }
}

// Filters: each label, and the values that it may have.
pub(crate) fn filters(alloc: Global, filters: &[Filter]) -> Result<String, AllocError> {
    let mut list = String::from_str(alloc, "filters")?;
    for filter in filters {
        let wanted = words(alloc, filter.wanted())?;
        list.push_str(" (")?;
        list.push_str(text(filter.label()))?;
        list.push_str(" among")?;
        list.push_str(wanted.as_str())?;
        list.push(')')?;
    }
    Ok(list)
}

// The options of a new series.
pub(crate) fn spec_text(alloc: Global, spec: &Spec) -> Result<String, AllocError> {
    let options = spec.options;
    let labels = labels(alloc, &spec.labels)?;
    format!(in alloc; "{options:?} {labels}")
}

// The options that TS.ALTER changes.
pub(crate) fn change_text(alloc: Global, change: &Change) -> Result<String, AllocError> {
    let (retention, chunk_size) = (change.retention, change.chunk_size);
    let (policy, ignore) = (change.policy, change.ignore);
    let labels = match &change.labels {
        Some(given) => labels(alloc, given)?,
        None => String::from_str(alloc, "no labels")?,
    };
    format!(in alloc;
        "retention {retention:?} chunk_size {chunk_size:?} policy {policy:?} ignore {ignore:?} {labels}"
    )
}

// The samples of TS.MADD.
pub(crate) fn samples(alloc: Global, triples: &[Triple]) -> Result<String, AllocError> {
    let mut list = String::new(alloc);
    for triple in triples {
        let one = sample(alloc, triple)?;
        list.push_str(one.as_str())?;
    }
    Ok(list)
}

fn sample(alloc: Global, triple: &Triple) -> Result<String, AllocError> {
    let (key, at, value) = (text(&triple.key), triple.at, triple.value);
    format!(in alloc; " ({key} {at:?} {value:?})")
}
