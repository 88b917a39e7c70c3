// A deletion on a source, the same for all of its rules.
use ts_series::Series;

/// A deletion of the samples of a source from `from` to `to`, in milliseconds, both inclusive. `source` is still as it
/// was before the deletion.
#[derive(Clone, Copy)]
pub struct SourceDeletion<'a> {
    pub source: &'a Series,
    pub from: u64,
    pub to: u64,
}
