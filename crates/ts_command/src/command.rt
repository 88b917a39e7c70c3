// Commands.
ghost use Rattle.std.specs.Result.{ForErr, ForOk};
ghost use Rattle.ts_spec.specs.Settings.{IsTime};
ghost use Rattle.ts_command.specs.Faults.{IsNoMemory};

use crate::fault::CommandFault;
use crate::range_options::GroupBy;
use ts_bucket::Grid;
use ts_labels::{Change, Filter, Show, Spec};
use ts_range::Query;
use ts_resp::Word;
use ts_sample::Units;
use ts_spec::{Aggregator, At, Policy};

/// A client's command.
#[derive(Debug, Drop)]
pub enum Command {
    /// TS.CREATE: creates a series.
    Create {
        key: Word,
        spec: Spec,
    },
    /// TS.ALTER: changes options of a series.
    Alter {
        key: Word,
        change: Change,
    },
    /// TS.ADD: adds a sample. Creates the series with `spec` if it does not exist.
    Add {
        key: Word,
        at: At,
        value: Units,
        /// How to merge with a sample at the same time, instead of by the duplicate policy of the series.
        on: Option<Policy>,
        spec: Spec,
    },
    /// TS.MADD: adds samples to existing series, in order.
    Madd {
        triples: Vec<Triple>,
    },
    /// TS.INCRBY and TS.DECRBY: adds a sample with the last value plus `change`. Creates the series with `spec` if it
    /// does not exist.
    Incr {
        key: Word,
        change: Units,
        at: At,
        spec: Spec,
    },
    /// TS.DEL: deletes the samples between two times, both included.
    DelRange {
        key: Word,
        /// In milliseconds, at most `MAX_TIME`.
        from: u64,
        /// In milliseconds, at most `MAX_TIME`.
        to: u64,
    },
    /// TS.CREATERULE: creates a compaction rule, which aggregates buckets of the source into samples of the
    /// destination.
    CreateRule {
        source: Word,
        dest: Word,
        /// How the samples of a bucket are aggregated.
        agg: Aggregator,
        grid: Grid,
    },
    /// TS.DELETERULE: deletes the compaction rule between two series.
    DeleteRule {
        source: Word,
        dest: Word,
    },
    /// TS.RANGE and TS.REVRANGE: queries one series.
    Range {
        key: Word,
        /// LATEST: whether a destination also shows its bucket that is still open.
        latest: bool,
        query: Query,
    },
    /// TS.MRANGE and TS.MREVRANGE: queries each series that matches the filters, grouped by a label if `group` is
    /// given.
    MRange {
        /// LATEST: whether a destination also shows its bucket that is still open.
        latest: bool,
        show: Show,
        filters: Vec<Filter>,
        query: Query,
        group: Option<GroupBy>,
    },
    /// TS.GET: returns the last sample of a series.
    Get {
        key: Word,
        /// LATEST: whether a destination also shows its bucket that is still open.
        latest: bool,
    },
    /// TS.MGET: returns the last sample of each series that matches the filters.
    MGet {
        /// LATEST: whether a destination also shows its bucket that is still open.
        latest: bool,
        show: Show,
        filters: Vec<Filter>,
    },
    /// TS.QUERYINDEX: returns the keys of the series that match the filters.
    QueryIndex {
        filters: Vec<Filter>,
    },
    /// TS.INFO: returns the options and state of a series.
    InfoOf {
        key: Word,
    },
    /// PING: replies PONG, or the given word.
    Ping {
        word: Option<Word>,
    },
    /// ECHO: replies with the given word.
    Echo {
        word: Word,
    },
    /// QUIT: ends the stream.
    Quit,
    /// DEL: deletes the series with these keys.
    Drop {
        keys: Vec<Word>,
    },
    /// EXISTS: counts the keys that name a series. A repeated key counts each time.
    Exists {
        keys: Vec<Word>,
    },
}

/// One sample of TS.MADD. An invalid time or value becomes the error reply of this sample alone.
#[derive(Debug, Drop)]
pub struct Triple {
    pub key: Word,
    pub at: Result<At, CommandFault>,
    pub value: Result<Units, CommandFault>,
    ghost time_fits: { ForOk at IsTime },
    ghost time_no_memory: { ForErr at IsNoMemory },
    ghost value_no_memory: { ForErr value IsNoMemory },
}
