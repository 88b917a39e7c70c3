// The names of options, and which options each command accepts.
ghost use Rattle.std.specs.Prelude.{◌≡◌, option_map, IfSome, IsTrue};
ghost use Rattle.ts_spec.specs.Names.{named};
ghost use Rattle.ts_command.specs.Options.{setting_of, table_of, is_list, list_option, is_list_option};

use ts_agg::named;

// An option.
#[derive(Clone, Copy)]
pub(crate) enum OptionWord {
    Retention,
    Encoding,
    ChunkSize,
    DuplicatePolicy,
    Ignore,
    OnDuplicate,
    Timestamp,
    Labels,
    Latest,
    FilterByTs,
    FilterByValue,
    Count,
    Aggregation,
    Align,
    BucketTimestamp,
    Empty,
    WithLabels,
    SelectedLabels,
    Filter,
    GroupBy,
}

// The set of options that a command accepts.
#[derive(Clone, Copy)]
pub(crate) enum OptionSet {
    Create,
    Alter,
    Add,
    Incr,
    Range,
    ManyRanges,
    ManyLast,
}

const CREATE: [(&[u8], OptionWord); 6] = [
    (b"RETENTION", OptionWord::Retention),
    (b"ENCODING", OptionWord::Encoding),
    (b"CHUNK_SIZE", OptionWord::ChunkSize),
    (b"DUPLICATE_POLICY", OptionWord::DuplicatePolicy),
    (b"IGNORE", OptionWord::Ignore),
    (b"LABELS", OptionWord::Labels),
];

const ALTER: [(&[u8], OptionWord); 5] = [
    (b"RETENTION", OptionWord::Retention),
    (b"CHUNK_SIZE", OptionWord::ChunkSize),
    (b"DUPLICATE_POLICY", OptionWord::DuplicatePolicy),
    (b"IGNORE", OptionWord::Ignore),
    (b"LABELS", OptionWord::Labels),
];

const ADD: [(&[u8], OptionWord); 7] = [
    (b"ON_DUPLICATE", OptionWord::OnDuplicate),
    (b"RETENTION", OptionWord::Retention),
    (b"ENCODING", OptionWord::Encoding),
    (b"CHUNK_SIZE", OptionWord::ChunkSize),
    (b"DUPLICATE_POLICY", OptionWord::DuplicatePolicy),
    (b"IGNORE", OptionWord::Ignore),
    (b"LABELS", OptionWord::Labels),
];

const INCR: [(&[u8], OptionWord); 7] = [
    (b"TIMESTAMP", OptionWord::Timestamp),
    (b"RETENTION", OptionWord::Retention),
    (b"ENCODING", OptionWord::Encoding),
    (b"CHUNK_SIZE", OptionWord::ChunkSize),
    (b"DUPLICATE_POLICY", OptionWord::DuplicatePolicy),
    (b"IGNORE", OptionWord::Ignore),
    (b"LABELS", OptionWord::Labels),
];

const RANGE: [(&[u8], OptionWord); 8] = [
    (b"LATEST", OptionWord::Latest),
    (b"FILTER_BY_TS", OptionWord::FilterByTs),
    (b"FILTER_BY_VALUE", OptionWord::FilterByValue),
    (b"COUNT", OptionWord::Count),
    (b"AGGREGATION", OptionWord::Aggregation),
    (b"ALIGN", OptionWord::Align),
    (b"BUCKETTIMESTAMP", OptionWord::BucketTimestamp),
    (b"EMPTY", OptionWord::Empty),
];

const MANY_LAST: [(&[u8], OptionWord); 4] = [
    (b"LATEST", OptionWord::Latest),
    (b"WITHLABELS", OptionWord::WithLabels),
    (b"SELECTED_LABELS", OptionWord::SelectedLabels),
    (b"FILTER", OptionWord::Filter),
];

const MANY_RANGES: [(&[u8], OptionWord); 12] = [
    (b"GROUPBY", OptionWord::GroupBy),
    (b"WITHLABELS", OptionWord::WithLabels),
    (b"SELECTED_LABELS", OptionWord::SelectedLabels),
    (b"FILTER", OptionWord::Filter),
    (b"LATEST", OptionWord::Latest),
    (b"FILTER_BY_TS", OptionWord::FilterByTs),
    (b"FILTER_BY_VALUE", OptionWord::FilterByValue),
    (b"COUNT", OptionWord::Count),
    (b"AGGREGATION", OptionWord::Aggregation),
    (b"ALIGN", OptionWord::Align),
    (b"BUCKETTIMESTAMP", OptionWord::BucketTimestamp),
    (b"EMPTY", OptionWord::Empty),
];

impl OptionSet {
    // The option of this set with this name.
    pub(crate) fn named(self, word: &[u8]) -> Option<OptionWord>
        ensures setting { option_map setting_of result ≡ named (table_of self) word.now }
        ensures list { IfSome result (λ option. IsTrue (is_list option)
            → IsTrue (is_list_option (list_option self) word.now)) }
    {
        match self {
            OptionSet::Create => named(&CREATE, word),
            OptionSet::Alter => named(&ALTER, word),
            OptionSet::Add => named(&ADD, word),
            OptionSet::Incr => named(&INCR, word),
            OptionSet::Range => named(&RANGE, word),
            OptionSet::ManyRanges => named(&MANY_RANGES, word),
            OptionSet::ManyLast => named(&MANY_LAST, word),
        }
    }
}
