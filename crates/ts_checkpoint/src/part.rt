// What one record of a checkpoint says.
ghost use Rattle.std.specs.Prelude.{Some};
ghost use Rattle.ts_checkpoint.specs.FaultNames.{name_of};

use std::alloc::AllocError;
use std::fmt;
use thiserror::Error;
use ts_bucket::Grid;
use ts_labels::Spec;
use ts_resp::Word;
use ts_restore::SummaryParts;
use ts_spec::Aggregator;

/// What one record of a checkpoint says.
#[derive(Debug, Drop)]
pub enum Part {
    /// The first record: how many follow.
    Head(u64),
    /// A series, without its samples and rules.
    Series(SeriesHead),
    /// The next samples of the series before it.
    Samples(Piece),
    /// A rule.
    Rule(RuleRecord),
}

/// A series of a checkpoint, without its samples and rules.
#[derive(Debug, Drop)]
pub struct SeriesHead {
    pub key: Word,
    pub spec: Spec,
    /// The highest time that it ever had a sample at, if it had one.
    pub high: Option<u64>,
    /// How many rules were ever made on it.
    pub born: u32,
    /// How many pieces follow with its samples.
    pub pieces: u32,
}

/// The samples of one chunk.
#[derive(Debug, Drop)]
pub struct Piece {
    /// The limit of the chunk, in bytes.
    pub limit: u32,
    /// The samples, packed, for both encodings.
    pub samples: Word,
}

/// A rule of a checkpoint.
#[derive(Debug, Drop)]
pub struct RuleRecord {
    pub source: Word,
    pub dest: Word,
    pub agg: Aggregator,
    pub grid: Grid,
    /// How many rules were made on the source until then, this one included.
    pub made: u32,
    /// The start of the open bucket, if there is one.
    pub current: Option<u64>,
    /// The summary of what it counts in the open bucket.
    pub running: SummaryParts,
}

/// Why a record could not be read.
#[derive(Clone, Copy, PartialEq, Eq, Error)]
pub enum PartFault {
    /// The words are damaged, or no record of a checkpoint has these words.
    #[error("invalid record of a checkpoint")]
    Refused,
    /// Out of memory.
    #[error(transparent)]
    Memory(AllocError),
}

impl fmt::Debug for PartFault {
    ghost debug_output = { λ fault. Some (name_of fault) };

    fn fmt<W: fmt::Write>(&self, f: &mut fmt::Formatter<W>) -> fmt::Result {
        f.write_str(match self {
            PartFault::Refused => "Refused",
            PartFault::Memory(_) => "Memory(AllocError)",
        })
    }
}
