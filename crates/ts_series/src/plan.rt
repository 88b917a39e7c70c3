// A planned change of a series, and why planning can fail.
ghost use Rattle.std.specs.Prelude.{◌≡◌, Some};
ghost use Rattle.ts_spec.specs.Sample.{first_of};
ghost use Rattle.ts_spec.specs.declared.series.Encoding.TheVariants.{Compressed, Uncompressed};
ghost use Rattle.ts_series.specs.FaultNames.{name_of};

use crate::chunked_series_plan::ChunkedSeriesPlan;
use std::alloc::AllocError;
use std::fmt;
use std::marker::Model;
use thiserror::Error;
use ts_chunk_packed::PackedChunk;
use ts_chunk_plain::PlainChunk;
use ts_sample::Sample;

/// Why a write fails.
#[derive(Drop, Error)]
pub enum PutFault {
    /// The time is before the retention edge.
    #[error("the time is before the retention")]
    TooOld,
    /// The time has a sample, and the policy is `Block`.
    #[error("duplicate sample")]
    Duplicate,
    /// The sum is out of range.
    #[error("value out of range")]
    OutOfRange,
    /// The series would have too many samples.
    #[error("too many samples")]
    Full,
    /// Out of memory for this sample, which the series could otherwise take.
    #[error("no memory for a sample")]
    Unwritten(Sample),
    /// Out of memory.
    #[error(transparent)]
    Memory(AllocError),
}

impl fmt::Debug for PutFault {
    ghost debug_output = { λ fault. Some (name_of fault) };

    fn fmt<W: fmt::Write>(&self, f: &mut fmt::Formatter<W>) -> fmt::Result {
        f.write_str(match self {
            PutFault::TooOld => "TooOld",
            PutFault::Duplicate => "Duplicate",
            PutFault::OutOfRange => "OutOfRange",
            PutFault::Full => "Full",
            PutFault::Unwritten(_) => "Unwritten",
            PutFault::Memory(_) => "Memory(AllocError)",
        })
    }
}

impl PutFault {
    ghost use Rattle.ts_series.specs.Put.{unwritten_of};

    /// The sample that failed for lack of memory, if that is the fault.
    pub fn sample(&self) -> Option<Sample>
        ensures { result ≡ unwritten_of self.now }
    {
        match self {
            PutFault::Unwritten(sample) => Some(*sample),
            _ => None,
        }
    }
}

/// A planned change of a series. It owns the memory that it needs, so a commit cannot fail.
#[derive(Drop)]
pub struct SeriesPlan {
    pub(crate) plans: PlanByEncoding,
}

// A plan for either encoding.
#[derive(Drop)]
pub(crate) enum PlanByEncoding {
    Plain(ChunkedSeriesPlan<PlainChunk>),
    Packed(ChunkedSeriesPlan<PackedChunk>),
}

impl Model for SeriesPlan {
    ghost use Rattle.ts_series.specs.Encoded.{plan_in, PlanHasEncoding};
    ghost use Rattle.ts_series.specs.Plan.{Plan};

    ghost Value = { Plan };

    ghost view = { λ p. plan_in p.plans };

    ghost invariant = { λ p. PlanHasEncoding p.plans };
}

impl SeriesPlan {
    pub(crate) fn plain(plan: ChunkedSeriesPlan<PlainChunk>) -> SeriesPlan
        requires { plan.encoding ≡ Uncompressed }
        ensures { result ≡ plan }
    {
        SeriesPlan {
            plans: PlanByEncoding::Plain(plan),
        }
    }

    pub(crate) fn packed(plan: ChunkedSeriesPlan<PackedChunk>) -> SeriesPlan
        requires { plan.encoding ≡ Compressed }
        ensures { result ≡ plan }
    {
        SeriesPlan {
            plans: PlanByEncoding::Packed(plan),
        }
    }

    /// The first sample to write, or `None`.
    pub fn wrote(&self) -> Option<Sample>
        ensures { result ≡ first_of self.now.wrote }
    {
        match &self.plans {
            PlanByEncoding::Plain(plan) => plan.wrote(),
            PlanByEncoding::Packed(plan) => plan.wrote(),
        }
    }

    /// The number of samples to delete.
    pub fn removed(&self) -> u64
        ensures { result ≡ self.now.removed }
    {
        match &self.plans {
            PlanByEncoding::Plain(plan) => plan.removed(),
            PlanByEncoding::Packed(plan) => plan.removed(),
        }
    }
}
