// Errors of the database.
ghost use Rattle.std.specs.Prelude.{◌≡◌, Some};
ghost use Rattle.ts_spec.specs.Keyed.{Keyed};
ghost use Rattle.ts_sample.specs.declared.sample.Id.{Id as TheId};
ghost use Rattle.ts_series.specs.Put.{refusal_of as put_refusal};
ghost use Rattle.ts_db.specs.FaultNames.{debug_of, name_of, series_name_of};
ghost use Rattle.ts_db.specs.Faults.{refusal_of, IsFaultAt};

use std::alloc::AllocError;
use std::fmt;
use thiserror::Error;
use ts_sample::Id;
use ts_series::PutFault;

/// Why an operation failed. The database is then unchanged.
#[derive(Drop, Error)]
pub enum DbFault {
    /// The key already exists.
    #[error("key already exists")]
    KeyExists,
    /// The key does not exist.
    #[error("no such key")]
    NoKey,
    /// The database holds as many keys as its limits allow.
    #[error("too many keys")]
    KeysFull,
    /// The series would have more labels than the limits allow.
    #[error("too many labels")]
    LabelsFull,
    /// The time is before the series' retention edge.
    #[error("the time is before the retention")]
    TooOld,
    /// The series has a sample at this time, and the duplicate policy is `BLOCK`.
    #[error("duplicate sample")]
    Duplicate,
    /// The value is out of range.
    #[error("value out of range")]
    OutOfRange,
    /// The time is before the last sample's time (TS.INCRBY, TS.DECRBY).
    #[error("the time is before the last sample")]
    BeforeLast,
    /// The series `id` would have more samples than the limits allow: the series being written if `written` is `true`,
    /// or else a destination of one of its rules.
    #[error("too many samples")]
    SamplesFull { id: Id, written: bool },
    /// The deleted interval touches a bucket of a rule whose samples have partly expired.
    #[error("the interval meets an expired bucket")]
    DeleteBeyondRetention,
    /// The source and the destination of the rule are the same key.
    #[error("the source and the destination are the same")]
    SameKey,
    /// The source of the rule is already a destination.
    #[error("the source is a destination")]
    SourceIsDest,
    /// The destination of the rule is already a source.
    #[error("the destination is a source")]
    DestIsSource,
    /// The destination of the rule already has a source.
    #[error("the destination has a source")]
    DestHasSource,
    /// The source has had as many rules in its lifetime as the limits allow.
    #[error("too many rules made")]
    RulesSpent,
    /// The source has as many rules as the limits allow.
    #[error("too many rules")]
    RulesFull,
    /// There is no such rule.
    #[error("no such rule")]
    NoRule,
    /// Out of memory.
    #[error(transparent)]
    Memory(AllocError),
}

impl DbFault {
    // The variant's name. `Memory` includes its cause.
    fn name(&self) -> &'static str
        ensures { result.now ≡ name_of self.now }
    {
        match self {
            DbFault::KeyExists => "KeyExists",
            DbFault::NoKey => "NoKey",
            DbFault::KeysFull => "KeysFull",
            DbFault::LabelsFull => "LabelsFull",
            DbFault::TooOld => "TooOld",
            DbFault::Duplicate => "Duplicate",
            DbFault::OutOfRange => "OutOfRange",
            DbFault::BeforeLast => "BeforeLast",
            DbFault::SamplesFull { .. } => "SamplesFull",
            DbFault::DeleteBeyondRetention => "DeleteBeyondRetention",
            DbFault::SameKey => "SameKey",
            DbFault::SourceIsDest => "SourceIsDest",
            DbFault::DestIsSource => "DestIsSource",
            DbFault::DestHasSource => "DestHasSource",
            DbFault::RulesSpent => "RulesSpent",
            DbFault::RulesFull => "RulesFull",
            DbFault::NoRule => "NoRule",
            DbFault::Memory(_) => "Memory(AllocError)",
        }
    }
}

impl fmt::Debug for DbFault {
    ghost debug_output = { λ fault. Some (debug_of fault) };

    fn fmt<W: fmt::Write>(&self, f: &mut fmt::Formatter<W>) -> fmt::Result {
        match self {
            DbFault::SamplesFull { id, written } => {
                let (number, series) = (id.0, series_name(*written));
                write!(f, "SamplesFull(Id({number}), {series})")
            }
            other => f.write_str(other.name()),
        }
    }
}

// Which series is full.
fn series_name(written: bool) -> &'static str
    ensures { result.now ≡ series_name_of written }
{
    if written { "written" } else { "destination" }
}

// The same error, for series `id`.
pub(crate) fn fault_at(id: Id, fault: PutFault) -> DbFault
    ensures refusal { (ids : Keyed TheId) → refusal_of ids result ≡ put_refusal fault }
    ensures own { IsFaultAt id result }
{
    match fault {
        PutFault::TooOld => DbFault::TooOld,
        PutFault::Duplicate => DbFault::Duplicate,
        PutFault::OutOfRange => DbFault::OutOfRange,
        PutFault::Full => DbFault::SamplesFull { id, written: true },
        PutFault::Unwritten(_) => DbFault::Memory(AllocError),
        PutFault::Memory(fault) => DbFault::Memory(fault),
    }
}
