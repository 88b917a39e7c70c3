// A planned change of a series of one kind of chunk: the interval it deletes and the rows it writes.
ghost use Rattle.std.specs.Prelude.{◌≡◌, IfOk};
ghost use Rattle.ts_series.specs.Plan.{row_samples};
ghost use Rattle.ts_spec.specs.Sample.{first_of};
ghost use Rattle.ts_series.specs.Put.{nothing_in};

use crate::change::Change;
use std::alloc::{AllocError, Global};
use std::collections::VecDeque;
use std::marker::Model;
use std::slice;
use ts_sample::{Chunk, Sample};
use ts_spec::{Encoding, Options};

// The times from `from` to `to`, both inclusive. Empty if `from` is above `to`.
#[derive(Clone, Copy)]
pub(crate) struct Interval {
    pub(crate) from: u64,
    pub(crate) to: u64,
}

// Samples in ascending time. A single one needs no allocation.
#[derive(Drop)]
pub(crate) enum Rows {
    Empty,
    One(Sample),
    Many(Vec<Sample>),
}

impl Rows {
    // A copy of these samples.
    pub(crate) fn of(alloc: Global, samples: &[Sample]) -> Result<Rows, AllocError>
        ensures { IfOk result (λ rows. row_samples rows ≡ samples.now) }
    {
        match samples {
            [] => Ok(Rows::Empty),
            [sample] => Ok(Rows::One(*sample)),
            _ => {
                let mut rows = Vec::with_capacity(alloc, samples.len())?;
                rows.extend_from_slice(samples)?;
                Ok(Rows::Many(rows))
            }
        }
    }

    pub(crate) fn as_slice(&self) -> &[Sample]
        ensures { result.now ≡ row_samples self.now }
    {
        match self {
            Rows::Empty => &[],
            Rows::One(sample) => slice::from_ref(sample),
            Rows::Many(samples) => samples,
        }
    }
}

// A planned change of a series. It owns the memory that it needs, so a commit cannot fail.
#[derive(Drop)]
pub(crate) struct ChunkedSeriesPlan<C: Chunk> {
    // The interval to delete, and the number of samples in it.
    pub(crate) cut: Option<Interval>,
    pub(crate) removed: u64,
    // The encoding of the series that the plan was made for.
    pub(crate) encoding: Encoding,
    pub(crate) wrote: Rows,
    pub(crate) options: Option<Options>,
    pub(crate) change: Change<C>,
    pub(crate) larger: Option<VecDeque<C>>,
}

impl<C: Chunk> Model for ChunkedSeriesPlan<C> {
    ghost use Rattle.std.specs.Prelude.{◌≡◌, IfSome, [], option_map};
    ghost use Rattle.std.specs.VecDeque.{deque_capacity};
    ghost use Rattle.ts_spec.specs.Sample.{IsAscending};
    ghost use Rattle.ts_series.specs.Plan.{Plan, row_samples};

    ghost Value = { Plan };

    ghost view = { λ p. record {
      cut = p.cut;
      removed = p.removed;
      encoding = p.encoding;
      wrote = row_samples p.wrote;
      options = p.options;
      change = p.change;
      room = option_map (λ q. deque_capacity q) p.larger;
    } };

    ghost invariant = { λ p. IfSome p.larger (λ q. q.items ≡ []) × IsAscending (row_samples p.wrote) };
}

impl<C: Chunk> ChunkedSeriesPlan<C> {
    // A plan that changes nothing.
    pub(crate) fn nothing(alloc: Global, encoding: Encoding) -> ChunkedSeriesPlan<C>
        ensures { result ≡ nothing_in encoding }
    {
        ChunkedSeriesPlan {
            cut: None,
            removed: 0,
            encoding,
            wrote: Rows::Empty,
            options: None,
            change: Change::nothing(alloc),
            larger: None,
        }
    }

    // The first sample to write, or `None`.
    pub(crate) fn wrote(&self) -> Option<Sample>
        ensures { result ≡ first_of self.now.wrote }
    {
        self.wrote.as_slice().first().copied()
    }

    // The number of samples to delete.
    pub(crate) fn removed(&self) -> u64
        ensures { result ≡ self.now.removed }
    {
        self.removed
    }
}
