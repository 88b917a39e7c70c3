// Groups ascending samples into buckets and emits one row per bucket.
use crate::bucket::Bucket;
use crate::query::Buckets;
use crate::row_sinks::RowSink;
use ts_sample::Sample;

#[derive(Clone, Copy)]
pub(crate) struct Cutter {
    pub(crate) buckets: Buckets,
    // The bucket of the last sample. More samples may follow.
    pub(crate) current: Option<Bucket>,
}

impl Cutter {
    ghost use Rattle.std.specs.Prelude.{◌≡◌, ◌<◌, ◌+◌, ◌^◌, ℕ, List, [], ◌∷◌, ◌++◌, None};
    ghost use Rattle.std.specs.Option.{ForSome};
    ghost use Rattle.ts_spec.specs.Sample.{Point, IsAscending};
    ghost use Rattle.ts_agg.specs.Tally.{counted};
    ghost use Rattle.ts_range.specs.Query.{buckets_of};
    ghost use Rattle.ts_range.specs.BucketRows.{bucket_rows};
    ghost use Rattle.ts_range.specs.Cutting.{IsCut, HasAtMost, HasBegun};

    pub(crate) fn new(buckets: Buckets) -> Cutter
        ensures { result ≡ record { buckets = buckets; current = None } }
    {
        Cutter {
            buckets,
            current: None,
        }
    }

    // Adds the next sample. If it starts a new bucket, emits the row of the previous one first. Samples within a bucket
    // need no division.
    #[inline(always)]
    pub(crate) fn push<T: RowSink>(&mut self, sample: &Sample, row_sink: &mut T)
        requires few { ForSome self.old.current (λ b. counted b.tally < 10 ^ 14) }
        ensures buckets { self.new.buckets ≡ self.old.buckets }
        ensures limit { T.limit row_sink.new ≡ T.limit row_sink.old }
        ensures few { (n : ℕ) → HasAtMost n self.old.current → HasAtMost (n + 1) self.new.current }
        ensures cut { (ps : List Point) → IsAscending (ps ++ sample.now ∷ [])
            → IsCut (T.has row_sink.old) self.old.buckets self.old.current ps
            → IsCut (T.has row_sink.new) self.old.buckets self.new.current (ps ++ sample.now ∷ []) }
    {
        match &mut self.current {
            None => self.open(sample),
            Some(bucket) => {
                if sample.time <= bucket.last {
                    bucket.tally.push(sample);
                    return;
                }
                bucket.emit_and_advance(&self.buckets, sample, row_sink);
            }
        }
    }

    // Starts the bucket of the first sample.
    #[inline(never)]
    fn open(&mut self, sample: &Sample)
        ensures buckets { self.new.buckets ≡ self.old.buckets }
        ensures begun { HasBegun self.old.buckets self.new.current sample.now }
    {
        self.current = Some(Bucket::of(&self.buckets, sample));
    }

    // Emits the row of the current bucket, if there is one.
    pub(crate) fn close<T: RowSink>(&self, row_sink: &mut T)
        ensures limit { T.limit row_sink.new ≡ T.limit row_sink.old }
        ensures closed { (ps asked : List Point) → IsCut (T.has row_sink.old) self.now.buckets self.now.current ps
            → T.has row_sink.new (bucket_rows (buckets_of self.now.buckets) asked ps) }
    {
        if let Some(bucket) = &self.current {
            bucket.emit_row(&self.buckets, row_sink);
        }
    }
}
