// Merges the row of an open bucket into the samples of a series.
ghost use Rattle.std.specs.Prelude.{◌≡◌, ◌≤◌, ◌+◌, ◌*◌, nat_lt, List, length, Some};
ghost use Rattle.ts_spec.specs.Sample.{Point, IsAscending, at_times, between, first_of, last_of, put, put_all};
ghost use Rattle.ts_sample.specs.Visit.{visited};
ghost use Rattle.ts_sample.specs.Steps.{Takes};
ghost use Rattle.ts_series.specs.History.{list_of, reach};
ghost use Rattle.ts_series.specs.Seams.{IsSeamed};
ghost use Rattle.ts_rules.specs.Rules.{one_of};

use std::sync::ledger::Ledger;
use ts_sample::{Sample, Steps, Visit};
use ts_series::Series;

// A visitor that passes samples on to another visitor and inserts the row at its time. The row replaces a sample at
// the same time.
#[derive(Drop)]
pub(crate) struct RowMerger<'a, V: Visit> {
    pub(crate) visit: &'a mut V,
    pub(crate) row: Option<Sample>,
}

impl<V: Visit> Visit for RowMerger<'_, V> {
    ghost use Rattle.ts_db.specs.RowMerger.{capacity_beside, with_sample, lowered};

    ghost step = { with_sample V.step };

    ghost room = { λ w. capacity_beside (V.room w.visit.now) w.row };

    fn sample(&mut self, sample: &Sample) {
        let Some(row) = self.row else {
            self.visit.sample(sample);
            return;
        };
        if sample.time < row.time {
            self.visit.sample(sample);
            return;
        }
        self.row = None;
        self.visit.sample(&row);
        if row.time < sample.time {
            self.visit.sample(sample);
        }
    }

    ghost lowers = { lowered V.step V.room V.lowers };
}

impl<V: Visit> RowMerger<'_, V> {
    ghost use Rattle.ts_db.specs.RowMerger.{finished};

    // Passes the row on if no sample came after it.
    pub(crate) fn finish(&mut self)
        requires { (row : Point) → self.old.row ≡ Some row → 1 ≤ V.room self.old.visit.now }
        ensures { self.new ≡ finished V.step self.old }
    {
        if let Some(row) = self.row {
            self.row = None;
            self.visit.sample(&row);
        }
    }
}

// The row, if it is before `t`.
pub(crate) fn row_before(t: u64, row: Option<Sample>) -> Option<Sample>
    ensures { one_of result ≡ at_times (λ u. nat_lt u t) (one_of row) }
{
    let row = row?;
    if row.time < t { Some(row) } else { None }
}

// The row, if it is within `from..=to`.
fn row_within(from: u64, to: u64, row: Option<Sample>) -> Option<Sample>
    ensures { one_of result ≡ between from to (one_of row) }
{
    let row = row?;
    if from <= row.time && row.time <= to {
        Some(row)
    } else {
        None
    }
}

// The first sample of an ascending list after the row is merged in.
pub(crate) fn first_with(row: Option<Sample>, first: Option<Sample>) -> Option<Sample>
    ensures { (ps : List Point) → IsAscending ps → first ≡ first_of ps → result ≡ first_of (put_all (one_of row) ps) }
{
    let Some(row) = row else {
        return first;
    };
    let Some(first) = first else {
        return Some(row);
    };
    if first.time < row.time {
        Some(first)
    } else {
        Some(row)
    }
}

// The last sample of an ascending list after the row is merged in.
pub(crate) fn last_with(row: Option<Sample>, last: Option<Sample>) -> Option<Sample>
    ensures { (ps : List Point) → IsAscending ps → last ≡ last_of ps → result ≡ last_of (put_all (one_of row) ps) }
{
    let Some(row) = row else {
        return last;
    };
    let Some(last) = last else {
        return Some(row);
    };
    if row.time < last.time {
        Some(last)
    } else {
        Some(row)
    }
}

// Passes the samples of a series within `from..=to` to a visitor, merging the row in if there is one.
pub(crate) fn scan_shown<V: Visit, L: Ledger>(
    series: &Series,
    from: u64,
    to: u64,
    row: Option<Sample>,
    visit: &mut V,
    steps: &mut Steps<L>,
)
    requires room { length (between from to (list_of series.now)) + 1 ≤ V.room visit.old }
    ensures visited { visit.new ≡ visited V.step visit.old
        (between from to (put_all (one_of row) (list_of series.now))) }
    ensures steps { Takes steps.old steps.new (length (between from to (list_of series.now)) + 2 * reach series.now) }
    ensures seams { IsSeamed series.now.held.pieces from to steps.old steps.new }
{
    series.known();
    match row_within(from, to, row) {
        None => series.scan(from, to, visit, steps),
        Some(row) => scan_with(series, from, to, row, visit, steps),
    }
}

// Passes the samples of a series within `from..=to` to a visitor, with the row merged in.
fn scan_with<V: Visit, L: Ledger>(
    series: &Series,
    from: u64,
    to: u64,
    row: Sample,
    visit: &mut V,
    steps: &mut Steps<L>,
)
    requires room { length (between from to (list_of series.now)) + 1 ≤ V.room visit.old }
    ensures visited { visit.new ≡ visited V.step visit.old (put row (between from to (list_of series.now))) }
    ensures steps { Takes steps.old steps.new (length (between from to (list_of series.now)) + 2 * reach series.now) }
    ensures seams { IsSeamed series.now.held.pieces from to steps.old steps.new }
{
    let mut among = RowMerger {
        visit,
        row: Some(row),
    };
    scan_merged(series, from, to, &mut among, steps);
}

// Scans a series within `from..=to` with a visitor that merges the row in.
fn scan_merged<V: Visit, L: Ledger>(
    series: &Series,
    from: u64,
    to: u64,
    among: &mut RowMerger<V>,
    steps: &mut Steps<L>,
)
    requires room { length (between from to (list_of series.now)) + 1 ≤ V.room among.old.visit.now }
    ensures same_reference { among.new.visit.ghost_name ≡ among.old.visit.ghost_name }
    ensures visited { (row : Point) → among.old.row ≡ Some row
        → among.new.visit.now ≡ visited V.step among.old.visit.now (put row (between from to (list_of series.now))) }
    ensures steps { Takes steps.old steps.new (length (between from to (list_of series.now)) + 2 * reach series.now) }
    ensures seams { IsSeamed series.now.held.pieces from to steps.old steps.new }
{
    series.known();
    series.scan(from, to, among, steps);
    among.finish();
}
