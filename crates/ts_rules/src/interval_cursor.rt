// A cursor over the samples of a series in an interval.
ghost use Rattle.std.specs.Prelude.{◌≡◌, ◌+◌, drop};
ghost use Rattle.ts_spec.specs.Sample.{IsAscending, between, first_of};
ghost use Rattle.ts_sample.specs.Steps.{Takes};
ghost use Rattle.ts_series.specs.History.{list_of, reach};
ghost use Rattle.ts_rules.specs.IntervalReading.{first_up_to};

use std::marker::Model;
use std::sync::ledger::Ledger;
use ts_sample::{Sample, Steps};
use ts_series::{Cursor, Series};

// The remaining samples.
#[derive(Drop)]
pub(crate) struct IntervalCursor<'a> {
    head: Option<Sample>,
    // The samples after the head, including those after the interval.
    rest: Cursor<'a>,
    to: u64,
}

impl<'a> Model for IntervalCursor<'a> {
    ghost use Rattle.std.specs.Prelude.{List};
    ghost use Rattle.ts_spec.specs.Sample.{Point, IsAscending};
    ghost use Rattle.ts_rules.specs.IntervalReading.{remaining_up_to};

    ghost Value = { List Point };

    ghost view = { λ w. remaining_up_to w.to w.head w.rest };

    ghost invariant = { λ w. IsAscending w.rest };
}

impl<'a> IntervalCursor<'a> {
    // The samples from `from` to `to`, both inclusive.
    pub(crate) fn new<L: Ledger>(
        series: &'a Series,
        from: u64,
        to: u64,
        steps: &mut Steps<L>,
    ) -> IntervalCursor<'a>
        ensures left { result ≡ between from to (list_of series.now) }
        ensures steps { Takes steps.old steps.new (reach series.now + 1) }
    {
        series.known();
        let mut rest = series.read_from(from, steps);
        let head = next_upto(&mut rest, to, steps);
        IntervalCursor { head, rest, to }
    }

    // The next sample.
    pub(crate) fn head(&self) -> Option<Sample>
        ensures { result ≡ first_of self.now }
    {
        self.head
    }

    // Moves to the next sample.
    pub(crate) fn advance<L: Ledger>(&mut self, steps: &mut Steps<L>)
        ensures left { self.new ≡ drop 1 self.old }
        ensures steps { Takes steps.old steps.new 1 }
    {
        if self.head.is_none() {
            return;
        }
        self.head = next_upto(&mut self.rest, self.to, steps);
    }
}

// The next sample, unless it is after `to`.
fn next_upto<L: Ledger>(rest: &mut Cursor<'_>, to: u64, steps: &mut Steps<L>) -> Option<Sample>
    ensures next { result ≡ first_up_to to rest.old }
    ensures left { rest.new ≡ drop 1 rest.old }
    ensures steps { Takes steps.old steps.new 1 }
{
    let next = rest.next(steps)?;
    if next.time <= to { Some(next) } else { None }
}
