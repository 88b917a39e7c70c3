// Bounds of values, and the small types of a sample.
ghost use Rattle.std.specs.Prelude.{◌≡◌, ◌<◌, ◌+◌};

use std::alloc::AllocError;
use std::marker::Brand;
use std::sync::ledger::{Blank, Ledger};
use std::test::*;
use ts_sample::{Cell, MAX_TIME, Sample, SampleCollector, Steps, Units, Visit};

const BOUND: i128 = 1_000_000_000_000_000_000_000_000;

#[test]
fn values_are_bounded(rt: HostRuntime) {
    for millionths in [0, 1, -1, BOUND, -BOUND] {
        let value = Units::new(millionths);
        assert!(rt; matches!(value, Some(value) if value.get() == millionths));
    }
    for millionths in [BOUND + 1, -BOUND - 1, i128::MAX, i128::MIN] {
        assert!(rt; Units::new(millionths).is_none());
    }
    assert!(rt; Units::MIN < Units::ZERO && Units::ZERO < Units::MAX);
}

#[test]
fn samples_are_compared_by_their_parts(rt: HostRuntime) {
    let sample = Sample {
        time: MAX_TIME,
        value: Units::MAX,
        made: 7,
    };
    sample.known();
    assert!(rt;
        sample
            == Sample {
                time: MAX_TIME,
                value: Units::MAX,
                made: 7
            }
    );
    assert!(rt;
        sample
            != Sample {
                time: 0,
                value: Units::MAX,
                made: 7
            }
    );
    assert!(rt; Cell::Number(sample.value) != Cell::Nan);
}

// Two ticks, and five steps at once. What is counted exists in proofs alone, so the contract says it.
fn seven_steps<L: Ledger>(steps: &mut Steps<L>)
    ensures { steps.new ≡ steps.old + 7 }
{
    steps.tick();
    steps.tick();
    steps.add(5);
}

fn seven_from_zero<L: Ledger>(blank: Blank)
    requires name { blank.name ≡ L.name }
    requires parts { blank.parts ≡ L.parts }
    requires some { 0 < blank.parts }
{
    let mut steps: Steps<L> = Steps::new(blank);
    seven_steps(&mut steps);
}

#[test]
fn steps_are_counted_without_bytes(rt: HostRuntime) {
    seven_from_zero::<Brand>(Blank::new(1));
    assert!(rt; size_of::<Steps<Brand>>() == 0);
}

#[test]
fn samples_are_gathered_in_their_order(rt: HostRuntime) -> Result<(), AllocError> {
    let first = Sample {
        time: 1,
        value: Units::ZERO,
        made: 0,
    };
    let second = Sample { time: 2, ..first };
    let mut gathered = SampleCollector::with_reserved(rt.alloc(), 2)?;
    gathered.sample(&first);
    gathered.sample(&second);
    assert!(rt; gathered.into_samples().as_slice() == [first, second].as_slice());
    Ok(())
}
