// Aggregators: their names, and their results over short lists.
ghost use Rattle.std.specs.Prelude.{◌≤◌, length};

use std::test::*;
use ts_agg::{AggFault, Aggregator, Counted, Running, Tally, name, read_aggregator};
use ts_sample::{Sample, Units, Visit};

const ALL: [Aggregator; 8] = [
    Aggregator::Avg,
    Aggregator::Sum,
    Aggregator::Min,
    Aggregator::Max,
    Aggregator::Range,
    Aggregator::Count,
    Aggregator::First,
    Aggregator::Last,
];

#[test]
fn names(rt: HostRuntime) {
    for (agg, lower) in ALL.iter().zip([
        "avg", "sum", "min", "max", "range", "count", "first", "last",
    ]) {
        assert!(rt; name(*agg) == lower);
    }
    let read: [(&[u8], Result<Aggregator, AggFault>); 6] = [
        (b"AVG", Ok(Aggregator::Avg)),
        (b"Range", Ok(Aggregator::Range)),
        (b"twa", Err(AggFault::NotInProfile)),
        (b"STD.p", Err(AggFault::NotInProfile)),
        (b"median", Err(AggFault::Unknown)),
        (b"", Err(AggFault::Unknown)),
    ];
    for (word, want) in read {
        assert!(rt; read_aggregator(word) == want);
    }
}

// The results of all aggregators over these values, in millionths.
fn results(values: &[i128]) -> [Option<i128>; 8]
    requires { length values.now ≤ 100 }
{
    let mut running = Running::new();
    for millionths in values {
        running.push(&Sample {
            time: 0,
            value: ts_decimal::clamp(*millionths),
            made: 0,
        });
    }
    ALL.map(|agg| running.result(agg).map(Units::get))
}

#[test]
fn lists(rt: HostRuntime) {
    const MOST: i128 = 1_000_000_000_000_000_000_000_000;
    assert!(rt; results(&[]) == [None; 8]);
    assert!(rt; results(&[5, -2, 4]) == [2, 7, -2, 5, 7, 3_000_000, 5, 4].map(Some));
    assert!(rt;
        results(&[1_000_000, 0, 0])
            == [
                333_333, 1_000_000, 0, 1_000_000, 1_000_000, 3_000_000, 1_000_000, 0
            ]
            .map(Some)
    );
    assert!(rt; results(&[-1, 0]) == [-1, -1, -1, 0, 1, 2_000_000, -1, 0].map(Some));
    assert!(rt;
        results(&[MOST, MOST, -MOST])
            == [
                333_333_333_333_333_333_333_333,
                MOST,
                -MOST,
                MOST,
                MOST,
                3_000_000,
                MOST,
                -MOST
            ]
            .map(Some)
    );
}

fn sample(millionths: i128) -> Sample {
    Sample {
        time: 0,
        value: ts_decimal::clamp(millionths),
        made: 0,
    }
}

// The results of all aggregators over three values, computed by tallies.
fn tallied(values: [i128; 3]) -> [i128; 8] {
    let [first, second, third] = values;
    ALL.map(|agg| {
        let mut tally = Tally::of(agg, &sample(first));
        tally.push(&sample(second));
        tally.push(&sample(third));
        tally.value().get()
    })
}

#[test]
fn tallies(rt: HostRuntime) {
    const MOST: i128 = 1_000_000_000_000_000_000_000_000;
    let alone = ALL.map(|agg| Tally::of(agg, &sample(-7)).value().get());
    assert!(rt; alone == [-7, -7, -7, -7, 0, 1_000_000, -7, -7]);
    assert!(rt; tallied([5, -2, 4]) == [2, 7, -2, 5, 7, 3_000_000, 5, 4]);
    assert!(rt; tallied([-1, 0, -1]) == [-1, -2, -1, 0, 1, 3_000_000, -1, -1]);
    assert!(rt; tallied([2, 9, 6]) == [6, 17, 2, 9, 7, 3_000_000, 2, 6]);
    assert!(rt;
        tallied([-MOST, -MOST, MOST])
            == [
                -333_333_333_333_333_333_333_333,
                -MOST,
                -MOST,
                MOST,
                MOST,
                3_000_000,
                -MOST,
                MOST
            ]
    );
}

#[test]
fn counted(rt: HostRuntime) {
    let value = ts_decimal::clamp(5);
    let mut since = Counted::new(2);
    since.sample(&Sample {
        time: 0,
        value,
        made: 2,
    });
    let mut later = Counted::new(3);
    later.sample(&Sample {
        time: 0,
        value,
        made: 2,
    });
    assert!(rt; since.running().result(Aggregator::Sum) == Some(value));
    assert!(rt; later.running().result(Aggregator::Sum) == None);
}
