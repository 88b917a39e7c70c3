// Time grids at both ends of time.
use std::test::*;
use ts_bucket::{Grid, Stamp};
use ts_sample::MAX_TIME;

// The bucket of a time: its start and last time, the start of the next one, and its timestamps.
#[derive(Clone, Copy, Debug, PartialEq)]
struct BucketFacts {
    start: u64,
    last: u64,
    next: Option<u64>,
    low: u64,
    high: u64,
    mid: u64,
}

fn bucket(align: u64, duration: u64, t: u64) -> Option<BucketFacts> {
    let grid = Grid::new(align, duration)?;
    if t > MAX_TIME || grid.align() != align || grid.duration() != duration {
        return None;
    }
    Some(BucketFacts {
        start: grid.start_of(t),
        last: grid.last_of(t),
        next: grid.next_of(t),
        low: grid.stamp(t, Stamp::Low),
        high: grid.stamp(t, Stamp::High),
        mid: grid.stamp(t, Stamp::Mid),
    })
}

fn wanted(start: u64, last: u64, next: Option<u64>, high: u64, mid: u64) -> Option<BucketFacts> {
    let low = start;
    Some(BucketFacts {
        start,
        last,
        next,
        low,
        high,
        mid,
    })
}

#[test]
fn buckets(rt: HostRuntime) {
    let cases = [
        (3, 10, 12, wanted(3, 12, Some(13), 13, 8)),
        (5, 10, 3, wanted(0, 4, Some(5), 5, 0)),
        (
            0,
            10,
            MAX_TIME,
            wanted(
                9_223_372_036_854_775_800,
                MAX_TIME,
                None,
                MAX_TIME,
                9_223_372_036_854_775_805,
            ),
        ),
        (MAX_TIME, 1, 0, wanted(0, 0, Some(1), 1, 0)),
        (
            MAX_TIME,
            1,
            MAX_TIME,
            wanted(MAX_TIME, MAX_TIME, None, MAX_TIME, MAX_TIME),
        ),
        (
            MAX_TIME,
            100_000_000_000_000,
            0,
            wanted(
                0,
                72_036_854_775_806,
                Some(72_036_854_775_807),
                72_036_854_775_807,
                22_036_854_775_807,
            ),
        ),
        (0, 0, 0, None),
        (0, 100_000_000_000_001, 0, None),
        (MAX_TIME + 1, 1, 0, None),
    ];
    for (align, duration, t, want) in cases {
        assert!(rt; bucket(align, duration, t) == want);
    }
}
