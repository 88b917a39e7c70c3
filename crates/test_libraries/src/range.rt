// Range queries over one series.
use crate::range::question::{ask, buckets, query, row, row_of_cell, sample, units};
use std::test::*;
use ts_agg::Aggregator;
use ts_bucket::Stamp;
use ts_range::{Asked, Filters, RangeFault, RowList, RowScan, answer};
use ts_sample::MAX_TIME;

mod question;

#[test]
fn samples(rt: HostRuntime) -> Result<(), Fail> {
    let alloc = rt.alloc();
    let mut asked = query(None, None, false);
    asked.times = Some(vec![in alloc; 3, 1]?);
    asked.values = Some((units(2), units(9)));
    let three = vec![in alloc; sample(1, 1), sample(2, 5), sample(3, 9)]?;
    assert!(rt; ask(&asked, three, 1)?.as_slice() == [row(3, 9)].as_slice());
    let three = vec![in alloc; sample(1, 1), sample(2, 5), sample(3, 9)]?;
    let asked = query(Some(2), None, true);
    assert!(rt; ask(&asked, three, 1)?.as_slice() == [row(3, 9), row(2, 5)].as_slice());
    Ok(())
}

#[test]
fn parts_of_intervals(rt: HostRuntime) -> Result<(), Fail> {
    let alloc = rt.alloc();
    let mut asked = query(None, None, false);
    asked.times = Some(vec![in alloc; 7, 3, 5]?);
    let filters = Filters::of(&asked)?;
    let walk = RowScan::new(&filters, None, RowList::with_reserved(alloc, 0)?);
    for (from, to, part) in [
        (0u64, 9u64, Some((3u64, 7u64))),
        (3, 5, Some((3, 5))),
        (4, 6, Some((5, 5))),
        (4, 4, None),
        (0, 2, None),
        (8, 9, None),
        (7, 3, None),
    ] {
        assert!(rt; walk.part_to_scan(from, to) == part);
    }
    Ok(())
}

#[test]
fn stamps(rt: HostRuntime) -> Result<(), Fail> {
    let alloc = rt.alloc();
    for (stamp, first, second) in [
        (Stamp::Low, 0u32, 5u32),
        (Stamp::Mid, 0, 10),
        (Stamp::High, 5, 15),
    ] {
        let asked = query(None, buckets(Aggregator::Sum, 5, stamp, false), false);
        let two = vec![in alloc; sample(3, 1), sample(5, 2)]?;
        let want = [row(u64::from(first), 1), row(u64::from(second), 2)];
        assert!(rt; ask(&asked, two, 0)?.as_slice() == want.as_slice());
    }
    for (stamp, first, second) in [
        (Stamp::Low, 3u32, 13u32),
        (Stamp::Mid, 8, 18),
        (Stamp::High, 13, 23),
    ] {
        let asked = query(None, buckets(Aggregator::Count, 3, stamp, false), false);
        let three = vec![in alloc; sample(3, 1), sample(12, 1), sample(14, 1)]?;
        let want = [
            row(u64::from(first), 2_000_000),
            row(u64::from(second), 1_000_000),
        ];
        assert!(rt; ask(&asked, three, 0)?.as_slice() == want.as_slice());
    }
    let asked = query(
        Some(1),
        buckets(Aggregator::Sum, 0, Stamp::High, false),
        true,
    );
    let far = vec![in alloc; sample(1, 2), sample(MAX_TIME, 4)]?;
    assert!(rt; ask(&asked, far, 0)?.as_slice() == [row(MAX_TIME, 4)].as_slice());
    Ok(())
}

#[test]
fn later_buckets(rt: HostRuntime) -> Result<(), Fail> {
    let alloc = rt.alloc();
    let four = vec![in alloc; sample(1, 1), sample(9, 1), sample(10, 1), sample(35, 1)]?;
    let asked = query(
        None,
        buckets(Aggregator::Count, 0, Stamp::Low, false),
        false,
    );
    let want = [row(0, 2_000_000), row(10, 1_000_000), row(30, 1_000_000)];
    assert!(rt; ask(&asked, four, 0)?.as_slice() == want.as_slice());
    let four = vec![in alloc; sample(1, 1), sample(9, 1), sample(10, 1), sample(35, 1)]?;
    let asked = query(
        Some(2),
        buckets(Aggregator::Count, 0, Stamp::Low, false),
        true,
    );
    let want = [row(30, 1_000_000), row(10, 1_000_000)];
    assert!(rt; ask(&asked, four, 0)?.as_slice() == want.as_slice());
    Ok(())
}

#[test]
fn empty_buckets(rt: HostRuntime) -> Result<(), Fail> {
    let alloc = rt.alloc();
    for (agg, empty) in [
        (Aggregator::Sum, Some(0)),
        (Aggregator::Last, Some(2)),
        (Aggregator::Min, None),
    ] {
        let asked = query(None, buckets(agg, 0, Stamp::Low, true), false);
        let two = vec![in alloc; sample(1, 2), sample(35, 4)]?;
        let want = [
            row(0, 2),
            row_of_cell(10, empty),
            row_of_cell(20, empty),
            row(30, 4),
        ];
        assert!(rt; ask(&asked, two, 4)?.as_slice() == want.as_slice());
    }
    let two = vec![in alloc; sample(1, 2), sample(35, 4)]?;
    let asked = query(None, buckets(Aggregator::Sum, 0, Stamp::Low, true), false);
    assert!(rt; matches!(ask(&asked, two, 3), Err(RangeFault::EmptyRows)));
    let two = vec![in alloc; sample(1, 2), sample(35, 4)]?;
    let asked = query(
        Some(3),
        buckets(Aggregator::Sum, 0, Stamp::Low, true),
        false,
    );
    let want = [row(0, 2), row(10, 0), row(20, 0)];
    assert!(rt; ask(&asked, two, 3)?.as_slice() == want.as_slice());
    Ok(())
}

#[test]
fn samples_before_empty_buckets(rt: HostRuntime) -> Result<(), Fail> {
    let alloc = rt.alloc();
    let mut asked = query(None, buckets(Aggregator::Last, 0, Stamp::Low, true), true);
    asked.values = Some((units(3), units(9)));
    let two = vec![in alloc; sample(1, 2), sample(35, 4)]?;
    let want = [row(30, 4), row(20, 2), row(10, 2), row_of_cell(0, None)];
    assert!(rt; ask(&asked, two, 4)?.as_slice() == want.as_slice());
    let asked = query(
        Some(2),
        buckets(Aggregator::Last, 0, Stamp::Low, true),
        true,
    );
    let far = vec![in alloc; sample(1, 2), sample(MAX_TIME, 4)]?;
    let want = [
        row(9_223_372_036_854_775_800, 4),
        row(9_223_372_036_854_775_790, 2),
    ];
    assert!(rt; ask(&asked, far, 2)?.as_slice() == want.as_slice());
    let around = Asked {
        rows: Vec::new(alloc),
        prior: Some(sample(11, 3)),
        ahead: Some(sample(1, 2)),
        ends: Some((1, 35)),
    };
    let mut asked = query(None, buckets(Aggregator::Last, 0, Stamp::Low, true), false);
    asked.from = 12;
    asked.to = 34;
    let rows = answer(alloc, &asked, &around, 3)?;
    assert!(rt; rows.as_slice() == [row(10, 2), row(20, 3), row(30, 3)].as_slice());
    Ok(())
}
