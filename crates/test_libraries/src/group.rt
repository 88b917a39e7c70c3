// Series in groups: the reply, and the text of a group whose rows come one by one.
use std::alloc::{AllocError, Global};
use std::test::*;
use ts_agg::{Reducer, Running};
use ts_command::GroupBy;
use ts_group::{Reduction, encode_groups, group};
use ts_labels::{Labels, Show};
use ts_multi::Member;
use ts_range::{FallibleRowSink, Row, RowSink};
use ts_resp::{Out, Reply, Word, encode};
use ts_sample::{Cell, Units};

fn word(alloc: Global, text: &str) -> Result<Word, AllocError> {
    Word::from_slice(alloc, text.as_bytes())
}

fn text(alloc: Global, reply: &Reply) -> Result<Out, AllocError> {
    let mut out = Out::new(alloc)?;
    encode(reply, &mut out)?;
    Ok(out)
}

// A row with this value, which is small.
fn row(time: u32, value: u8) -> Row {
    let value = Units::new(i128::from(value) * 1_000_000).unwrap_or(Units::ZERO);
    Row {
        time: u64::from(time),
        value: Cell::Number(value),
    }
}

fn member(alloc: Global, key: &str, labels: Labels, rows: Vec<Row>) -> Result<Member, AllocError> {
    let key = word(alloc, key)?;
    Ok(Member { key, labels, rows })
}

// The labels kind=s and area=value.
fn in_area(alloc: Global, value: &str) -> Result<Labels, AllocError> {
    let mut labels = Labels::new(alloc);
    labels.set(word(alloc, "kind")?, word(alloc, "s")?)?;
    labels.set(word(alloc, "area")?, word(alloc, value)?)?;
    Ok(labels)
}

// Two series of area x, one of area y, and one without an area.
fn members(alloc: Global) -> Result<Vec<Member>, AllocError> {
    let one = vec![in alloc; row(1, 2), row(5, 4)]?;
    let one = member(alloc, "m1", in_area(alloc, "x")?, one)?;
    let two = vec![in alloc; row(1, 5)]?;
    let two = member(alloc, "m2", in_area(alloc, "x")?, two)?;
    let three = vec![in alloc; row(1, 9)]?;
    let three = member(alloc, "m3", in_area(alloc, "y")?, three)?;
    let four = vec![in alloc; row(1, 1)]?;
    let four = member(alloc, "m4", Labels::new(alloc), four)?;
    Ok(vec![in alloc; one, two, three, four]?)
}

fn by_area(alloc: Global, reducer: Reducer) -> Result<GroupBy, AllocError> {
    let label = word(alloc, "area")?;
    Ok(GroupBy { label, reducer })
}

#[test]
fn greatest_values_with_labels(rt: HostRuntime) -> Result<(), AllocError> {
    let alloc = rt.alloc();
    let members = members(alloc)?;
    let by = by_area(alloc, Reducer::Max)?;
    let reply = group(alloc, &members, &by, &Show::All, None, false)?;
    let wanted = b"*2\r\n\
        *3\r\n$6\r\narea=x\r\n*3\r\n*2\r\n$4\r\narea\r\n$1\r\nx\r\n\
        *2\r\n$11\r\n__reducer__\r\n$3\r\nmax\r\n*2\r\n$10\r\n__source__\r\n$5\r\nm1,m2\r\n\
        *2\r\n*2\r\n:1\r\n+5\r\n*2\r\n:5\r\n+4\r\n\
        *3\r\n$6\r\narea=y\r\n*3\r\n*2\r\n$4\r\narea\r\n$1\r\ny\r\n\
        *2\r\n$11\r\n__reducer__\r\n$3\r\nmax\r\n*2\r\n$10\r\n__source__\r\n$2\r\nm3\r\n\
        *1\r\n*2\r\n:1\r\n+9\r\n";
    assert!(rt; text(alloc, &reply)?.bytes() == wanted.as_slice());
    let mut out = Out::new(alloc)?;
    encode_groups(alloc, &members, &by, &Show::All, None, false, &mut out)?;
    assert!(rt; out.bytes() == wanted.as_slice());
    Ok(())
}

#[test]
fn first_means(rt: HostRuntime) -> Result<(), AllocError> {
    let alloc = rt.alloc();
    let members = members(alloc)?;
    let by = by_area(alloc, Reducer::Avg)?;
    let reply = group(alloc, &members, &by, &Show::Nothing, Some(1), false)?;
    let wanted = b"*2\r\n\
        *3\r\n$6\r\narea=x\r\n*0\r\n*1\r\n*2\r\n:1\r\n+3.5\r\n\
        *3\r\n$6\r\narea=y\r\n*0\r\n*1\r\n*2\r\n:1\r\n+9\r\n";
    assert!(rt; text(alloc, &reply)?.bytes() == wanted.as_slice());
    Ok(())
}

#[test]
fn a_row_is_lost(rt: HostRuntime) -> Result<(), AllocError> {
    let mut reduction = Reduction::new(rt.alloc());
    reduction.row(row(3, 7));
    assert!(rt; !reduction.is_full());
    reduction.lose();
    assert!(rt; reduction.is_lost());
    assert!(rt; reduction.is_full());
    assert!(rt; Running::new().has_capacity());
    Ok(())
}
