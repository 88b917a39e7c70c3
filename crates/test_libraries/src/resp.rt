// The text of replies, and the order of words.
use std::cmp::Ordering;
use std::collections::BTreeMap;
use std::test::Fail;
use ts_resp::{
    Kind, Out, PAIR_BYTES, Protocol, Reply, Word, close_array, encode, open_array, size_of,
    write_pair,
};
use ts_sample::{Cell, Units};

#[test]
fn text_of_an_array(rt: HostRuntime) -> Result<(), Fail> {
    let alloc = rt.alloc();
    let half = Units::new(500_000).ok_or("out of range")?;
    let mut replies = Vec::new(alloc);
    replies.push(Reply::Int(1000))?;
    replies.push(Reply::Value(Cell::Number(half)))?;
    replies.push(Reply::Nil)?;
    replies.push(Reply::Bulk(Word::from_slice(alloc, b"ab")?))?;
    let reply = Reply::Array(replies);
    let text = b"*4\r\n:1000\r\n+0.5\r\n$-1\r\n$2\r\nab\r\n";
    let mut out = Out::new(alloc)?;
    encode(&reply, &mut out)?;
    assert!(rt; out.bytes() == text.as_slice());
    assert!(rt; size_of(&reply) == Some(text.len()));
    Ok(())
}

#[test]
fn texts_of_lines(rt: HostRuntime) -> Result<(), Fail> {
    let mut out = Out::new(rt.alloc())?;
    assert!(rt; out.spare() >= 128);
    encode(&Reply::Simple("OK"), &mut out)?;
    encode(&Reply::Error("ERR no"), &mut out)?;
    encode(&Reply::Value(Cell::Nan), &mut out)?;
    encode(&Reply::Int(-7), &mut out)?;
    assert!(rt; out.bytes() == b"+OK\r\n-ERR no\r\n+NaN\r\n:-7\r\n".as_slice());
    out.clear();
    assert!(rt; out.bytes() == b"".as_slice());
    Ok(())
}

#[test]
fn faults_in_words(rt: HostRuntime) -> Result<(), Fail> {
    let fault = Protocol {
        kind: Kind::Dollar,
        place: 44,
    };
    assert!(rt; fault.message() == "ERR Protocol error: expected '$'");
    Ok(())
}

#[test]
fn order_of_words(rt: HostRuntime) -> Result<(), Fail> {
    let alloc = rt.alloc();
    let short = Word::from_slice(alloc, b"a")?;
    let long = Word::from_slice(alloc, b"a\x00")?;
    let high = Word::from_slice(alloc, b"\xff")?;
    assert!(rt; short.cmp(&long) == Ordering::Less);
    assert!(rt; high.cmp(&long) == Ordering::Greater);
    let mut names = BTreeMap::new(alloc);
    let _ = names.insert(short.copy()?, 1)?;
    assert!(rt; names.get(&short).copied() == Some(1));
    assert!(rt; names.get(&high).copied() == None);
    Ok(())
}

#[test]
fn texts_of_pairs(rt: HostRuntime) -> Result<(), Fail> {
    let pairs: [(u64, i128, &[u8]); 12] = [
        (0, 0, b"*2\r\n:0\r\n+0\r\n"),
        (9, 1, b"*2\r\n:9\r\n+0.000001\r\n"),
        (10, -1, b"*2\r\n:10\r\n+-0.000001\r\n"),
        (99, 12_500_000, b"*2\r\n:99\r\n+12.5\r\n"),
        (
            100,
            1_000_000_000_000_000_001,
            b"*2\r\n:100\r\n+1000000000000.000001\r\n",
        ),
        (
            12_345,
            999_999_999_999_999_999,
            b"*2\r\n:12345\r\n+999999999999.999999\r\n",
        ),
        (
            1_700_000_000_000,
            -20_250_000,
            b"*2\r\n:1700000000000\r\n+-20.25\r\n",
        ),
        (
            9_007_199_254_740_992,
            9_223_372_036_854_775_807,
            b"*2\r\n:9007199254740992\r\n+9223372036854.775807\r\n",
        ),
        (
            9_999,
            9_223_372_036_854_775_808,
            b"*2\r\n:9999\r\n+9223372036854.775808\r\n",
        ),
        (
            10_000,
            9_223_372_036_854_775_809,
            b"*2\r\n:10000\r\n+9223372036854.775809\r\n",
        ),
        (
            18_446_744_073_709_551_615,
            1_000_000_000_000_000_000_000_000,
            b"*2\r\n:18446744073709551615\r\n+1000000000000000000\r\n",
        ),
        (
            18_446_744_073_709_551_615,
            -999_999_999_999_999_999_999_999,
            b"*2\r\n:18446744073709551615\r\n+-999999999999999999.999999\r\n",
        ),
    ];
    let mut out = Out::new(rt.alloc())?;
    for (time, millionths, want) in pairs {
        let value = Units::new(millionths).ok_or("out of range")?;
        out.clear();
        out.reserve(PAIR_BYTES)?;
        write_pair(time, Cell::Number(value), &mut out);
        assert!(rt; out.bytes() == want);
    }
    Ok(())
}

#[test]
fn pairs_stand_behind_what_was_written(rt: HostRuntime) -> Result<(), Fail> {
    let mut out = Out::new(rt.alloc())?;
    open_array(&mut out);
    write_pair(1_700_000_000_000, Cell::Nan, &mut out);
    out.reserve(PAIR_BYTES)?;
    write_pair(7, Cell::Number(Units::ZERO), &mut out);
    close_array(2, &mut out);
    assert!(rt;
        out.bytes() == b"*2\r\n*2\r\n:1700000000000\r\n+NaN\r\n*2\r\n:7\r\n+0\r\n".as_slice()
    );
    Ok(())
}

#[test]
fn the_room_of_a_huge_reply_goes_back(rt: HostRuntime) -> Result<(), Fail> {
    let mut out = Out::new(rt.alloc())?;
    out.reserve(65_000)?;
    out.give_back();
    assert!(rt; out.spare() >= 65_000);
    out.reserve(100_000)?;
    out.give_back();
    assert!(rt; out.spare() <= 65_536);
    assert!(rt; out.spare() >= 128);
    Ok(())
}
