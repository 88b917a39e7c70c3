// The command line, the lines that the program writes, and the lengths and checksums of generated workloads.
use std::alloc::AllocError;
use std::test::Fail;
use ts_gen::script;
use ts_io::Cause;
use ts_words::{LastCauses, LinkEnd, Mode, Status, host_line, line, link_line, summary};

// The mode that this command line selects. Its arguments are separated by spaces.
fn mode_of_line(rt: &HostRuntime, line: &str) -> Result<Option<Mode>, AllocError> {
    let mut words = Vec::new(rt.alloc());
    for word in line.split(' ') {
        words.push(word.to_string(rt.alloc())?)?;
    }
    Ok(Mode::read(&words))
}

#[test]
fn words_ask_for_a_mode(rt: HostRuntime) -> Result<(), Fail> {
    assert!(rt; mode_of_line(&rt, "pipe")? == Some(Mode::Pipe));
    assert!(rt; mode_of_line(&rt, "mux")? == Some(Mode::Mux));
    assert!(rt; mode_of_line(&rt, "keep x")? == Some(Mode::Keep));
    assert!(rt; mode_of_line(&rt, "keep keep")? == Some(Mode::Keep));
    assert!(rt; mode_of_line(&rt, "fold x")? == Some(Mode::Fold));
    assert!(rt;
        mode_of_line(&rt, "serve localhost:7379 4294967295")? == Some(Mode::Serve(u32::MAX))
    );
    assert!(rt;
        mode_of_line(&rt, "gen 18446744073709551615 1000000")?
            == Some(Mode::Gen(u64::MAX, 1_000_000))
    );
    assert!(rt; mode_of_line(&rt, "gen 007 00000000000000000000")? == Some(Mode::Gen(7, 0)));
    Ok(())
}

#[test]
fn other_words_ask_for_none(rt: HostRuntime) -> Result<(), Fail> {
    assert!(rt; Mode::read(&[]) == None);
    for line in [
        "",
        "PIPE",
        "pipe pipe",
        "muxes",
        "mux 1",
        "keep",
        "keep ",
        "keep -x",
        "keep a b",
        "pipe x",
        "serve x",
        "serve x 0",
        "serve x 4294967296",
        "serve  1",
        "serve -x 1",
        "serve x 1 1",
        "gen 1 1000001",
        "gen -1 1",
        "gen +1 1",
        "gen 18446744073709551616 1",
        "gen 1 000000000000000000001",
    ] {
        assert!(rt; mode_of_line(&rt, line)? == None);
    }
    Ok(())
}

#[test]
fn lines_of_endings(rt: HostRuntime) {
    let mut room = [0; 160];
    assert!(rt; line(Some(Mode::Pipe), Status::Ended, 7, &mut room) == b"".as_slice());
    assert!(rt;
        line(Some(Mode::Pipe), Status::Protocol, 18, &mut room)
            == b"tsd: protocol fault at byte 18\n".as_slice()
    );
    assert!(rt;
        line(None, Status::Usage, 0, &mut room)
            == b"usage: tsd pipe | tsd serve <address> <connections> | tsd gen <seed> <n> | tsd keep <file> | \
                tsd host <address> [<file> [sync]] | tsd fold <file> | tsd mux\n"
                .as_slice()
    );
    assert!(rt;
        line(Some(Mode::Pipe), Status::Truncated, 5, &mut room)
            == b"tsd: input ends inside a request that begins at byte 5\n".as_slice()
    );
    assert!(rt;
        line(Some(Mode::Mux), Status::Truncated, 5, &mut room)
            == b"tsd: capture ends inside a frame that begins at byte 5\n".as_slice()
    );
    assert!(rt;
        line(Some(Mode::Keep), Status::Truncated, 5, &mut room)
            == b"tsd: input ends inside a request that begins at byte 5\n".as_slice()
    );
    assert!(rt;
        line(Some(Mode::Keep), Status::JournalFault, 7, &mut room)
            == b"tsd: journal fault\n".as_slice()
    );
    assert!(rt;
        line(Some(Mode::Keep), Status::JournalBroken, 203, &mut room)
            == b"tsd: journal broken at byte 203\n".as_slice()
    );
    assert!(rt;
        line(
            Some(Mode::Mux),
            Status::CaptureBroken,
            18446744073709551615,
            &mut room
        ) == b"tsd: capture broken at byte 18446744073709551615\n".as_slice()
    );
    assert!(rt; Status::Budget.code() == 8);
    assert!(rt; Status::JournalFault.code() == 9);
    assert!(rt; Status::JournalBroken.code() == 10);
    assert!(rt; Status::CaptureBroken.code() == 11);
}

#[test]
fn a_host_tells_the_cause_of_a_fault(rt: HostRuntime) {
    let mut room = [0; 160];
    let causes = LastCauses {
        hub: Some(Cause::AddressInUse),
        log: Some(Cause::NotRegularFile),
    };
    assert!(rt;
        host_line(Status::AcceptFault, 0, causes, &mut room)
            == b"tsd: accept fault: address in use\n".as_slice()
    );
    assert!(rt;
        host_line(Status::JournalFault, 0, causes, &mut room)
            == b"tsd: journal fault: not a regular file\n".as_slice()
    );
    assert!(rt;
        host_line(Status::JournalBroken, 203, causes, &mut room)
            == b"tsd: journal broken at byte 203\n".as_slice()
    );
    let unknown = LastCauses {
        hub: None,
        log: None,
    };
    assert!(rt;
        host_line(Status::AcceptFault, 0, unknown, &mut room) == b"tsd: accept fault\n".as_slice()
    );
}

#[test]
fn lines_of_connections_and_workloads(rt: HostRuntime) {
    let mut room = [0; 80];
    assert!(rt;
        link_line(2, 10, LinkEnd::ReadFault, &mut room)
            == b"link 2 executed 10 read-fault\n".as_slice()
    );
    let mut room = [0; 192];
    assert!(rt;
        summary(&[21, 1674, 3, 0, u64::MAX, 5], &mut room)
            == b"requests 21\nin 1674\nout 3\nerrors 0\nkeys 18446744073709551615\nsamples 5\n".as_slice()
    );
}

// A checksum that depends on the order: each byte counts 31 times as much as the next, modulo 2^32.
fn sum_of(bytes: &[u8]) -> u32 {
    let mut sum: u32 = 0;
    for byte in bytes {
        sum = sum.wrapping_mul(31).wrapping_add(u32::from(*byte));
    }
    sum
}

#[test]
fn workloads_have_these_lengths_and_sums(rt: HostRuntime) -> Result<(), Fail> {
    for (seed, n, length, sum) in [
        (7, 0, 1674, 1336507335),
        (7, 1, 1749, 2643214372),
        (1, 1, 1750, 2561800523),
        (0, 40, 4627, 4075026229),
        (u64::MAX, 100, 9195, 3791691621),
        (7, 1000, 77165, 1654673275),
    ] {
        let bytes = script(rt.alloc(), seed, n)?;
        assert!(rt; bytes.len() == length);
        assert!(rt; sum_of(&bytes) == sum);
    }
    Ok(())
}

#[test]
fn a_seed_draws_a_deletion(rt: HostRuntime) -> Result<(), Fail> {
    let bytes = script(rt.alloc(), 10, 1)?;
    let change = b"*4\r\n$6\r\nTS.DEL\r\n$5\r\nraw:1\r\n$1\r\n0\r\n$4\r\n4000\r\n".as_slice();
    assert!(rt; bytes.len() == 1674 + change.len());
    assert!(rt; bytes[1674 - 66..].starts_with(change));
    Ok(())
}
