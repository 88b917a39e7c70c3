// Decimal texts and their values, by tables.
use std::test::*;
use ts_decimal::{ValueFault, clamp, div_round, parse, print};
use ts_sample::Units;

const BOUND: i128 = 1_000_000_000_000_000_000_000_000;

/// The millionths of the value that a text writes.
fn millionths(text: &[u8]) -> Result<i128, ValueFault> {
    match parse(text) {
        Ok(value) => Ok(value.get()),
        Err(fault) => Err(fault),
    }
}

#[test]
fn texts_are_read(rt: HostRuntime) {
    let texts: [(&[u8], i128); 27] = [
        (b"20.5", 20_500_000),
        (b"-3", -3_000_000),
        (b"1013.25", 1_013_250_000),
        (b".5", 500_000),
        (b"5.", 5_000_000),
        (b"+.5E+1", 5_000_000),
        (b"0.0000005", 1),
        (b"-0.0000005", -1),
        (b"0.00000049", 0),
        (b"-0.0000001", 0),
        (b"-0.000001", -1),
        (b"15e-7", 2),
        (b"25e-7", 3),
        (b"-25E-7", -3),
        (b"24999e-10", 2),
        (b"0.00000045e1", 5),
        (b"1e-999", 0),
        (b"0e999", 0),
        (b"1e18", BOUND),
        (b"-1e18", -BOUND),
        (b"1000000000000000000.0000004", BOUND),
        (b"-1000000000000000000.0000004", -BOUND),
        (b"0.000000000000000001e+36", BOUND),
        (b"999999999999999999.9999995", BOUND),
        (b"12345678901234567890123456789012345e-34", 1_234_568),
        (
            b"0.00000049999999999999999999999999999999999999999999999999999999",
            0,
        ),
        (
            b"0000000000000000000000000000000000000000000000000000000000000007",
            7_000_000,
        ),
    ];
    for (text, want) in texts {
        assert!(rt; millionths(text) == Ok(want));
    }
}

#[test]
fn texts_are_refused(rt: HostRuntime) {
    let no_numbers: [&[u8]; 16] = [
        b"",
        b".",
        b"+",
        b"-.",
        b"e5",
        b".e5",
        b"1e",
        b"1e+",
        b"1e1000",
        b"1e0001",
        b"1e1.0",
        b"1.2.3",
        b"--1",
        b" 1",
        b"1x",
        b"00000000000000000000000000000000000000000000000000000000000000007",
    ];
    for text in no_numbers {
        assert!(rt; millionths(text) == Err(ValueFault::NotANumber));
    }
    let out_of_range: [&[u8]; 6] = [
        b"1000000000000000000.0000005",
        b"-1000000000000000000.0000005",
        b"1000000000000000000.000001",
        b"1e19",
        b"1e999",
        b"1000000000000000000000000000000000000000000000000000000000000000",
    ];
    for text in out_of_range {
        assert!(rt; millionths(text) == Err(ValueFault::OutOfRange));
    }
}

#[test]
fn values_are_printed(rt: HostRuntime) {
    let texts: [(i128, &[u8]); 24] = [
        (0, b"0"),
        (1, b"0.000001"),
        (-1, b"-0.000001"),
        (10, b"0.00001"),
        (120, b"0.00012"),
        (1_000, b"0.001"),
        (10_203, b"0.010203"),
        (100_000, b"0.1"),
        (-500_010, b"-0.50001"),
        (999_999, b"0.999999"),
        (9_090_000, b"9.09"),
        (12_500_000, b"12.5"),
        (20_500_000, b"20.5"),
        (-3_000_000, b"-3"),
        (100_123_400, b"100.1234"),
        (1_013_250_000, b"1013.25"),
        (9_223_372_036_854_775_807, b"9223372036854.775807"),
        (-9_223_372_036_854_775_809, b"-9223372036854.775809"),
        (18_446_744_073_709_551_615, b"18446744073709.551615"),
        (18_446_744_073_709_551_616, b"18446744073709.551616"),
        (-18_446_744_073_709_551_617, b"-18446744073709.551617"),
        (BOUND - 1, b"999999999999999999.999999"),
        (BOUND, b"1000000000000000000"),
        (-BOUND, b"-1000000000000000000"),
    ];
    for (number, want) in texts {
        let mut room = [0; 32];
        assert!(rt; print(clamp(number), &mut room) == want);
    }
}

#[test]
fn quotients_are_rounded(rt: HostRuntime) {
    let quotients = [
        (5, 2, 3),
        (-5, 2, -3),
        (4, 3, 1),
        (-5, 3, -2),
        (-1, 3, 0),
        (0, 7, 0),
        (i128::MIN, 1, i128::MIN),
    ];
    for (sum, count, want) in quotients {
        assert!(rt; div_round(sum, count) == want);
    }
    assert!(rt; clamp(BOUND + 1) == Units::MAX);
    assert!(rt; clamp(-BOUND - 1) == Units::MIN);
    assert!(rt; clamp(-7).get() == -7);
}
