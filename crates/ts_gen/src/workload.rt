// The changes of a workload, drawn one after another from its seed.
ghost use Rattle.std.specs.Prelude.{◌≡◌, ◌<◌, ◌≤◌, ◌%◌, ◌^◌, ◌++◌, pos, ◌-ℤ◌, OnOk, IfOk};
ghost use Rattle.std.specs.Fmt.{signed_decimal};
ghost use Rattle.ts_spec.specs.Encoded.{encoded_word, encoded_request, encoded};
ghost use Rattle.ts_gen.specs.Workload as workload;
ghost use Rattle.ts_gen.specs.Workload.{add, change, delete, next, second_before, value, changes, final_query};

use crate::keys::{UNITS, key, write_set_up};
use crate::words::{write_request_number, write_request_start, write_request_word};
use itoa::Buffer;
use std::alloc::{AllocError, Global};

// The generator's next number: a step of Knuth's 64-bit linear congruential generator (MMIX).
pub(crate) fn next_generator_state(number: u64) -> u64
    ensures { result ≡ next number }
{
    number
        .wrapping_mul(6_364_136_223_846_793_005)
        .wrapping_add(1_442_695_040_888_963_407)
}

// Writes the k-th change, which depends on the random bits `r`.
pub(crate) fn write_change_request(bytes: &mut Vec<u8>, k: u32, r: u64) -> Result<(), AllocError>
    ensures { OnOk result (bytes.new.items ≡ bytes.old.items ++ encoded_request (change k r)) }
{
    if r % 16 == 1 {
        write_deletion(bytes, k)
    } else {
        write_addition(bytes, k, r)
    }
}

// Writes a deletion of five seconds.
fn write_deletion(bytes: &mut Vec<u8>, k: u32) -> Result<(), AllocError>
    ensures { OnOk result (bytes.new.items ≡ bytes.old.items ++ encoded_request (delete k)) }
{
    let first = second_before(32, k);
    write_request_start(bytes, 4)?;
    write_request_word(bytes, b"TS.DEL")?;
    write_request_word(bytes, &raw(k))?;
    write_request_number(bytes, first)?;
    write_request_number(bytes, first + 4000)
}

// Writes a TS.ADD.
fn write_addition(bytes: &mut Vec<u8>, k: u32, r: u64) -> Result<(), AllocError>
    ensures { OnOk result (bytes.new.items ≡ bytes.old.items ++ encoded_request (add k r)) }
{
    write_request_start(bytes, 6)?;
    write_request_word(bytes, b"TS.ADD")?;
    write_request_word(bytes, &raw(k))?;
    write_request_number(bytes, time(k, r))?;
    write_request_value(bytes, r)?;
    write_request_word(bytes, b"ON_DUPLICATE")?;
    write_request_word(bytes, b"LAST")
}

// The key of the k-th change.
fn raw(k: u32) -> [u8; 5]
    ensures { result ≡ workload.raw (k % 4) }
{
    key(b"raw", (k % u32::from(UNITS)) as u8)
}

// The time of the k-th sample, in milliseconds.
fn time(k: u32, r: u64) -> u64
    ensures { result ≡ workload.time k r }
{
    if r % 16 == 0 {
        second_before((r / 16 % 64) as u32, k)
    } else {
        second_before(0, k)
    }
}

// The time `back` seconds before second `k`, in milliseconds, at least 0.
fn second_before(back: u32, k: u32) -> u64
    ensures value { result ≡ workload.second_before back k }
    ensures early { result < 2 ^ 42 }
{
    1000 * u64::from(k - k.min(back))
}

// Writes a value from -1000 to 1000.
fn write_request_value(bytes: &mut Vec<u8>, r: u64) -> Result<(), AllocError>
    ensures { OnOk result (bytes.new.items ≡ bytes.old.items ++ encoded_word (value r)) }
{
    let number = (r % 2001) as i64 - 1000;
    write_request_word(bytes, Buffer::new().format(number).as_bytes())
}

// The most bytes of the requests that every workload has, and of one change.
const MOST_FIXED: usize = 2048;

const MOST_CHANGE: usize = 84;

/// Generates the bytes of the workload of this seed, with `n` changes, at most 1000000.
pub fn script(alloc: Global, seed: u64, n: u32) -> Result<Vec<u8>, AllocError>
    requires { n ≤ 1000000 }
    ensures { IfOk result (λ bytes. bytes.items ≡ workload.script seed n) }
{
    let mut bytes = Vec::with_capacity(alloc, MOST_FIXED + MOST_CHANGE * n as usize)?;
    write_set_up(&mut bytes)?;
    write_change_requests(&mut bytes, seed, n)?;
    write_final_query(&mut bytes)?;
    Ok(bytes)
}

// Writes the first n changes.
fn write_change_requests(bytes: &mut Vec<u8>, seed: u64, n: u32) -> Result<(), AllocError>
    requires { n ≤ 1000000 }
    ensures { OnOk result (bytes.new.items ≡ bytes.old.items ++ encoded (changes seed n)) }
{
    let mut generator_state = seed;
    for k in 0..n {
        generator_state = next_generator_state(generator_state);
        write_change_request(bytes, k + 1, generator_state >> 33)?;
    }
    Ok(())
}

// Writes the query over the destinations of all rules.
fn write_final_query(bytes: &mut Vec<u8>) -> Result<(), AllocError>
    ensures { OnOk result (bytes.new.items ≡ bytes.old.items ++ encoded_request final_query) }
{
    write_request_start(bytes, 5)?;
    write_request_word(bytes, b"TS.MRANGE")?;
    write_request_word(bytes, b"-")?;
    write_request_word(bytes, b"+")?;
    write_request_word(bytes, b"FILTER")?;
    write_request_word(bytes, b"kind=(avg,max)")
}
