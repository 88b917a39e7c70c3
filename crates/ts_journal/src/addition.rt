// The record of TS.ADD without options other than ON_DUPLICATE. Most records are of this kind, so it is written in
// place: all of it is constant except the key, the time and the value.
ghost use Rattle.std.specs.Prelude.{◌≡◌, ◌+◌, ◌++◌, ◌≤◌, take, drop, slice_range, codes, length};
ghost use Rattle.std.specs.Prelude.{is_some, if◌then◌else◌, IfOk, OnOk};
ghost use Rattle.std.specs.Fmt.{decimal};
ghost use Rattle.ts_spec.specs.Encoded.{encoded_request, encoded_word, encoded_words};
ghost use Rattle.ts_spec.specs.Text.{CRLF, line_text};
ghost use Rattle.ts_spec.specs.Value.{shown_value};
ghost use Rattle.ts_command.specs.SimpleAdd.{simple_add_of};
ghost use Rattle.ts_journal.specs.Record.{given, on_duplicate_words, record_words};

use crate::changes::time_of;
use crate::draft::{write_ending_at, write_line};
use itoa::write_digits;
use std::alloc::{AllocError, Global};
use std::ops::Range;
use ts_command::SimpleAdd;
use ts_decimal::put_value;
use ts_sample::Units;
use ts_spec::Policy;

// No record has more bytes than this and its key.
const ROOM: usize = 320;

// The size of the scratch block, in bytes.
const BLOCK: usize = 128;

// The offset in the block at which the integer part of the value ends.
const POINT: usize = 96;

// The default options of a new series, as arguments.
const DEFAULT_OPTIONS: &[u8; 152] = b"$9\r\nRETENTION\r\n$1\r\n0\r\n\
    $8\r\nENCODING\r\n$10\r\nCOMPRESSED\r\n$10\r\nCHUNK_SIZE\r\n$4\r\n4096\r\n\
    $16\r\nDUPLICATE_POLICY\r\n$5\r\nBLOCK\r\n$6\r\nIGNORE\r\n$1\r\n0\r\n$1\r\n0\r\n$6\r\nLABELS\r\n";

// Makes the record, given a reading of the clock. Allocates once.
pub(crate) fn addition_text(
    alloc: Global,
    addition: &SimpleAdd,
    reading: u64,
) -> Result<Vec<u8>, AllocError>
    ensures { IfOk result (λ text. text.items
        ≡ encoded_request (record_words reading (simple_add_of addition.now))) }
{
    let key = addition.key.bytes();
    let time = time_of(addition.at, reading);
    let mut text = Vec::with_capacity(alloc, key.len().saturating_add(ROOM))?;
    let mut block = [0; BLOCK];
    let start = write_head(addition.on, key.len(), &mut block);
    text.extend_from_slice(&block[start..])?;
    text.extend_from_slice(key)?;
    let sample = write_sample(time, addition.value, &mut block);
    text.extend_from_slice(&block[sample.start..sample.end])?;
    append_on_duplicate(addition.on, &mut text)?;
    text.extend_from_slice(DEFAULT_OPTIONS)?;
    Ok(text)
}

// Writes what comes before the bytes of the key, so that it ends where the block does. Returns where it starts.
fn write_head(on: Option<Policy>, key_len: usize, block: &mut [u8; BLOCK]) -> usize
    ensures text { drop result block.new ≡ line_text 42 (decimal (if is_some on then 18 else 16))
        ++ encoded_word (codes "TS.ADD") ++ line_text 36 (decimal key_len) }
    ensures start { result ≤ 128 }
{
    let place = write_line(b'$', key_len, BLOCK, block);
    write_ending_at(head_text(on), place, block)
}

// The number of arguments, and the first of them.
fn head_text(on: Option<Policy>) -> &'static [u8]
    ensures text { result.now ≡ line_text 42 (decimal (if is_some on then 18 else 16))
        ++ encoded_word (codes "TS.ADD") }
    ensures short { length result.now ≡ 17 }
{
    match on {
        None => b"*16\r\n$6\r\nTS.ADD\r\n",
        Some(_) => b"*18\r\n$6\r\nTS.ADD\r\n",
    }
}

// Writes what comes between the bytes of the key and the options: the end of the key, the time and the value. Returns
// its range in the block.
fn write_sample(time: u64, value: Units, block: &mut [u8; BLOCK]) -> Range<usize>
    ensures text { slice_range block.new result.start result.end
        ≡ CRLF ++ encoded_word (decimal time) ++ encoded_word (shown_value value) }
    ensures order { result.start ≤ result.end }
    ensures end { result.end ≤ 128 }
{
    let value = put_value(value, block, POINT);
    write_line_end(value.end, block);
    let place = write_line(b'$', value.end - value.start, value.start, block);
    let end = write_ending_at(b"\r\n", place, block);
    let start = write_digits(time, block, end);
    let place = write_line(b'$', end - start, start, block);
    let start = write_ending_at(b"\r\n", place, block);
    start..value.end + 2
}

// Writes CRLF at offset `place`.
fn write_line_end(place: usize, block: &mut [u8; BLOCK])
    requires { place ≤ 126 }
    ensures { take (place + 2) block.new ≡ take place block.old ++ CRLF }
{
    block[place] = b'\r';
    block[place + 1] = b'\n';
}

// Appends the arguments of ON_DUPLICATE, if there is one.
fn append_on_duplicate(on: Option<Policy>, text: &mut Vec<u8>) -> Result<(), AllocError>
    ensures { OnOk result (text.new.items ≡ text.old.items ++ encoded_words (given on_duplicate_words on)) }
{
    match on {
        Some(policy) => text.extend_from_slice(policy_text(policy)),
        None => Ok(()),
    }
}

fn policy_text(policy: Policy) -> &'static [u8]
    ensures { result.now ≡ encoded_words (on_duplicate_words policy) }
{
    match policy {
        Policy::Block => b"$12\r\nON_DUPLICATE\r\n$5\r\nBLOCK\r\n",
        Policy::First => b"$12\r\nON_DUPLICATE\r\n$5\r\nFIRST\r\n",
        Policy::Last => b"$12\r\nON_DUPLICATE\r\n$4\r\nLAST\r\n",
        Policy::Min => b"$12\r\nON_DUPLICATE\r\n$3\r\nMIN\r\n",
        Policy::Max => b"$12\r\nON_DUPLICATE\r\n$3\r\nMAX\r\n",
        Policy::Sum => b"$12\r\nON_DUPLICATE\r\n$3\r\nSUM\r\n",
    }
}
