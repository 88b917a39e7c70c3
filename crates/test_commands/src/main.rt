//! Tests the program through `top` with talks. A talk in the input begins with a line `talk` and its name, and ends
//! with an empty line. Its other lines are:
//!
//! - `with` and a setting: a limit, such as `keys 1`, or `wire_words 3` for one of requests; the `budget` of input
//!   bytes; the `words` of the command line, if it is not `pipe`; the readings of the clock, such as `clock 1000,900`;
//!   the most bytes per read, one run for each, such as `pieces 4096,1`; `cuts`, for pieces of each size, and for two
//!   pieces cut at each byte; the most bytes per write, such as `takes 1`; which calls of the listener fail, such as
//!   `failing_calls 3`, where its `open` and each `accept` are counted together from 1; `next_call comes` or `next_call
//!   fails`, for one more connection that the next `accept` after the run returns at once or after a failure; a
//!   `journal` with a record that it `had` before the run or `has` after it, such as `journal had DEL a`, with bytes
//!   (`had_bytes`, `has_bytes`), and with the calls that fail, such as `journal fails 2`; `encodings`, to create series
//!   in each encoding; the `numbers` from one up to another; the `lengths` of a word, from one up to another;
//! - a command, and after ` -> ` its expected reply: its lines, separated by ` | `, or `[1:2, 3:4]` for rows, each a
//!   time and a value. A part in braces is repeated for each number: `#` is the number, and `@` the number as far from
//!   the end. After `each `, the whole line is repeated so; after `each 60 `, it is repeated for each multiple of 60,
//!   and the part in braces for the 60 numbers from there. `^` is the word, and in a reply the word as a bulk string;
//! - `sends` and bytes of the input, or `gets` and bytes of the output, with the escapes `\r`, `\n` and `\t`;
//! - `fails read` or `fails write`, and the numbers of the reads or writes that fail, such as `2`;
//! - `link`: the following lines of this kind belong to a connection;
//! - `ends`, the exit status if it is not 0, and the line on standard error;
//! - `outcome` and the expected outcome of the library's `pipe`, which is then called instead of the program: the
//!   requests executed, the bytes taken, and the end, such as `executed 1, taken 14, WriteFault`;
//! - `session` and what is expected of the library's `Session::piece`, which is then called for two pieces instead of
//!   the program: the requests executed, where an unfinished one begins, and the last result, such as `executed 1,
//!   place Some(14), More`. The first piece has 4,096 bytes, or one, or with `cuts` any number;
//! - `executes`: the library's `execute` is then called for each request, at the clock reading 1000, instead of the
//!   program;
//! - `#` and a comment.
//!
//! A talk passes if exactly what is expected is written, in reads of 4,096 bytes and of one byte; its name is then
//! printed. The talks are in a file, not in code, because test code is proved and the lines of a file are not.
#![tactic(auto)]

mod direct;
mod limits;
mod run;
mod talk;

use std::io;
use talk::Talk;

fn main(rt: HostRuntime) -> io::Result<()> {
    let alloc = rt.alloc();
    let mut talk = Talk::new(alloc);
    for line in rt.lines(alloc) {
        let line = line?;
        if line.as_str().is_empty() {
            if let Some(outcome) = talk.outcome()? {
                println!(rt; "{outcome}")?;
            }
            talk = Talk::new(alloc);
        } else {
            talk.read(line.as_str())?;
        }
    }
    Ok(())
}
