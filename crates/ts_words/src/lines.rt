// The lines that the program writes to standard output about itself, each into a buffer of the caller.
ghost use Rattle.std.specs.Prelude.{◌≡◌, ◌+◌, ◌≤◌, ◌++◌, length, take};
ghost use Rattle.std.specs.Fmt.{decimal};
ghost use Rattle.ts_words.specs.Lines.{link_end_word, link_line_of, summary_line, summary_of};

use itoa::Buffer;

/// How a served connection ended.
#[derive(Clone, Copy, Debug, PartialEq, Eq)]
pub enum LinkEnd {
    /// The whole input was read and ends between requests, or QUIT was answered.
    Ended,
    /// The input ends inside a request.
    Truncated,
    /// The stream of requests is broken.
    Protocol,
    /// A read failed.
    ReadFault,
    /// A write failed.
    WriteFault,
    /// Memory ran out.
    Memory,
    /// The budget of input bytes was used up.
    Budget,
    /// Its client did not read its replies: more than 64 MiB of them waited, or there was no memory for the next one.
    Cut,
    /// A call on it failed, or its client reset it.
    Broken,
}

impl LinkEnd {
    // Its word in the line.
    fn word(self) -> &'static str
        ensures word { result.now ≡ link_end_word self }
        ensures short { length result.now ≤ 11 }
    {
        match self {
            LinkEnd::Ended => "ended",
            LinkEnd::Truncated => "truncated",
            LinkEnd::Protocol => "protocol",
            LinkEnd::ReadFault => "read-fault",
            LinkEnd::WriteFault => "write-fault",
            LinkEnd::Memory => "memory",
            LinkEnd::Budget => "budget",
            LinkEnd::Cut => "cut",
            LinkEnd::Broken => "broken",
        }
    }
}

/// Writes the line of a served connection into `line_buffer`: its number, counted from 1, how many of its requests were
/// executed, and how it ended.
pub fn link_line(link: u64, executed: u64, end: LinkEnd, line_buffer: &mut [u8; 80]) -> &[u8]
    ensures { result.now ≡ link_line_of link executed end }
{
    let at = write_text_at(line_buffer, 0, b"link ");
    let at = write_number_at(line_buffer, at, link);
    let at = write_text_at(line_buffer, at, b" executed ");
    let at = write_number_at(line_buffer, at, executed);
    let at = write_text_at(line_buffer, at, b" ");
    let at = write_text_at(line_buffer, at, end.word().as_bytes());
    let at = write_text_at(line_buffer, at, b"\n");
    &line_buffer[..at]
}

/// Writes the summary of a workload into `line_buffer`: six lines, each a name and a number. The numbers are the
/// requests executed, the bytes of the requests, the bytes of the replies, the error replies, the keys, and the samples
/// of all keys.
pub fn summary<'a>(numbers: &[u64; 6], line_buffer: &'a mut [u8; 192]) -> &'a [u8]
    ensures { result.now ≡ summary_of numbers.now }
{
    let at = write_summary_line(line_buffer, 0, b"requests", numbers[0]);
    let at = write_summary_line(line_buffer, at, b"in", numbers[1]);
    let at = write_summary_line(line_buffer, at, b"out", numbers[2]);
    let at = write_summary_line(line_buffer, at, b"errors", numbers[3]);
    let at = write_summary_line(line_buffer, at, b"keys", numbers[4]);
    let at = write_summary_line(line_buffer, at, b"samples", numbers[5]);
    &line_buffer[..at]
}

// Writes a line of a name and a number at offset `at`, and returns the offset after it.
fn write_summary_line(line_buffer: &mut [u8; 192], at: usize, word: &[u8], number: u64) -> usize
    requires { at + length word.now + 22 ≤ 192 }
    ensures text { take result line_buffer.new ≡ take at line_buffer.old ++ summary_line word.now number }
    ensures after { result ≤ at + length word.now + 22 }
{
    let at = write_text_at(line_buffer, at, word);
    let at = write_text_at(line_buffer, at, b" ");
    let at = write_number_at(line_buffer, at, number);
    write_text_at(line_buffer, at, b"\n")
}

// The most digits of a 64-bit number.
pub(crate) const DIGITS: usize = 20;

// Writes a text at offset `at`, and returns the offset after it.
pub(crate) fn write_text_at(line_buffer: &mut [u8], at: usize, text: &[u8]) -> usize
    requires { at + length text.now ≤ length line_buffer.old }
    ensures text { take result line_buffer.new ≡ take at line_buffer.old ++ text.now }
    ensures after { result ≡ at + length text.now }
    ensures size { length line_buffer.new ≡ length line_buffer.old }
{
    let after = at + text.len();
    line_buffer[at..after].copy_from_slice(text);
    after
}

// Writes a number in decimal at offset `at`, and returns the offset after it.
pub(crate) fn write_number_at(line_buffer: &mut [u8], at: usize, number: u64) -> usize
    requires { at + 20 ≤ length line_buffer.old }
    ensures text { take result line_buffer.new ≡ take at line_buffer.old ++ decimal number }
    ensures after { result ≤ at + 20 }
    ensures size { length line_buffer.new ≡ length line_buffer.old }
{
    let mut buffer = Buffer::new();
    write_text_at(line_buffer, at, buffer.format(number).as_bytes())
}
