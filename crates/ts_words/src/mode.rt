// Parses the command line.
ghost use Rattle.std.specs.Prelude.{◌≡◌, ◌≤◌, if◌then◌else◌, map, IfSome, None, Some};
ghost use Rattle.std.specs.String.{string_bytes};
ghost use Rattle.ts_words.specs.Modes.{mode_of, serve_of, gen_of, host_of, IsWithin, number, is_digits, digits_number};
ghost use Rattle.ts_words.specs.Modes as words;

/// The most sample requests in a generated workload.
const MOST_GENERATED: u64 = 1_000_000;

/// Where the mode `host` keeps its data.
#[derive(Clone, Copy, Debug, PartialEq, Eq)]
pub enum Storage {
    /// In memory alone.
    Memory,
    /// In a journal, which outlives the process. The third argument is the name of its file.
    Journal,
    /// The same, and synced before any reply leaves, so that it outlives a crash of the system.
    SyncedJournal,
}

/// The mode that the command line selects.
#[derive(Clone, Copy, Debug, PartialEq, Eq)]
pub enum Mode {
    /// Answers the requests on standard input.
    Pipe,
    /// Serves this many connections, at least 1, one after another.
    Serve(u32),
    /// Answers a generated workload: its seed, and its number of sample requests, at most 1000000.
    Gen(u64, u32),
    /// Answers the requests on standard input over the data in a journal, and appends each change to it. The second
    /// argument is the name of the journal's file.
    Keep,
    /// Serves any number of connections at once. The second argument is the address.
    Host(Storage),
    /// Puts a checkpoint in the place of a journal. The second argument is the name of the journal's file.
    Fold,
    /// Answers a capture of interleaved connections on standard input.
    Mux,
}

impl Mode {
    /// Parses the arguments after the program's name: `pipe`, `mux`, `keep NAME`, `fold NAME`, `serve ADDRESS
    /// CONNECTIONS`, `gen SEED N`, or `host ADDRESS`, with a journal `host ADDRESS NAME` or `host ADDRESS NAME sync`.
    /// Returns `None` for anything else.
    pub fn read(words: &[String]) -> Option<Mode>
        ensures mode { result ≡ mode_of (map string_bytes words.now) }
        ensures within { IfSome result IsWithin }
    {
        match words {
            [word] => one_word(word),
            [word, name] => two_words(word, name),
            [word, first, second] => three_words(word, first, second),
            [word, address, name, last] => four_words(word, address, name, last),
            _ => None,
        }
    }
}

fn one_word(word: &str) -> Option<Mode>
    ensures mode { result ≡ words.one_word word.now }
    ensures within { IfSome result IsWithin }
{
    if word == "pipe" {
        Some(Mode::Pipe)
    } else if word == "mux" {
        Some(Mode::Mux)
    } else {
        None
    }
}

fn two_words(word: &str, name: &str) -> Option<Mode>
    ensures mode { result ≡ words.two_words word.now name.now }
    ensures within { IfSome result IsWithin }
{
    if !is_operand(name.as_bytes()) {
        return None;
    }
    if word == "keep" {
        Some(Mode::Keep)
    } else if word == "fold" {
        Some(Mode::Fold)
    } else if word == "host" {
        Some(Mode::Host(Storage::Memory))
    } else {
        None
    }
}

fn three_words(word: &str, first: &str, second: &str) -> Option<Mode>
    ensures mode { result ≡ words.three_words word.now first.now second.now }
    ensures within { IfSome result IsWithin }
{
    if word == "serve" {
        serve(first, second)
    } else if word == "gen" {
        generate(first, second)
    } else if word == "host" {
        host(first, second)
    } else {
        None
    }
}

fn four_words(word: &str, address: &str, name: &str, last: &str) -> Option<Mode>
    ensures mode { result ≡ words.four_words word.now address.now name.now last.now }
    ensures within { IfSome result IsWithin }
{
    if word == "host"
        && is_operand(address.as_bytes())
        && is_operand(name.as_bytes())
        && last == "sync"
    {
        Some(Mode::Host(Storage::SyncedJournal))
    } else {
        None
    }
}

fn host(address: &str, name: &str) -> Option<Mode>
    ensures mode { result ≡ host_of address.now name.now }
    ensures within { IfSome result IsWithin }
{
    if is_operand(address.as_bytes()) && is_operand(name.as_bytes()) {
        Some(Mode::Host(Storage::Journal))
    } else {
        None
    }
}

fn serve(address: &str, connections: &str) -> Option<Mode>
    ensures mode { result ≡ serve_of address.now connections.now }
    ensures within { IfSome result IsWithin }
{
    if !is_operand(address.as_bytes()) {
        return None;
    }
    let connections = parse_bounded_number(connections.as_bytes(), 1, u32::MAX.into())?;
    Some(Mode::Serve(connections as u32))
}

fn is_operand(word: &[u8]) -> bool
    ensures { result ≡ words.is_operand word.now }
{
    match word {
        [first, ..] => *first != b'-',
        [] => false,
    }
}

fn generate(seed: &str, n: &str) -> Option<Mode>
    ensures mode { result ≡ gen_of seed.now n.now }
    ensures within { IfSome result IsWithin }
{
    let seed = parse_bounded_number(seed.as_bytes(), 0, u64::MAX)?;
    let n = parse_bounded_number(n.as_bytes(), 0, MOST_GENERATED)?;
    Some(Mode::Gen(seed, n as u32))
}

// Parses a number from `least` to `most`.
pub(crate) fn parse_bounded_number(word: &[u8], least: u64, most: u64) -> Option<u64>
    ensures value { result ≡ number least most word.now }
    ensures least { IfSome result (λ n. least ≤ n) }
    ensures most { IfSome result (λ n. n ≤ most) }
{
    let total = parse_digits(word)?;
    if total < u128::from(least) || total > u128::from(most) {
        return None;
    }
    Some(total as u64)
}

// Parses 1 to 20 decimal digits.
fn parse_digits(word: &[u8]) -> Option<u128>
    ensures { result ≡ (if is_digits word.now then Some (digits_number word.now) else None) }
{
    if word.is_empty() || word.len() > 20 {
        return None;
    }
    let mut total: u128 = 0;
    for byte in word {
        if !byte.is_ascii_digit() {
            return None;
        }
        total = total * 10 + u128::from(*byte - b'0');
    }
    Some(total)
}
