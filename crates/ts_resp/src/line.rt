// Parses the number in a header line: an argument count or a length in bytes.
ghost use Rattle.std.specs.Prelude.{◌≡◌, ◌+◌, ◌<◌, length, drop, IfSome};
ghost use Rattle.ts_spec.specs.Wire.{Goes, Number, line_step, with_digit};
ghost use Rattle.ts_spec.specs.Wire.Line.{Blank};
ghost use Rattle.ts_resp.specs.declared.header.Header.TheVariants as header;
ghost use Rattle.ts_resp.specs.declared.line.NumberLine.TheVariants.{Whole};
ghost use Rattle.ts_resp.specs.Headers.{feed_at};
ghost use Rattle.ts_resp.specs.Lines.{line_of, move_of, number_line as line_at, IsWithin};

// What has been parsed of the number so far.
#[derive(Clone, Copy)]
pub(crate) enum Line {
    Blank,
    Zero,
    Number(u32),
    Minus,
    MinusOne,
}

// The effect of the next byte.
pub(crate) enum LineMove {
    Goes(Line),
    Returns(u32),
    Wrong,
}

// The result of parsing a number line. `len` is the index of the CR; `at` is the index of the first wrong byte.
pub(crate) enum NumberLine {
    Open,
    Whole { number: u32, len: usize },
    Wrong { at: usize },
}

impl Line {
    #[inline]
    fn step(self, limit: u32, negative: bool, byte: u8) -> LineMove
        ensures { move_of result ≡ line_step limit negative (line_of self) byte }
    {
        match self {
            Line::Blank => first_step(limit, negative, byte),
            Line::Zero if byte == b'\r' => LineMove::Returns(0),
            Line::Zero => LineMove::Wrong,
            Line::Number(number) if byte == b'\r' => LineMove::Returns(number),
            Line::Number(number) => one_more_digit(limit, number, byte),
            Line::Minus if byte == b'1' => LineMove::Goes(Line::MinusOne),
            Line::Minus => LineMove::Wrong,
            Line::MinusOne if byte == b'\r' => LineMove::Returns(0),
            Line::MinusOne => LineMove::Wrong,
        }
    }
}

fn first_step(limit: u32, negative: bool, byte: u8) -> LineMove
    ensures { move_of result ≡ line_step limit negative Blank byte }
{
    if byte == b'0' {
        return LineMove::Goes(Line::Zero);
    }
    if negative && byte == b'-' {
        return LineMove::Goes(Line::Minus);
    }
    one_more_digit(limit, 0, byte)
}

fn one_more_digit(limit: u32, number: u32, byte: u8) -> LineMove
    ensures { move_of result ≡ with_digit limit number byte }
{
    if byte < b'0' || byte > b'9' {
        return LineMove::Wrong;
    }
    let longer = 10 * number as u64 + (byte - b'0') as u64;
    if longer > limit as u64 {
        return LineMove::Wrong;
    }
    LineMove::Goes(Line::Number(longer as u32))
}

// Fast path for a number of one or two digits followed by CRLF: the number and the index of the CR. Returns `None` for
// any other line; the caller then parses it byte by byte.
#[inline]
pub(crate) fn short_line(bytes: &[u8], limit: u32, negative: bool) -> Option<(u32, usize)>
    ensures line { IfSome result (λ p. Whole p.0 p.1 ≡ line_at limit negative Blank bytes.now) }
    ensures feed { IfSome result (λ p. header.Whole p.0 (p.1 + 2) ≡ feed_at p.0 (p.1 + 2) (drop (p.1 + 1) bytes.now)) }
    ensures within { IfSome result (λ p. p.1 + 1 < length bytes.now) }
{
    let [first, second, third, fourth, ..] = bytes else {
        return None;
    };
    let number = one_digit(limit, negative, *first)?;
    if *second == b'\r' {
        if *third != b'\n' {
            return None;
        }
        return Some((number, 1));
    }
    if *third != b'\r' {
        return None;
    }
    if *fourth != b'\n' {
        return None;
    }
    let number = second_digit(limit, number, *second)?;
    Some((number, 2))
}

// The value of a first digit. Returns `None` for 0.
#[inline]
fn one_digit(limit: u32, negative: bool, byte: u8) -> Option<u32>
    ensures { IfSome result (λ number. Goes (Number number) ≡ line_step limit negative Blank byte) }
{
    match first_step(limit, negative, byte) {
        LineMove::Goes(Line::Number(number)) => Some(number),
        LineMove::Goes(_) | LineMove::Returns(_) | LineMove::Wrong => None,
    }
}

// The number with one more digit appended.
#[inline]
fn second_digit(limit: u32, tens: u32, byte: u8) -> Option<u32>
    ensures { IfSome result (λ number. Goes (Number number) ≡ with_digit limit tens byte) }
{
    match one_more_digit(limit, tens, byte) {
        LineMove::Goes(Line::Number(number)) => Some(number),
        LineMove::Goes(_) | LineMove::Returns(_) | LineMove::Wrong => None,
    }
}

// Parses a number byte by byte. With `negative`, `-1` also counts as 0.
pub(crate) fn number_line(bytes: &[u8], limit: u32, negative: bool) -> NumberLine
    ensures line { result ≡ line_at limit negative Blank bytes.now }
    ensures within { IsWithin (length bytes.now) result }
{
    let mut line = Line::Blank;
    for (at, &byte) in bytes.iter().enumerate() {
        match line.step(limit, negative, byte) {
            LineMove::Goes(next) => line = next,
            LineMove::Returns(number) => return NumberLine::Whole { number, len: at },
            LineMove::Wrong => return NumberLine::Wrong { at },
        }
    }
    NumberLine::Open
}
