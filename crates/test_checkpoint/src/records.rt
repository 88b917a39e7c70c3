// Words of records, what they say, and whether they are within limits.
use crate::words::{joined, small, text, words_of};
use std::alloc::{AllocError, Global};
use std::{io, str};
use test_script::{Device, Script, answer_of, bytes_of, number_of, shown, silent};
use ts_checkpoint::{
    Part, PartFault, encode_record, fits, head_record, piece_reads_back, piece_record, read_part,
};
use ts_resp::Out;
use ts_spec::WireLimits;

/// `records`. Its calls are
///
/// - `read WORDS`: what a record says, or `refused`. Of a series it is the key, the highest time, the encoding and the
///   policy; of a rule the source, the destination, its number, the open bucket and the sum;
/// - `changes-are-refused WORDS`: whether no record is read with another last bit in one byte;
/// - `head 3`, `piece 48 BYTES`: the words of a record;
/// - `piece-reads-back 48 BYTES`;
/// - `limits 4 14 26`: sets the limits of `fits WORDS`, on words, on bytes of a word and on bytes of a request;
/// - `encode WORDS`: the bytes of a record.
pub(crate) fn run(script: &mut Script) -> io::Result<()> {
    script.run(&mut RecordCalls {
        limits: limits_of(""),
    })
}

#[derive(Drop)]
struct RecordCalls {
    limits: WireLimits,
}

impl Device for RecordCalls {
    fn answer(&mut self, alloc: Global, verb: &str, text: &str) -> io::Result<Option<String>> {
        match verb {
            "read" => read(alloc, text),
            "changes-are-refused" => answer_of(alloc, changes_are_refused(alloc, text)?),
            "head" => joined(alloc, &head_record(alloc, number_of(text))?),
            "piece" | "piece-reads-back" => piece(alloc, verb, text),
            "limits" => {
                self.limits = limits_of(text);
                silent(alloc)
            }
            "fits" => answer_of(alloc, fits(&words_of(alloc, text)?, self.limits)),
            "encode" => encoded(alloc, text),
            _ => Ok(None),
        }
    }
}

fn read(alloc: Global, text: &str) -> io::Result<Option<String>> {
    match read_part(words_of(alloc, text)?) {
        Ok(part) => Ok(Some(said(alloc, &part)?)),
        Err(fault) => refused(alloc, fault),
    }
}

fn refused(alloc: Global, fault: PartFault) -> io::Result<Option<String>> {
    match fault {
        PartFault::Refused => answer_of(alloc, "refused"),
        PartFault::Memory(error) => Err(io::Error::from(error)),
    }
}

fn said(alloc: Global, part: &Part) -> Result<String, AllocError> {
    match part {
        Part::Head(records) => format!(in alloc; "head {records}"),
        Part::Series(head) => {
            let (key, high, options) = (text(&head.key), head.high, head.spec.options);
            let (encoding, policy) = (options.encoding, options.policy);
            format!(in alloc; "series {key} {high:?} {encoding:?} {policy:?}")
        }
        Part::Samples(piece) => {
            let (limit, samples) = (piece.limit, text(&piece.samples));
            format!(in alloc; "piece {limit} {samples}")
        }
        Part::Rule(rule) => {
            let (source, dest) = (text(&rule.source), text(&rule.dest));
            let (made, current, sum) = (rule.made, rule.current, rule.running.sum);
            format!(in alloc; "rule {source} {dest} {made} {current:?} {sum}")
        }
    }
}

fn changes_are_refused(alloc: Global, text: &str) -> Result<bool, AllocError> {
    let mut bytes = Vec::from_slice(alloc, text.as_bytes())?;
    let mut holds = true;
    for i in 0..bytes.len() {
        let byte = bytes[i];
        // a changed space, or a space in place of another byte, splits the words differently
        if byte != b' ' && byte != b' ' ^ 1 {
            bytes[i] = byte ^ 1;
            holds = holds && is_refused(alloc, &bytes)?;
            bytes[i] = byte;
        }
    }
    Ok(holds)
}

fn is_refused(alloc: Global, bytes: &[u8]) -> Result<bool, AllocError> {
    let words = words_of(alloc, str::from_utf8(bytes).unwrap_or(""))?;
    Ok(matches!(read_part(words), Err(PartFault::Refused)))
}

fn piece(alloc: Global, verb: &str, text: &str) -> io::Result<Option<String>> {
    let (limit, samples) = text.split_once(' ').unwrap_or((text, ""));
    let (limit, samples) = (small(limit), bytes_of(alloc, samples)?);
    if verb == "piece" {
        return joined(alloc, &piece_record(alloc, limit, &samples)?);
    }
    answer_of(alloc, piece_reads_back(limit, &samples))
}

fn limits_of(text: &str) -> WireLimits {
    let (words, rest) = text.split_once(' ').unwrap_or((text, ""));
    let (word_bytes, request_bytes) = rest.split_once(' ').unwrap_or((rest, ""));
    WireLimits {
        words: small(words),
        word_bytes: small(word_bytes),
        request_bytes: small(request_bytes),
        line_bytes: 1,
    }
}

fn encoded(alloc: Global, text: &str) -> io::Result<Option<String>> {
    let mut out = Out::new(alloc)?;
    encode_record(&words_of(alloc, text)?, &mut out)?;
    shown(alloc, out.bytes())
}
