// Reads the records of a checkpoint.
ghost use Rattle.std.specs.Prelude.{◌≡◌, drop, option_map};
ghost use Rattle.ts_checkpoint.specs.Parts.{Head, Samples, piece_of};
ghost use Rattle.ts_checkpoint.specs.PartOf.{part_of, unchecked_part, head_part, piece_part};
ghost use Rattle.ts_checkpoint.specs.Reading.{Reads};

use crate::draft::check_number;
use crate::numbers::{small_number_in, time_in};
use crate::part::{Part, PartFault, Piece};
use crate::read_rule::read_rule;
use crate::read_series::read_series;
use itoa::Buffer;
use ts_resp::Word;

// The least and the greatest limit of a chunk, in bytes.
pub(crate) const LEAST_LIMIT: u32 = 48;

pub(crate) const GREATEST_LIMIT: u32 = 1_048_576;

/// What a record of a checkpoint says. Refuses words that are damaged or out of range. Allocates no more than the words
/// take.
#[tactic(auto, unfolding(crate::specs::PartOf::part_of))]
pub fn read_part(words: Vec<Word>) -> Result<Part, PartFault>
    ensures { Reads (part_of words.items) result }
{
    let mut words = words;
    if words.len() < 2 {
        return Err(PartFault::Refused);
    }
    let check = words.remove(1);
    if check.bytes() != Buffer::new().format(check_number(&words)).as_bytes() {
        return Err(PartFault::Refused);
    }
    read_unchecked(words)
}

// What the words of a record without its check number say.
#[tactic(auto, unfolding(crate::specs::PartOf::unchecked_part))]
fn read_unchecked(words: Vec<Word>) -> Result<Part, PartFault>
    ensures { Reads (unchecked_part words.items) result }
{
    let Some(name) = words.first() else {
        return Err(PartFault::Refused);
    };
    let name = name.bytes();
    if name == b"TSD.CHECKPOINT".as_slice() {
        let records = read_head(&words).ok_or(PartFault::Refused)?;
        Ok(Part::Head(records))
    } else if name == b"TSD.SERIES".as_slice() {
        read_series(words)
    } else if name == b"TSD.PIECE".as_slice() {
        let piece = read_piece(words).ok_or(PartFault::Refused)?;
        Ok(Part::Samples(piece))
    } else if name == b"TSD.RULE".as_slice() {
        read_rule(words)
    } else {
        Err(PartFault::Refused)
    }
}

// How many records follow a head of this version.
#[tactic(auto, unfolding(crate::specs::PartOf::head_part))]
fn read_head(words: &[Word]) -> Option<u64>
    ensures { head_part (drop 1 words.now) ≡ option_map Head result }
{
    let [_, version, records] = words else {
        return None;
    };
    if version.bytes() != b"1".as_slice() {
        return None;
    }
    time_in(records.bytes())
}

// A piece that fits its limit.
#[tactic(auto, unfolding(crate::specs::PartOf::piece_part))]
fn read_piece(words: Vec<Word>) -> Option<Piece>
    ensures { piece_part (drop 1 words.items) ≡ option_map (λ p. Samples (piece_of p)) result }
{
    let mut words = words;
    let [_, limit, samples] = words.as_slice() else {
        return None;
    };
    let limit = small_number_in(LEAST_LIMIT, GREATEST_LIMIT, limit.bytes())?;
    let size = samples.bytes().len();
    if size == 0 || size > limit as usize {
        return None;
    }
    let samples = words.swap_remove(2);
    Some(Piece { limit, samples })
}
