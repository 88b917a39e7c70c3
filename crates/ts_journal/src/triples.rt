// The record of TS.MADD: prepares the arguments of each triple, then copies those that the reply accepts.
ghost use Rattle.std.specs.Prelude.{◌≡◌, ◌≤◌, ◌+◌, [], length, drop, sum, map, flat_map, IfOk, OnOk};
ghost use Rattle.ts_command.specs.Reading.{triple_of, triples_of};
ghost use Rattle.ts_journal.specs.Draft.{HasWords, AppendsWords};
ghost use Rattle.ts_journal.specs.Record.{triple_words};
ghost use Rattle.ts_journal.specs.Fixed.{triple_text};
ghost use Rattle.ts_journal.specs.Lines.{items_text, accepted_pieces, accepted_text};

use crate::changes::{draft_sample, time_of};
use crate::draft::{Draft, GAP, write_header_in_gap};
use crate::reply::{append_accepted, items};
use bytes::BytesMut;
use std::alloc::{AllocError, Global};
use ts_command::Triple;
use ts_resp::Out;

// The name of the command, as an argument.
const NAME: &[u8; 13] = b"$7\r\nTS.MADD\r\n";

#[derive(Drop)]
pub(crate) struct Triples {
    // The arguments of all triples, after a gap.
    words: Out,
    // How many bytes the arguments of each triple have.
    lens: Vec<usize>,
    // The buffer in which the record is assembled. It has the capacity for all triples.
    room: BytesMut,
    ghost gap: { 24 ≤ length words.bytes },
    ghost parts: { sum lens.items ≤ length (drop 24 words.bytes) },
    ghost has_capacity_for_record: { 37 + length (drop 24 words.bytes) ≤ length room.items + room.spare },
}

impl Triples {
    ghost use Rattle.ts_journal.specs.Content.{pieces_of};

    pub(crate) fn take(
        alloc: Global,
        triples: &[Triple],
        reading: u64,
    ) -> Result<Triples, AllocError>
        ensures { IfOk result (λ t. pieces_of t ≡ map (triple_text reading) (triples_of triples.now)) }
    {
        let mut draft = Draft::new(alloc)?;
        let mut lens = Vec::with_capacity(alloc, triples.len())?;
        draft_triples(&mut draft, &mut lens, triples, reading)?;
        let words = draft.out;
        let room = BytesMut::with_capacity(alloc, NAME.len() + words.bytes().len())?;
        Ok(Triples { words, lens, room })
    }

    // The record, given the text of the reply.
    pub(crate) fn accepted_part(&mut self, reply: &[u8]) -> &[u8]
        ensures { result.now ≡ accepted_text (accepted_pieces (items_text reply.now) (pieces_of self.old)) }
    {
        let start = self.assemble(reply);
        &self.room.as_slice()[start..]
    }

    // Assembles the record, given the text of the reply. Returns the offset in the buffer where it starts.
    fn assemble(&mut self, reply: &[u8]) -> usize
        ensures bytes { drop result self.new.room.items
            ≡ accepted_text (accepted_pieces (items_text reply.now) (pieces_of self.old)) }
        ensures start { result ≤ length self.new.room.items }
    {
        self.room.clear();
        self.room.extend_reserved(&[0; GAP]);
        self.room.extend_reserved(NAME);
        let words = after_gap(&self.words);
        let count = append_accepted(words, self.lens.as_slice(), items(reply), &mut self.room);
        let len = self.room.len();
        if count == 0 {
            return len;
        }
        write_header_in_gap(count + 1, self.room.as_mut_slice())
    }
}

// The bytes after the gap.
fn after_gap(words: &Out) -> &[u8]
    requires { 24 ≤ length words.now.bytes }
    ensures { result.now ≡ drop 24 words.now.bytes }
{
    let (_gap, words) = words.bytes().split_at(GAP);
    words
}

// Appends the arguments of triples, and the number of bytes of each.
fn draft_triples(
    draft: &mut Draft,
    lens: &mut Vec<usize>,
    triples: &[Triple],
    reading: u64,
) -> Result<(), AllocError>
    requires words { HasWords [] draft.old }
    requires lens { lens.old.items ≡ [] }
    ensures words { OnOk result (HasWords (flat_map (triple_words reading) (triples_of triples.now)) draft.new) }
    ensures lens { OnOk result (lens.new.items ≡ map length (map (triple_text reading) (triples_of triples.now))) }
{
    for triple in triples {
        let before = draft.out.bytes().len();
        draft_triple(draft, triple, reading)?;
        lens.push(draft.out.bytes().len() - before)?;
    }
    Ok(())
}

// Appends the arguments of a triple, or none if its time or value is invalid.
fn draft_triple(draft: &mut Draft, triple: &Triple, reading: u64) -> Result<(), AllocError>
    ensures { OnOk result (AppendsWords draft.old draft.new (triple_words reading (triple_of triple.now))) }
{
    let Ok(at) = &triple.at else {
        return Ok(());
    };
    let Ok(value) = &triple.value else {
        return Ok(());
    };
    draft_sample(draft, &triple.key, time_of(*at, reading), *value)
}
