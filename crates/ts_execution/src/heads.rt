// How many parts the head of a checkpoint says, if the first request of a journal is one.
ghost use Rattle.std.specs.Prelude.{◌≡◌, IfOk};
ghost use Rattle.ts_checkpoint.specs.Loading.{parts_said};
ghost use Rattle.ts_checkpoint.specs.PartOf.{part_of};

use std::alloc::AllocError;
use ts_checkpoint::{Part, PartFault, read_part};
use ts_resp::Word;

// The number of words of a head.
const HEAD_WORDS: usize = 4;

// How many parts follow, if these words are the head of a checkpoint. Allocates no more than the words take.
pub(crate) fn parts_said(words: &Vec<Word>) -> Result<Option<u64>, AllocError>
    ensures { IfOk result (λ said. said ≡ parts_said (part_of words.now.items)) }
{
    if words.len() != HEAD_WORDS {
        return Ok(None);
    }
    match read_part(copied(words)?) {
        Ok(Part::Head(records)) => Ok(Some(records)),
        Ok(_) | Err(PartFault::Refused) => Ok(None),
        Err(PartFault::Memory(no_memory)) => Err(no_memory),
    }
}

// A copy of words.
fn copied(words: &Vec<Word>) -> Result<Vec<Word>, AllocError>
    ensures { IfOk result (λ copy. copy.items ≡ words.now.items) }
{
    let mut copy = Vec::new(*words.allocator());
    for word in words {
        copy.push(word.copy()?)?;
    }
    Ok(copy)
}
