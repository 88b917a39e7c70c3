// An iterator over the posting lists of several values.
ghost use Rattle.std.specs.Prelude.{◌≡◌, ◌≤◌, [], ◌++◌, length, drop};
ghost use Rattle.std.specs.Iterator.{YieldsFirst};
ghost use Rattle.ts_index.specs.Candidates.{postings};

use crate::index::Index;
use std::marker::Model;
use ts_resp::Word;
use ts_sample::Id;

// The ids of the posting lists of these values, one list after another.
#[derive(Drop)]
pub(crate) struct PostingList<'a> {
    index: &'a Index,
    label: &'a Word,
    values: &'a [Word],
    // How many values have been visited.
    passed: usize,
    // The rest of the posting list of the last visited value.
    list: &'a [Id],
}

impl<'a> Model for PostingList<'a> {
    ghost use Rattle.std.specs.Prelude.{List, ◌++◌, ◌≤◌, length, drop};
    ghost use Rattle.ts_sample.specs.declared.sample.Id.{Id as Number};
    ghost use Rattle.ts_index.specs.Candidates.{postings};

    ghost Value = { List Number };

    ghost view = { λ l. l.list.now ++ postings l.label.now (drop l.passed l.values.now) l.index.now };

    ghost invariant = { λ l. l.passed ≤ length l.values.now };
}

impl<'a> PostingList<'a> {
    // The posting lists of these values.
    pub(crate) fn new(index: &'a Index, label: &'a Word, values: &'a [Word]) -> PostingList<'a>
        ensures { result ≡ postings label.now values.now index.now }
    {
        PostingList {
            index,
            label,
            values,
            passed: 0,
            list: &[],
        }
    }

    // The next id.
    pub(crate) fn next(&mut self) -> Option<Id>
        ensures { YieldsFirst (λ l. l) self.old result self.new }
    {
        self.list = next_posting(
            self.list,
            self.index,
            self.label,
            self.values,
            &mut self.passed,
        );
        match self.list.split_first() {
            Some((first, others)) => {
                self.list = others;
                Some(*first)
            }
            None => None,
        }
    }
}

// Returns `list` if it is not empty, or else the next posting list that is not empty.
fn next_posting<'a>(
    list: &'a [Id],
    index: &'a Index,
    label: &Word,
    values: &[Word],
    passed: &mut usize,
) -> &'a [Id]
    requires passed { passed.old ≤ length values.now }
    ensures passed { passed.new ≤ length values.now }
    ensures left { result.now ++ postings label.now (drop passed.new values.now) index.now
        ≡ list.now ++ postings label.now (drop passed.old values.now) index.now }
    ensures all { result.now ≡ [] → postings label.now (drop passed.new values.now) index.now ≡ [] }
{
    let mut found = list;
    while found.is_empty() && *passed < values.len() {
        found = index.posting(label, &values[*passed]);
        *passed += 1;
    }
    found
}
