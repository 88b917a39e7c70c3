// The series that might pass a query's filters.
ghost use Rattle.std.specs.Prelude.{◌≡◌, ◌≤◌, true, length, map};
ghost use Rattle.std.specs.Iterator.{YieldsFirst, item_count};
ghost use Rattle.std.specs.Map.{keys_of};
ghost use Rattle.ts_spec.specs.Filter.{holds, is_positive};
ghost use Rattle.ts_index.specs.Bounds.{candidates, fewest};
ghost use Rattle.ts_index.specs.Candidates.{AreApart, AreLive, Covers};
ghost use Rattle.ts_index.specs.Selecting.{AreSelected};
ghost use Rattle.ts_index.specs.Source.{as_id};

use crate::index::Index;
use crate::posting_list::PostingList;
use std::collections::btree_map::Keys;
use std::marker::Model;
use ts_labels::{Filter, Labels};
use ts_sample::Id;

// Where the candidates come from.
#[derive(Drop)]
enum Source<'a> {
    // All series.
    All(Keys<'a, usize, Labels>),
    // The series that have one of the values that a filter requires.
    ByValue(PostingList<'a>),
}

/// An iterator over candidate series ids. Contracts see it as the list of the remaining ids.
#[derive(Drop)]
pub struct Candidates<'a> {
    source: Source<'a>,
}

impl<'a> Model for Candidates<'a> {
    ghost use Rattle.std.specs.Prelude.{List};
    ghost use Rattle.ts_sample.specs.declared.sample.Id.{Id as Number};

    ghost Value = { List Number };

    ghost use Rattle.ts_index.specs.Source.{ids_left};

    ghost view = { λ c. ids_left c.source };
}

impl<'a> Iterator for Candidates<'a> {
    type Item = Id;

    ghost next_gives = { YieldsFirst (λ numbers. numbers) };

    ghost remaining = { item_count (λ numbers. numbers) };

    fn next(&mut self) -> Option<Id> {
        match &mut self.source {
            Source::All(numbers) => {
                let number = numbers.next()?;
                Some(Id(*number))
            }
            Source::ByValue(numbers) => numbers.next(),
        }
    }
}

impl Index {
    /// The series that might pass all filters: the posting lists of the most selective filter that requires a value,
    /// or all series if no filter does. Allocates nothing.
    pub fn candidates<'a>(&'a self, filters: &'a [Filter]) -> Candidates<'a>
        ensures live { AreLive self.now result }
        ensures once { AreApart result }
        ensures covers { Covers self.now filters.now result }
        ensures few { length result ≤ fewest self.now filters.now }
    {
        self.known();
        match self.most_selective(filters) {
            Some(filter) => by_value(self, filter),
            None => all(self),
        }
    }
}

// The series that have one of the values that the filter requires: exactly those that pass it.
pub(crate) fn by_value<'a>(index: &'a Index, filter: &'a Filter) -> Candidates<'a>
    requires positive { is_positive filter.now ≡ true }
    ensures selected { AreSelected (holds filter.now) index.now result }
    ensures count { length result ≡ candidates index.now filter.now }
{
    index.known();
    Candidates {
        source: Source::ByValue(PostingList::new(index, filter.label(), filter.values())),
    }
}

// All series.
fn all(index: &Index) -> Candidates<'_>
    ensures { result ≡ map as_id (keys_of index.now) }
{
    Candidates {
        source: Source::All(index.labels.keys()),
    }
}
