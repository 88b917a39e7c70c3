// The values of a filter.
ghost use Rattle.std.specs.Prelude.{◌≡◌, ◌↔◌, ℕ, List, [], IsTrue, IfOk};
ghost use Rattle.ts_spec.specs.Filter.{is_one_of};
ghost use Rattle.ts_labels.specs.Values.{AreOnce, AreAlike};

use std::alloc::{AllocError, Global};
use std::cmp::Ordering;
use std::marker::Model;
use ts_resp::Word;

// The values of a filter, as it names them. A copy without repetitions, in ascending order, is searched.
#[derive(Debug, Drop)]
pub(crate) struct Values {
    named: Vec<Word>,
    sorted: Vec<Word>,
}

impl Model for Values {
    ghost use Rattle.std.specs.Prelude.{List, ℕ};
    ghost use Rattle.ts_labels.specs.Values.{AreSorted};

    ghost Value = { List (List ℕ) };

    ghost view = { λ v. v.named.items };

    ghost invariant = { λ v. AreSorted v.named.items v.sorted.items };
}

impl Values {
    // Sorts a copy of the values.
    pub(crate) fn new(alloc: Global, named: Vec<Word>) -> Result<Values, AllocError>
        ensures { IfOk result (λ values. values ≡ named.items) }
    {
        let mut sorted = copies(alloc, named.as_slice())?;
        sorted.sort_unstable();
        sorted.dedup();
        Ok(Values { named, sorted })
    }

    // Whether there are no values.
    pub(crate) fn is_empty(&self) -> bool
        ensures { IsTrue result ↔ (self.now ≡ []) }
    {
        self.named.is_empty()
    }

    // The values as they were named.
    pub(crate) fn as_slice(&self) -> &[Word]
        ensures { result.now ≡ self.now }
    {
        self.named.as_slice()
    }

    // Whether a value is one of these.
    pub(crate) fn contains(&self, value: &Word) -> bool
        ensures { result ≡ is_one_of self.now value.now }
    {
        self.sorted.binary_search(value).is_ok()
    }

    // Each value once.
    pub(crate) fn each_once(&self) -> &[Word]
        ensures alike { AreAlike result.now self.now }
        ensures once { AreOnce result.now }
    {
        self.sorted.as_slice()
    }
}

// Copies of these values.
fn copies(alloc: Global, values: &[Word]) -> Result<Vec<Word>, AllocError>
    ensures { IfOk result (λ copies. copies.items ≡ values.now) }
{
    let mut copies = Vec::with_capacity(alloc, values.len())?;
    for value in values {
        copies.push(value.copy()?)?;
    }
    Ok(copies)
}
