// The labels of a series.
ghost use Rattle.std.specs.Prelude.{◌≡◌, ◌<◌, ◌^◌, ◌↔◌, [], length, slice_get, option_map, Some, IsTrue, IfOk, OnOk};
ghost use Rattle.std.specs.Prelude.{OnErr};
ghost use Rattle.std.specs.Option.{option_copied};
ghost use Rattle.ts_spec.specs.Filter.{value_of};
ghost use Rattle.ts_spec.specs.Labels.{with_label};
ghost use Rattle.ts_labels.specs.Labels.{AreDistinct, labelled};

use crate::pairs::Pairs;
use std::alloc::{AllocError, Global};
use std::marker::Model;
use std::rc::Rc;
use ts_resp::Word;

/// Labels and their values, in the order in which they were first set. Label names are unique. Copies share storage
/// until one of them changes.
#[derive(Debug, Drop)]
pub struct Labels {
    alloc: Global,
    pairs: Option<Rc<Pairs>>,
}

impl Model for Labels {
    ghost use Rattle.std.specs.Prelude.{List, option_map};
    ghost use Rattle.ts_spec.specs.State.{Label};
    ghost use Rattle.ts_labels.specs.Labels.{labels_there};

    ghost Value = { List Label };

    ghost view = { λ l. labels_there (option_map (λ pairs. pairs.value) l.pairs) };
}

impl Labels {
    /// No labels. Allocates nothing.
    pub fn new(alloc: Global) -> Labels
        ensures { result ≡ [] }
    {
        Labels { alloc, pairs: None }
    }

    /// No labels, with capacity for `labels` labels (at most a few are reserved).
    pub fn with_capacity(alloc: Global, labels: usize) -> Result<Labels, AllocError>
        ensures { IfOk result (λ labels. labels ≡ []) }
    {
        if labels == 0 {
            return Ok(Labels::new(alloc));
        }
        let pairs = Rc::new(alloc, Pairs::with_capacity(alloc, labels)?)?;
        Ok(Labels {
            alloc,
            pairs: Some(pairs),
        })
    }

    /// Sets the value of a label. An existing label keeps its position.
    pub fn set(&mut self, label: Word, value: Word) -> Result<(), AllocError>
        ensures ok { OnOk result (self.new ≡ with_label (labelled label value) self.old) }
        ensures err { OnErr result (self.new ≡ self.old) }
    {
        if let Some(shared) = &mut self.pairs
            && let Some(pairs) = Rc::get_mut(shared)
        {
            return pairs.set(self.alloc, label, value);
        }
        let mut pairs = self.deep_copy()?;
        pairs.set(self.alloc, label, value)?;
        self.pairs = Some(Rc::new(self.alloc, pairs)?);
        Ok(())
    }

    // A copy that shares no storage.
    fn deep_copy(&self) -> Result<Pairs, AllocError>
        ensures { IfOk result (λ pairs. pairs ≡ self.now) }
    {
        self.known();
        let mut deep_copy = Pairs::with_capacity(self.alloc, self.len() + 1)?;
        for i in 0..self.len() {
            deep_copy.set(
                self.alloc,
                self.label_at(i).copy()?,
                self.value_at(i).copy()?,
            )?;
        }
        Ok(deep_copy)
    }

    /// A copy that shares storage. Allocates nothing. Fails if too many copies share it already.
    pub fn copy(&self) -> Result<Labels, AllocError>
        ensures { IfOk result (λ labels. labels ≡ self.now) }
    {
        let pairs = match &self.pairs {
            None => None,
            Some(shared) => Some(shared.clone()?),
        };
        Ok(Labels {
            alloc: self.alloc,
            pairs,
        })
    }

    /// The value of a label, if present.
    pub fn get(&self, label: &Word) -> Option<&Word>
        ensures { option_copied result ≡ value_of label.now self.now }
    {
        match &self.pairs {
            None => None,
            Some(pairs) => pairs.get(label),
        }
    }

    /// The number of labels.
    pub fn len(&self) -> usize
        ensures len { result ≡ length self.now }
        ensures small { result < 2 ^ 63 }
    {
        match &self.pairs {
            None => 0,
            Some(pairs) => pairs.len(),
        }
    }

    /// Whether there are no labels.
    pub fn is_empty(&self) -> bool
        ensures { IsTrue result ↔ (self.now ≡ []) }
    {
        self.len() == 0
    }

    /// The name of the label at index `i`.
    pub fn label_at(&self, i: usize) -> &Word
        requires { i < length self.now }
        ensures { option_map (λ l. l.name) (slice_get self.now i) ≡ Some result.now }
    {
        self.pair_at(i).0
    }

    /// The value of the label at index `i`.
    pub fn value_at(&self, i: usize) -> &Word
        requires { i < length self.now }
        ensures { option_map (λ l. l.value) (slice_get self.now i) ≡ Some result.now }
    {
        self.pair_at(i).1
    }

    // The name and value of the label at index `i`.
    fn pair_at(&self, i: usize) -> (&Word, &Word)
        requires { i < length self.now }
        ensures { slice_get self.now i ≡ Some (labelled result.0.now result.1.now) }
    {
        match &self.pairs {
            None => unreachable!(),
            Some(pairs) => pairs.pair_at(i),
        }
    }

    /// Lemma for callers: label names are unique. Does nothing.
    pub fn known(&self)
        ensures { AreDistinct self.now }
    {
        if let Some(pairs) = &self.pairs {
            let _len = pairs.len();
        }
    }
}

/// Which labels a reply over many series shows.
#[derive(Debug, Drop)]
pub enum Show {
    /// No labels.
    Nothing,
    /// All labels of each series.
    All,
    /// These labels, even those that a series does not have (SELECTED_LABELS).
    Selected(Vec<Word>),
}
