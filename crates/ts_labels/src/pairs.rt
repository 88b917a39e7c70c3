// Storage of labels and their values.
ghost use Rattle.std.specs.Prelude.{◌≡◌, ◌<◌, ◌^◌, [], length, slice_get, option_map, Some, IfOk, IfSome, IfNone, OnOk};
ghost use Rattle.std.specs.Prelude.{OnErr, None};
ghost use Rattle.std.specs.Option.{option_copied};
ghost use Rattle.ts_spec.specs.Filter.{value_of};
ghost use Rattle.ts_spec.specs.Labels.{with_label};
ghost use Rattle.ts_labels.specs.Labels.{AreDistinct, labelled, labels_in};

use indexmap::IndexMap;
use std::alloc::{AllocError, Global};
use std::marker::Model;
use std::mem::replace;
use ts_resp::Word;

// Up to this many labels are stored in a list and searched linearly.
const MAX_LINEAR: usize = 8;

// A list if there are few labels, a hash map otherwise.
#[derive(Debug, Drop)]
enum Storage {
    Few(Vec<(Word, Word)>),
    Many(IndexMap<Word, Word>),
}

// Labels and their values, in the order in which they were first set. Label names are unique.
#[derive(Debug, Drop)]
pub(crate) struct Pairs {
    held: Storage,
}

impl Model for Pairs {
    ghost use Rattle.std.specs.Prelude.{List};
    ghost use Rattle.ts_spec.specs.State.{Label};
    ghost use Rattle.ts_labels.specs.Labels.{AreDistinct};
    ghost use Rattle.ts_labels.specs.Pairs.{pairs_in};

    ghost Value = { List Label };

    ghost view = { λ p. pairs_in p.held };

    ghost invariant = { λ p. AreDistinct (pairs_in p.held) };
}

impl Pairs {
    // No labels, with capacity for `pairs` labels (at most `MAX_LINEAR` are reserved).
    pub(crate) fn with_capacity(alloc: Global, pairs: usize) -> Result<Pairs, AllocError>
        ensures { IfOk result (λ pairs. pairs ≡ []) }
    {
        let few = Vec::with_capacity(alloc, pairs.min(MAX_LINEAR))?;
        Ok(Pairs {
            held: Storage::Few(few),
        })
    }

    // Sets the value of a label. An existing label keeps its position.
    #[tactic(auto, using(crate::proofs::LabelLemmas::inserted_label))]
    pub(crate) fn set(&mut self, alloc: Global, label: Word, value: Word) -> Result<(), AllocError>
        ensures ok { OnOk result (self.new ≡ with_label (labelled label value) self.old) }
        ensures err { OnErr result (self.new ≡ self.old) }
    {
        match &mut self.held {
            Storage::Many(map) => {
                map.insert(label, value)?;
            }
            Storage::Few(pairs) => {
                if pairs.len() < MAX_LINEAR {
                    return set_few(pairs, label, value);
                }
                let mut map = hashed(alloc, pairs.as_slice())?;
                map.insert(label, value)?;
                self.held = Storage::Many(map);
            }
        }
        Ok(())
    }

    // The value of a label, if present.
    pub(crate) fn get(&self, label: &Word) -> Option<&Word>
        ensures { option_copied result ≡ value_of label.now self.now }
    {
        match &self.held {
            Storage::Many(map) => map.get(label),
            Storage::Few(pairs) => match index_of(pairs.as_slice(), label) {
                Some(place) => Some(&pairs[place].1),
                None => None,
            },
        }
    }

    // The number of labels.
    pub(crate) fn len(&self) -> usize
        ensures len { result ≡ length self.now }
        ensures small { result < 2 ^ 63 }
        ensures distinct { AreDistinct self.now }
    {
        match &self.held {
            Storage::Many(map) => map.len(),
            Storage::Few(pairs) => pairs.len(),
        }
    }

    // The name and value of the label at index `i`.
    pub(crate) fn pair_at(&self, i: usize) -> (&Word, &Word)
        requires { i < length self.now }
        ensures { slice_get self.now i ≡ Some (labelled result.0.now result.1.now) }
    {
        match &self.held {
            Storage::Many(map) => map.get_index(i).unwrap(),
            Storage::Few(pairs) => (&pairs[i].0, &pairs[i].1),
        }
    }
}

// The index of a label in the list.
fn index_of(pairs: &[(Word, Word)], label: &Word) -> Option<usize>
    ensures place { IfSome result (λ i. option_map (λ l. l.name) (slice_get (labels_in pairs.now) i) ≡ Some label.now) }
    ensures within { IfSome result (λ i. i < length pairs.now) }
    ensures value { IfSome result (λ i. option_map (λ l. l.value) (slice_get (labels_in pairs.now) i)
        ≡ value_of label.now (labels_in pairs.now)) }
    ensures absent { IfNone result (value_of label.now (labels_in pairs.now) ≡ None) }
{
    for (place, pair) in pairs.iter().enumerate() {
        if pair.0 == *label {
            return Some(place);
        }
    }
    None
}

// Sets the value of a label in the list.
fn set_few(pairs: &mut Vec<(Word, Word)>, label: Word, value: Word) -> Result<(), AllocError>
    requires { AreDistinct (labels_in pairs.old.items) }
    ensures ok { OnOk result (labels_in pairs.new.items
        ≡ with_label (labelled label value) (labels_in pairs.old.items)) }
    ensures err { OnErr result (pairs.new.items ≡ pairs.old.items) }
    ensures distinct { AreDistinct (labels_in pairs.new.items) }
{
    match index_of(pairs.as_slice(), &label) {
        Some(place) => {
            let _old = replace(&mut pairs[place], (label, value));
            Ok(())
        }
        None => {
            pairs.reserve_exact(1)?;
            pairs.push_reserved((label, value));
            Ok(())
        }
    }
}

// A hash map with copies of these labels.
fn hashed(alloc: Global, pairs: &[(Word, Word)]) -> Result<IndexMap<Word, Word>, AllocError>
    requires { AreDistinct (labels_in pairs.now) }
    ensures { IfOk result (λ map. labels_in map.entries ≡ labels_in pairs.now) }
{
    let mut map = IndexMap::with_capacity(alloc, pairs.len() + 1)?;
    for i in 0..pairs.len() {
        map.insert(pairs[i].0.copy()?, pairs[i].1.copy()?)?;
    }
    Ok(map)
}
