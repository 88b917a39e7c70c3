// Label filters.
ghost use Rattle.std.specs.Prelude.{◌≡◌, ◌+◌, List};
ghost use Rattle.std.specs.Option.{option_copied};
ghost use Rattle.ts_spec.specs.Filter.{holds, is_positive, has_positive, has_one_of};
ghost use Rattle.ts_spec.specs.FilterText.{filter_by};
ghost use Rattle.ts_spec.specs.State.{Label};
ghost use Rattle.ts_labels.specs.Filter.{label_of, required_values, values_of, kind_of};
ghost use Rattle.ts_labels.specs.Values.{AreAlike, AreOnce};

use crate::labels::Labels;
use crate::values::Values;
use std::cmp::Ordering;
use std::marker::Model;
use std::sync::ledger::Ledger;
use ts_resp::Word;
use ts_sample::Steps;

// The condition on the label.
#[derive(Debug, Drop)]
pub(crate) enum LabelCondition {
    // The label has one of these values.
    OneOf(Values),
    // The label is missing, or has none of these values.
    NoneOf(Values),
    Absent,
    Present,
}

/// A label filter, as in `FILTER` of TS.MRANGE: the label has one of some values, has none of them, is present, or is
/// missing.
#[derive(Debug, Drop)]
pub struct Filter {
    label: Word,
    asks: LabelCondition,
}

impl Model for Filter {
    ghost use Rattle.ts_spec.specs.Filter.{Filter as Asked};

    ghost Value = { Asked };

    ghost use Rattle.ts_labels.specs.LabelCondition.{filter_in};

    ghost view = { λ f. filter_in f.label f.asks };
}

impl Filter {
    // Builds a filter. Without values it tests only whether the label is present (or missing, if `positive`).
    pub(crate) fn by(positive: bool, label: Word, values: Values) -> Filter
        ensures { result ≡ filter_by positive label values }
    {
        let asks = match (positive, values.is_empty()) {
            (true, true) => LabelCondition::Absent,
            (true, false) => LabelCondition::OneOf(values),
            (false, true) => LabelCondition::Present,
            (false, false) => LabelCondition::NoneOf(values),
        };
        Filter { label, asks }
    }

    /// The label that the filter tests.
    pub fn label(&self) -> &Word
        ensures { result.now ≡ label_of self.now }
    {
        &self.label
    }

    /// The accepted values, as the filter names them. Empty for a filter that does not require a value.
    pub fn wanted(&self) -> &[Word]
        ensures { result.now ≡ required_values self.now }
    {
        match &self.asks {
            LabelCondition::OneOf(values) => values.as_slice(),
            _ => &[],
        }
    }

    /// The values that the filter names, each once.
    pub fn values(&self) -> &[Word]
        ensures alike { AreAlike result.now (values_of self.now) }
        ensures once { AreOnce result.now }
    {
        match &self.asks {
            LabelCondition::OneOf(values) => values.each_once(),
            LabelCondition::NoneOf(values) => values.each_once(),
            LabelCondition::Absent => &[],
            LabelCondition::Present => &[],
        }
    }

    // A number for each kind of condition.
    fn kind(&self) -> u8
        ensures { result ≡ kind_of self.now }
    {
        match &self.asks {
            LabelCondition::OneOf(_) => 0,
            LabelCondition::NoneOf(_) => 1,
            LabelCondition::Absent => 2,
            LabelCondition::Present => 3,
        }
    }

    /// Orders filters so that those that ask the same are equal: by label, by condition, and by values, whose order and
    /// repetitions do not count.
    pub fn compare(&self, other: &Filter) -> Ordering
        ensures { result ≡ Ordering.Equal → (labels : List Label) → holds self.now labels ≡ holds other.now labels }
    {
        match self.label().cmp(other.label()) {
            Ordering::Equal => (),
            different => return different,
        }
        match self.kind().cmp(&other.kind()) {
            Ordering::Equal => self.values().cmp(other.values()),
            different => different,
        }
    }

    /// Whether a series with these labels passes the filter. Counts one step.
    pub fn holds<L: Ledger>(&self, labels: &Labels, steps: &mut Steps<L>) -> bool
        ensures holds { result ≡ holds self.now labels.now }
        ensures steps { steps.new ≡ steps.old + 1 }
    {
        steps.tick();
        let value = labels.get(&self.label);
        match &self.asks {
            LabelCondition::OneOf(values) => has_one_of(values, value),
            LabelCondition::NoneOf(values) => !has_one_of(values, value),
            LabelCondition::Absent => value.is_none(),
            LabelCondition::Present => value.is_some(),
        }
    }

    /// Whether the filter requires a value, as `label=value` does.
    pub fn is_positive(&self) -> bool
        ensures { result ≡ is_positive self.now }
    {
        matches!(&self.asks, LabelCondition::OneOf(_))
    }
}

// Whether the label has one of these values.
fn has_one_of(values: &Values, value: Option<&Word>) -> bool
    ensures { result ≡ has_one_of values.now (option_copied value.entry) }
{
    let Some(value) = value else {
        return false;
    };
    values.contains(value)
}

/// Whether at least one filter requires a value. Queries without such a filter are rejected.
pub fn has_positive(filters: &[Filter]) -> bool
    ensures { result ≡ has_positive filters.now }
{
    for filter in filters {
        if filter.is_positive() {
            return true;
        }
    }
    false
}
