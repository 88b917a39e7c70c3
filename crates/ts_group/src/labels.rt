// The labels of a group.
ghost use Rattle.std.specs.Prelude.{◌≡◌, ◌<◌, slice_get, option_map, Some};
ghost use Rattle.std.specs.Option.{option_copied};
ghost use Rattle.ts_spec.specs.Aggregate.{aggregator_of};
ghost use Rattle.ts_spec.specs.Filter.{value_of};
ghost use Rattle.ts_spec.specs.Queries.{picked_label};
ghost use Rattle.ts_spec.specs.Replies.{aggregator_name};
ghost use Rattle.ts_labels.specs.declared.labels.Show.TheVariants as which;
ghost use Rattle.ts_multi.specs.Members.{label_of};
ghost use Rattle.ts_group.specs.Labels.{labels_of, shown_of};

use ts_agg::{Reducer, aggregator_of, name};
use ts_labels::Show;
use ts_multi::{ReplyLabel, ReplyLabelList};

// The names of the labels for the reducer and the source keys.
const REDUCER: &[u8] = b"__reducer__";

const SOURCE: &[u8] = b"__source__";

/// The labels of a group. A client may use one of the reserved names for its own label.
#[derive(Clone, Copy)]
pub struct GroupLabels<'a> {
    /// The name of the label that forms the groups.
    pub label: &'a [u8],
    pub value: &'a [u8],
    pub reducer: Reducer,
    /// The keys of its series, in order, separated by commas.
    pub sources: &'a [u8],
}

// The labels of a group, with the client's choice of which to show.
#[derive(Clone, Copy)]
pub(crate) struct LabelsShown<'a> {
    pub(crate) labels: GroupLabels<'a>,
    pub(crate) show: &'a Show,
}

impl ReplyLabelList for LabelsShown<'_> {
    ghost shown = { λ s. shown_of s.show.now s.labels };

    fn count(&self) -> usize {
        match self.show {
            Show::Nothing => 0,
            Show::All => 3,
            Show::Selected(names) => names.len(),
        }
    }

    fn label(&self, list_index: usize) -> ReplyLabel<'_> {
        match self.show {
            Show::Nothing => unreachable!(),
            Show::All => self.labels.label_at(list_index),
            Show::Selected(names) => self.labels.label_named_by(names[list_index].bytes()),
        }
    }
}

impl<'a> GroupLabels<'a> {
    // The label at this index: 0 to 2.
    fn label_at(&self, list_index: usize) -> ReplyLabel<'a>
        requires { list_index < 3 }
        ensures { slice_get (shown_of which.All self.now) list_index ≡ Some (label_of result) }
    {
        ReplyLabel {
            name: self.name_at(list_index),
            value: Some(self.value_at(list_index)),
        }
    }

    // Its name.
    fn name_at(&self, list_index: usize) -> &'a [u8]
        requires { list_index < 3 }
        ensures { option_map (λ l. l.name) (slice_get (labels_of self.now) list_index) ≡ Some result.now }
    {
        if list_index == 0 {
            return self.label;
        }
        if list_index == 1 {
            return REDUCER;
        }
        SOURCE
    }

    // Its value.
    fn value_at(&self, list_index: usize) -> &'a [u8]
        requires { list_index < 3 }
        ensures { option_map (λ l. l.value) (slice_get (labels_of self.now) list_index) ≡ Some result.now }
    {
        if list_index == 0 {
            return self.value;
        }
        if list_index == 1 {
            return self.reducer_name();
        }
        self.sources
    }

    // The label with this name, without a value if it is absent.
    fn label_named_by(&self, name: &'a [u8]) -> ReplyLabel<'a>
        ensures { label_of result ≡ picked_label (labels_of self.now) name.now }
    {
        ReplyLabel {
            name,
            value: self.get(name),
        }
    }

    // The value of a label, if the group has it.
    fn get(&self, name: &[u8]) -> Option<&'a [u8]>
        ensures { option_copied result ≡ value_of name.now (labels_of self.now) }
    {
        if self.label == name {
            return Some(self.value);
        }
        if REDUCER == name {
            return Some(self.reducer_name());
        }
        if SOURCE == name {
            return Some(self.sources);
        }
        None
    }

    // The name of the reducer, as RedisTimeSeries spells it.
    fn reducer_name(&self) -> &'static [u8]
        ensures { result.now ≡ aggregator_name (aggregator_of self.now.reducer) }
    {
        name(aggregator_of(self.reducer)).as_bytes()
    }
}
