// The labels that a reply shows.
ghost use Rattle.std.specs.Prelude.{◌≡◌, ◌<◌, List, length, map, slice_get, Some};
ghost use Rattle.std.specs.Option.{option_copied};
ghost use Rattle.ts_spec.specs.Queries.{shown_label, picked_label};
ghost use Rattle.ts_spec.specs.Response.{ShownLabel};
ghost use Rattle.ts_multi.specs.Members.{label_of};

use ts_labels::{Labels, Show};
use ts_resp::Word;

/// A label of a reply. The value is `None` if the series lacks the label.
#[derive(Clone, Copy)]
pub struct ReplyLabel<'a> {
    pub name: &'a [u8],
    pub value: Option<&'a [u8]>,
}

/// A list of the labels that a reply shows.
pub trait ReplyLabelList {
    // The labels, in order.
    ghost shown: { Self → List ShownLabel };

    /// The number of labels.
    fn count(&self) -> usize
        ensures { result ≡ length (shown self.now) };

    /// The label at this index, counted from 0.
    fn label(&self, list_index: usize) -> ReplyLabel<'_>
        requires { list_index < length (shown self.now) }
        ensures { slice_get (shown self.now) list_index ≡ Some (label_of result) };
}

/// The labels of a series, with the client's choice of which to show.
#[derive(Clone, Copy)]
pub(crate) struct SeriesLabels<'a> {
    pub(crate) labels: &'a Labels,
    pub(crate) show: &'a Show,
}

impl ReplyLabelList for SeriesLabels<'_> {
    ghost use Rattle.ts_spec.specs.Queries.{labels_shown};
    ghost use Rattle.ts_labels.specs.Show.{show_of};

    ghost shown = { λ s. labels_shown (show_of s.show.now) s.labels.now };

    fn count(&self) -> usize {
        match self.show {
            Show::Nothing => 0,
            Show::All => self.labels.len(),
            Show::Selected(names) => names.len(),
        }
    }

    fn label(&self, list_index: usize) -> ReplyLabel<'_> {
        match self.show {
            Show::Nothing => unreachable!(),
            Show::All => label_at(self.labels, list_index),
            Show::Selected(names) => label_named(self.labels, &names[list_index]),
        }
    }
}

// The label at this index.
fn label_at(labels: &Labels, list_index: usize) -> ReplyLabel<'_>
    requires { list_index < length labels.now }
    ensures { slice_get (map shown_label labels.now) list_index ≡ Some (label_of result) }
{
    ReplyLabel {
        name: labels.label_at(list_index).bytes(),
        value: Some(labels.value_at(list_index).bytes()),
    }
}

// The label with this name, without a value if it is absent.
fn label_named<'a>(labels: &'a Labels, name: &'a Word) -> ReplyLabel<'a>
    ensures { label_of result ≡ picked_label labels.now name.now }
{
    ReplyLabel {
        name: name.bytes(),
        value: bytes_of(labels.get(name)),
    }
}

// The bytes of a word, if there is one.
fn bytes_of(word: Option<&Word>) -> Option<&[u8]>
    ensures { option_copied result ≡ option_copied word.entry }
{
    match word {
        None => None,
        Some(word) => Some(word.bytes()),
    }
}
