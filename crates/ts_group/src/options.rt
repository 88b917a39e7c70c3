// How a reply shows its groups.
use ts_command::GroupBy;
use ts_labels::Show;

/// How a reply shows each group: its labels and its rows.
#[derive(Clone, Copy)]
pub struct GroupOptions<'a> {
    /// The label that forms the groups, and the reducer.
    pub by: &'a GroupBy,
    pub show: &'a Show,
    /// The maximum number of rows, if any.
    pub count: Option<u64>,
    /// Whether the newest row comes first.
    pub reverse: bool,
}
