// A group while its series are added, and the keys of these, separated by commas.
ghost use Rattle.std.specs.Prelude.{◌≡◌, ◌++◌, List, [], ◌∷◌, map, OnOk, if◌then◌else◌, codes};
ghost use Rattle.ts_spec.specs.Answer.{Row as TheRow};
ghost use Rattle.ts_spec.specs.Groups.{Labelled, group};
ghost use Rattle.ts_spec.specs.Key.{Key};
ghost use Rattle.ts_labels.specs.Show.{show_of};
ghost use Rattle.ts_range.specs.Query.{row_of};
ghost use Rattle.ts_command.specs.GroupBy.{group_of};
ghost use Rattle.ts_group.specs.Grouped.{grouped, reduction_of, labelled_of};
ghost use Rattle.ts_group.specs.Labels.{member_with};
ghost use Rattle.ts_group.specs.Sources.{joined, sources_text};

use crate::labels::GroupLabels;
use crate::options::GroupOptions;
use crate::reduction::Reduction;
use crate::rows::GroupRows;
use std::alloc::{AllocError, Global};
use std::marker::Model;
use ts_labels::Show;
use ts_multi::Member;
use ts_range::{Row, RowSink};
use ts_resp::Word;

/// The keys of the series in a group so far, and their reduced rows.
#[derive(Drop)]
pub struct Group {
    pub(crate) sources: Sources,
    pub(crate) reduction: Reduction,
}

impl Group {
    /// An empty group. Allocates nothing.
    pub fn new(alloc: Global) -> Group
        ensures { result ≡ grouped [] }
    {
        Group {
            sources: Sources::new(alloc),
            reduction: Reduction::new(alloc),
        }
    }

    // Adds a series. After an `Err` the group may have part of it.
    pub(crate) fn add(&mut self, member: &Member) -> Result<(), AllocError>
        ensures { OnOk result ((ms : List Labelled) → self.old ≡ grouped ms
            → self.new ≡ grouped (ms ++ labelled_of member.now ∷ [])) }
    {
        self.add_rows(member.key.bytes(), &member.rows)
    }

    /// Adds a series by its key and its rows. After an `Err` the group may have part of it.
    pub fn add_rows(&mut self, key: &[u8], rows: &[Row]) -> Result<(), AllocError>
        ensures { OnOk result ((ms : List Labelled) (m : Labelled) → m.key ≡ key.now → m.rows ≡ map row_of rows.now
            → self.old ≡ grouped ms
            → self.new ≡ grouped (ms ++ m ∷ [])) }
    {
        self.sources.add(key)?;
        accept_rows(&mut self.reduction, rows)
    }

    // The labels and rows that a reply shows for this group, where its series have this value of the label.
    pub(crate) fn reply_parts<'a>(
        &'a self,
        value: &'a Word,
        options: &GroupOptions<'a>,
    ) -> (GroupLabels<'a>, GroupRows<'a>)
        ensures { (show : Show) (ms : List Labelled) → self.now ≡ grouped ms
            → member_with show result.0 result.1
            ≡ group (group_of options.now.by.now) (show_of show) options.now.count options.now.reverse value.now ms }
    {
        let by = options.by;
        let labels = GroupLabels {
            label: by.label.bytes(),
            value: value.bytes(),
            reducer: by.reducer,
            sources: self.sources.bytes(),
        };
        let rows = self
            .reduction
            .rows(by.reducer, options.count, options.reverse);
        (labels, rows)
    }
}

// Accepts all rows. Fails if memory runs out.
fn accept_rows(reduction: &mut Reduction, rows: &[Row]) -> Result<(), AllocError>
    ensures { OnOk result ((before : List TheRow) → reduction.old ≡ reduction_of before
        → reduction.new ≡ reduction_of (before ++ map row_of rows.now)) }
{
    for row in rows {
        reduction.row(*row);
    }
    if reduction.is_lost() {
        return Err(AllocError);
    }
    Ok(())
}

/// The keys added so far, separated by commas. A key may be empty.
#[derive(Drop)]
pub struct Sources {
    text: Vec<u8>,
    // Whether there is a key.
    some: bool,
}

impl Model for Sources {
    ghost use Rattle.ts_group.specs.Sources.{SourcesText};

    ghost Value = { SourcesText };

    ghost view = { λ s. record { some = s.some; text = s.text.items } };
}

impl Sources {
    /// No key yet. Allocates nothing.
    pub fn new(alloc: Global) -> Sources
        ensures { result ≡ sources_text [] }
    {
        Sources {
            text: Vec::new(alloc),
            some: false,
        }
    }

    /// Appends a key. After an `Err` the text may end in part of it.
    pub fn add(&mut self, key: &[u8]) -> Result<(), AllocError>
        ensures { OnOk result ((keys : List Key) → self.old ≡ sources_text keys
            → self.new ≡ sources_text (keys ++ key.now ∷ [])) }
    {
        add_after(&mut self.text, self.some, key)?;
        self.some = true;
        Ok(())
    }

    /// The text of the keys.
    pub fn bytes(&self) -> &[u8]
        ensures { (keys : List Key) → self.now ≡ sources_text keys → result.now ≡ joined keys }
    {
        &self.text
    }
}

// Appends a key, with a comma before it unless it is the first.
fn add_after(text: &mut Vec<u8>, some: bool, key: &[u8]) -> Result<(), AllocError>
    ensures { OnOk result (text.new.items ≡ text.old.items ++ (if some then codes "," else []) ++ key.now) }
{
    if some {
        text.push(b',')?;
        return text.extend_from_slice(key);
    }
    text.extend_from_slice(key)
}
