//! The records of a checkpoint: the words of each, as a RESP request, and how they parse. A checkpoint is a head, and
//! then for each series a record with its options and one for each of its chunks, and then a record for each rule.
#![tactic(auto)]

mod check_laws;
mod commands;
mod draft;
mod fit;
mod journal_laws;
mod laws;
mod numbers;
mod part;
mod read;
mod read_rule;
mod read_series;
mod sayable;
mod write;

pub use check_laws::{checks_are_exact, new_rules_have_short_summaries, packed_chunks_unpack};
pub use fit::{encode_record, fits};
pub use journal_laws::{
    a_changed_byte_breaks_the_journal, a_checkpoint_restores, a_journal_grows_by_records,
    a_journal_without_a_checkpoint_loads_as_before, a_part_of_a_checkpoint_does_not_load,
    fronts_of_a_journal_load,
};
pub use laws::{a_changed_byte_is_refused, written_parts_read_back};
pub use part::{Part, PartFault, Piece, RuleRecord, SeriesHead};
pub use read::read_part;
pub use sayable::{piece_reads_back, rule_reads_back, series_head};
pub use write::{head_record, piece_record, rule_record, series_record};
