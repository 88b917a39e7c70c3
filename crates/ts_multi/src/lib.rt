//! Builds the replies to TS.MRANGE, TS.MREVRANGE and TS.MGET.
#![tactic(auto)]

mod member_texts;
mod replies;
mod shown;

pub use member_texts::{encode_head, encode_last_member, encode_member, encode_rows};
pub use replies::{Member, member_reply, multi, multi_last};
pub use shown::{ReplyLabel, ReplyLabelList};
pub use ts_labels::Show;
