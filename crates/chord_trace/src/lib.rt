//! What a run leaves: the text of a trace, the tally of its events and audits, and the report.
#![tactic(auto)]

mod audit_counts;
mod audit_text;
mod block_text;
mod found_lookups;
mod line_counts;
mod lookup_times;
mod merging;
mod piece;
mod report;
mod tally;

pub use audit_counts::AuditCounts;
pub use audit_text::write_audit;
pub use block_text::write_block;
pub use line_counts::LineCounts;
pub use merging::merge_blocks;
pub use piece::Piece;
pub use report::{Report, reports_are_unique, reports_need_no_order};
pub use tally::Tally;
// They know nothing of Chord, and stand in a crate of their own.
pub use des_output::{Watched, write_text};
