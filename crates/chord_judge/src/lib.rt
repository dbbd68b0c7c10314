//! The judge of lookups: what became of each lookup of a run, by the lines of its trace.
#![tactic(auto)]

mod askers;
mod counts;
mod digest;
mod digested;
mod judge;
mod laws;
mod lines;
mod members;
mod names;
mod open;
mod places;
mod row;
mod stream;
mod table;
mod told;
mod words;

pub use digest::{Digest, edges_in};
pub use digested::Digested;
pub use judge::{Judge, JudgeFault};
pub use laws::{
    accepted_runs_are_judged_as_written, accepted_scenarios_have_plain_names,
    each_lookup_has_a_row, lines_are_read_as_written, right_owners_are_unique,
    right_owners_pass_the_test_alone, traces_are_judged_as_written, traces_are_readable,
};
pub use lines::{Kind, Said};
pub use row::{Answer, End, Lookup, Row};
pub use stream::{TableFault, judge_trace};
pub use told::Told;
