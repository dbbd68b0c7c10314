//! The output of a run: writers that remember failures, texts that are written to them, and which of
//! two faults is reported.
#![tactic(auto)]

mod faults;
mod watched;
mod writing;

pub use faults::graver;
pub use watched::Watched;
pub use writing::write_text;
