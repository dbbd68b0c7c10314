//! Simulations from bytes to bytes: two texts are read, the scenario that they give is run, and its trace is written. And
//! the commands of the program, over any readers and writers.
#![tactic(auto)]

mod fault;
mod latency_file;
mod playing;
mod questions;
mod running;
mod session;
mod text_reader;

pub use chord_plan::{Engine, Plan, Split, Text};
pub use fault::PlayFault;
pub use latency_file::LatencyFile;
pub use playing::{load, play};
pub use questions::Question;
pub use session::{or_write_fault, run, tell};
// `play` runs a scenario by it. It is public so that a test can count the threads and see the parts.
#[doc(hidden)]
pub use running::run_planned;
