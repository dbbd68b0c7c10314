//! The command line of the program: the order that its arguments give, as clap reads them.
#![tactic(auto)]

mod commands;
mod order;
mod process;
mod words;

pub use order::{Files, Judging, Order};
pub use process::read_process;
pub use words::{WordFault, read_words};
