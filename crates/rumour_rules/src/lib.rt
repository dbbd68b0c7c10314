//! The rules of a rumour that spreads: the example of docs/kernel.md.
#![tactic(auto)]

mod report;
mod rules;
mod settings;

pub use report::Report;
pub use rules::{Node, Rumour, Told, hear, start, start_states};
pub use settings::Settings;
