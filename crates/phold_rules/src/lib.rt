//! The rules of PHOLD, the benchmark of parallel discrete-event simulation (Fujimoto 1990): jobs wander
//! between nodes.
#![tactic(auto)]

mod hop;
mod report;
mod rules;
mod settings;

pub use hop::Hop;
pub use report::PholdReport;
pub use rules::{Job, Node, send_on, start_events, start_states};
pub use settings::Settings;
