//! The engine that takes the pending events of any machine one at a time, in the order of time, origin
//! and number.
#![tactic(auto)]

mod engine;
mod run;

pub use run::run_serial;
