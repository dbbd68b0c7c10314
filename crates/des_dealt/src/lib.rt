//! The crew whose nodes are divided again before each window, of any machine.
#![tactic(auto)]

mod balanced;
mod dealer;
mod dealt_run;
mod loads;

pub use balanced::Balanced;
pub use dealer::Dealer;
pub use dealt_run::run_crew_dealt;
