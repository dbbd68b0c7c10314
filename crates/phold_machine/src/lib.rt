//! PHOLD as a machine of the simulation kernel, and its scribe.
#![tactic(auto)]

mod phold;
mod scribe;

pub use phold::Phold;
pub use scribe::PholdScribe;
