//! The nodes of a world divided again between two windows, of any machine.
#![tactic(auto)]

mod events;
mod redivided;

pub use redivided::{divide_again, redivide};
