//! What a simulation is asked to do: its plan, and the names of the two texts that it reads.
#![tactic(auto)]

mod plan;
mod text;

pub use plan::{Engine, Plan, Split};
pub use text::Text;
