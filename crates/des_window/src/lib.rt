//! The floor plan of runs by windows: how the nodes are divided into parts, where a window ends, and
//! how the scribes of the parts are joined.
#![tactic(auto)]

mod division;
mod joining;
mod opening;

pub use division::{Division, DivisionFault, MOST_PARTS};
pub use joining::join_all;
pub use opening::{Opening, horizon_from, sooner};
