//! The run by windows: each part of the nodes runs its events up to a horizon independently. It is the
//! kernel's, for Chord.
#![tactic(auto)]

mod exchanging;
mod part_done;
mod part_run;
mod picked_run;
mod window;
mod world;

pub use des_picks::{Step, Taken};
pub use des_window::{Division, DivisionFault, MOST_PARTS};
pub use exchanging::exchange;
pub use part_done::Done;
pub use part_run::run_part;
pub use picked_run::run_picked;
pub use window::Window;
pub use world::World;
