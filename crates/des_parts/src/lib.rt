//! The engine by windows, of any machine: each part of the nodes runs its events up to a horizon
//! independently.
#![tactic(auto)]

mod copies;
mod engine;
mod entries;
mod exchanging;
mod part_order;
mod part_run;
mod window;
mod world;

pub use copies::{CopiesStates, Touched};
pub use entries::Entry;
pub use exchanging::exchange;
pub use part_order::in_part_order;
pub use part_run::{Done, run_part};
pub use window::Window;
pub use world::World;
// Other ways to run windows, such as a crew, go by these, and so do divisions of a world. Contracts
// name the types of the engine's fields.
#[doc(hidden)]
pub use copies::Copies;
#[doc(hidden)]
pub use engine::WindowEngine;
#[doc(hidden)]
pub use part_order::{empty_slots, take_out};
#[doc(hidden)]
pub use part_run::PartRun;
#[doc(hidden)]
pub use world::{PartEvents, empty_parts, expect_division, fill_parts};
