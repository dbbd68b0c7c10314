//! The run by windows on one thread, of any machine: its workers take their steps in turn.
#![tactic(auto)]

mod picked_run;
mod picked_window;
mod step;
mod worker;

pub use picked_run::{Turns, run_picked};
pub use step::{Step, Taken};
// Contracts name the types of a picked window's fields.
#[doc(hidden)]
pub use picked_window::PickedWindow;
#[doc(hidden)]
pub use worker::{Progress, Worker};
