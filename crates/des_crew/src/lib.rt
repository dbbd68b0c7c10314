//! The crew: workers that draw the parts of a window and run them, each in its own thread, of any
//! machine.
#![tactic(auto)]

mod all_parts;
mod course;
mod crew_run;
mod draw_rule;
mod draws;
mod hooks;
mod joined_shift;
mod part_runner;
mod seat;
mod shared;
mod shift;
mod window_parts;
mod workers;

pub use all_parts::Hands;
pub use crew_run::{Crew, run_crew, run_crew_started};
pub use draws::{Draws, MOST_SEATS};
pub use hooks::{AllStart, Gate, OpenGate, Starter};
pub use part_runner::PartRunner;
pub use seat::Seat;
pub use shift::{Shift, work_by};
pub use window_parts::work;
// Other runs by crews, such as those whose nodes are dealt again, go by these.
#[doc(hidden)]
pub use course::Course;
#[doc(hidden)]
pub use crew_run::run_parts;
