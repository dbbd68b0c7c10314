//! The crew: workers that draw the parts of a window and run them, each in its own thread. It is the
//! kernel's, for Chord.
#![tactic(auto)]

mod crew_run;
mod window_parts;

pub use crew_run::{run_crew, run_crew_dealt, run_crew_started};
pub use des_crew::{AllStart, Crew, Draws, Gate, MOST_SEATS, OpenGate, Seat, Starter};
pub use des_dealt::{Balanced, Dealer};
pub use window_parts::{Shift, work};
// For a test of the order in which a worker passes gates and runs parts.
#[doc(hidden)]
pub use des_crew::{PartRunner, work_by};
#[doc(hidden)]
pub use window_parts::WindowParts;
