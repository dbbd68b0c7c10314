//! The team: workers whose threads stand for the whole run of a machine, and run the parts of its
//! windows.
#![tactic(auto)]

mod audits;
mod course;
mod finish;
mod layout;
mod link;
mod mail;
mod named;
mod order;
mod output;
mod pace;
mod part;
mod run;
mod start;
mod team;
mod waiting;
mod window_end;
mod window_run;
mod worker;

pub use run::{MOST_WORKERS, run_team};
// Contracts name these.
#[doc(hidden)]
pub use course::Course;
// `run_team` runs a machine by it. It is public so that a test can have all workers woken.
#[doc(hidden)]
pub use course::Hands;
#[doc(hidden)]
pub use layout::Layout;
#[doc(hidden)]
pub use mail::{Inbox, Outbox};
#[doc(hidden)]
pub use named::Named;
#[doc(hidden)]
pub use order::{Order, Reply};
#[doc(hidden)]
pub use output::{Mark, Output};
// Public so that a test can ask it.
#[doc(hidden)]
pub use pace::Pace;
#[doc(hidden)]
pub use part::{Done, OwnedPart, Parcel};
#[doc(hidden)]
pub use run::run_team_by;
#[doc(hidden)]
pub use team::Team;
