//! The events that are still to come, with bodies of any type, in the order of their keys.
#![tactic(auto)]

mod calendar;
mod days;
mod event_heap;
mod pending;
mod shelf;
mod waiting;
mod window_queue;

pub use calendar::GROUP;
pub use pending::Pending;
pub use window_queue::WindowQueue;
