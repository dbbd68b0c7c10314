//! Events with bodies of any type, their keys, lists as contracts see them, and the errors of a run.
#![tactic(auto)]

mod boxed;
mod brief;
mod copied;
mod error;
mod event;
mod key;
mod listed;
mod room;

pub use boxed::Boxed;
pub use brief::{Brief, Short};
pub use copied::Copied;
pub use error::{Memory, RunError};
pub use event::Event;
pub use key::Key;
pub use listed::Listed;
pub use room::free_spare;
