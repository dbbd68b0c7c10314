//! Protocols whose nodes tell each other things, as machines: nobody numbers events.
#![tactic(auto)]

mod numbered;
mod protocol;
mod teller;
mod telling;

pub use numbered::{Counted, Numbered};
pub use protocol::Protocol;
pub use teller::Teller;
pub use telling::Telling;
