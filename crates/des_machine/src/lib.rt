//! What a protocol gives to be simulated: a machine, and a scribe that writes its runs down. All engines
//! write their audits by a journal.
#![tactic(auto)]

mod ahead;
mod audit_clock;
mod journal;
mod machine;
mod scribe;
mod states;

pub use ahead::{Upcoming, read_ahead};
pub use audit_clock::AuditClock;
pub use journal::Journal;
pub use machine::Machine;
pub use scribe::Scribe;
pub use states::States;
