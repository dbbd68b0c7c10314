//! The audit of a ring: what is right and wrong with it at one time.
#![tactic(auto)]

mod arcs;
mod audit_line;
mod facts;
mod list_facts;
mod passes;
mod ring;
mod successors;
mod tables;

pub use audit_line::AuditLine;
pub use facts::{audit, audit_states};
