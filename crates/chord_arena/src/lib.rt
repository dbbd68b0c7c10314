//! Records in raw memory that never move: the arena of `des_arena`.
#![tactic(auto)]

pub use des_arena::{RecordArena, Ticket};
