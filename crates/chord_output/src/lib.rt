//! Chord as the kernel runs it: the ring of a scenario as a machine, and the scribe that writes its
//! runs down.
#![tactic(auto)]

mod actor_ring;
mod chord_scribe;
mod ring;

pub use actor_ring::ActorRing;
pub use chord_scribe::{ChordScribe, RingMachine};
pub use ring::ChordRing;
