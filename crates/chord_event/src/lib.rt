//! What the events of Chord ask of nodes, and the lines that they leave in a trace. Keys, events,
//! lists and the errors of a run are those of `des_event`.
#![tactic(auto)]

mod block;
mod body;
mod line;

pub use block::Block;
pub use body::{Answer, Body};
pub use des_event::{Boxed, Copied, Key, Listed, Memory, RunError};
pub use line::{CommandKind, Line, MessageKind};

/// An event of Chord.
pub type Event = des_event::Event<Body>;
