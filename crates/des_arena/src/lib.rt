//! Records in raw memory, in chunks of 256, that never move.
#![tactic(auto)]

mod arena;
mod chunk;
mod raw_chunk;

pub use arena::{RecordArena, Ticket};
// Contracts can name an arena only if the types of its fields are exported.
#[doc(hidden)]
pub use chunk::Chunk;
#[doc(hidden)]
pub use raw_chunk::RawChunk;
