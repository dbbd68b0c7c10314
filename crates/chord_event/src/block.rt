//! The trace of one event.
use crate::line::Line;
use des_event::{Key, Listed};

/// What one event left in the trace: its lines in the order made, with its key and its target.
#[derive(Drop)]
pub struct Block {
    pub key: Key,
    pub target: u32,
    pub lines: Listed<Line>,
}
