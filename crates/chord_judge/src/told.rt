//! Lines with their times and nodes.
use chord_event::Line;

/// A line of a trace, with the time and the node of its event.
#[derive(Clone, Copy, Drop)]
pub struct Told {
    pub time: u64,
    pub node: u32,
    pub line: Line,
}
