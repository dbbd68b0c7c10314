//! What a node tells.

/// One thing that a node tells another, or itself.
#[derive(Clone, Copy, Drop)]
pub struct Telling<B> {
    /// After how many microseconds it arrives.
    pub delay: u64,
    /// The node that is told.
    pub target: u32,
    pub body: B,
}
