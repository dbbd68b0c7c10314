//! The result of an audit.

/// The facts of the ring at one time, in microseconds.
#[derive(Clone, Copy, Drop)]
pub struct AuditLine {
    pub time: u64,
    /// How many nodes are members.
    pub members: u32,
    /// How many members have no member in their successor list. A node that lists itself does not
    /// count.
    pub dead: u32,
    /// How many members come back to themselves by best successors.
    pub ring: u32,
    /// Whether no ring member is skipped by another one.
    pub ordered: bool,
    /// How many members no successor list of a member skips, their own lists included.
    pub principals: u32,
    /// Whether there are more principals than a successor list has room for, and no dead member.
    pub sufficient: bool,
}
