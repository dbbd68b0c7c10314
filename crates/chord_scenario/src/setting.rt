//! What a scenario sets. Nodes are named by their numbers, from 0 in the order of the file; times
//! are in microseconds.

use crate::name::Name;
use chord_circle::Ident;

/// A node: its name, its place on the circle, whether it is a member of the ring at the start,
/// whether it goes down and rises by itself, and whether it is a bootstrap node, one of those that
/// joining nodes try in turn.
#[derive(Drop)]
pub struct Node {
    pub name: Name,
    pub ident: Ident,
    pub initial: bool,
    pub churn: bool,
    pub bootstrap: bool,
}

/// The coordinates of a node in microseconds: its place in the plane, and what its own link adds to
/// each of its latencies.
#[derive(Clone, Copy, Drop)]
pub struct Coordinates {
    pub x: u64,
    pub y: u64,
    pub height: u64,
}

/// The times from `least` to `greatest`, both included.
#[derive(Clone, Copy, Drop)]
pub struct Span {
    pub least: u64,
    pub greatest: u64,
}

/// How long churn nodes live and stay down, and how many of a million of their lives end with a leave
/// in place of a crash.
#[derive(Clone, Copy, Drop)]
pub struct Churn {
    pub life: Span,
    pub down: Span,
    pub leave: u64,
}

/// Which rules of published Chord the nodes follow. The first two profiles have none of them.
#[derive(Clone, Copy, Drop)]
pub struct Rules {
    /// The whole successor list counts in the search for the closest preceding node.
    pub list_routes: bool,
    /// A lookup goes on from the node that answered last, and not from the node that began it.
    pub goes_on: bool,
    /// A user's lookup ends with a request to the owner.
    pub ask_owner: bool,
    /// How many nodes a lookup may have to avoid.
    pub lookup_timeouts: u64,
    /// A node that does not answer leaves the successor list and the fingers.
    pub drop_silent: bool,
    /// Fingers that the first successor covers are not looked up.
    pub skip_near: bool,
    /// The first delays of a node's timers, and the finger that it looks up first, are drawn.
    pub random_start: bool,
    /// A joining node leaves itself and its nodes to avoid out of the list that it gets.
    pub clean_lists: bool,
    /// A joining node becomes a member when its first successor has replied.
    pub join_asks: bool,
    /// A bootstrap node whose join fails because nobody replies makes a ring of its own.
    pub create_alone: bool,
}

/// How much later than its period each timer may come, in microseconds.
#[derive(Clone, Copy, Drop)]
pub struct Jitters {
    pub stabilize: u64,
    pub finger: u64,
    pub check: u64,
}

/// What a command asks of its node.
#[derive(Clone, Copy, PartialEq, Eq, Drop)]
pub enum Action {
    Join { via: u32 },
    Crash,
    Leave,
    Lookup { key: Ident },
}

/// A command: its time, its node and what it asks.
#[derive(Clone, Copy, Drop)]
pub struct Command {
    pub at: u64,
    pub node: u32,
    pub action: Action,
}
