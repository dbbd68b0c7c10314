//! The rows of the table of lookups.
use chord_circle::Ident;

/// A lookup of a user: who looks up which key, and from when on. Lookups are numbered from 0, in the
/// order of their begins.
#[derive(Clone, Copy, Drop)]
pub struct Lookup {
    pub number: u64,
    pub asker: u32,
    pub key: Ident,
    pub begun: u64,
}

/// What a lookup found. The answer is right by the strict meaning if the node that it names is the
/// right owner when it arrives, and defensible if the node was that at some instant since the
/// lookup began.
#[derive(Clone, Copy, Drop)]
pub struct Answer {
    pub named: u32,
    pub hops: u32,
    pub timeouts: u32,
    pub right_owner: Option<u32>,
    pub strict: bool,
    pub defensible: bool,
}

/// How a lookup ended, and when: with an answer, without one, by a crash or a leave of its asker, or
/// only by the end of the trace.
#[derive(Clone, Copy, Drop)]
pub enum End {
    Found { at: u64, answer: Answer },
    Lost { at: u64, hops: u32, timeouts: u32 },
    Crash { at: u64 },
    Leave { at: u64 },
    Trace,
}

/// What became of a lookup.
#[derive(Clone, Copy, Drop)]
pub struct Row {
    pub lookup: Lookup,
    pub end: End,
}
