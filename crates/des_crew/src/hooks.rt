//! What a caller may plug in: gates before parts, starters of threads.

/// Called by a worker after each draw, before it runs the part, with the number of the worker, from
/// 0 on, and the part. A gate may block, by a wait handle that it holds itself.
pub trait Gate {
    fn pass(&self, worker: u32, part: u32);
}

/// A gate that never blocks.
#[derive(Clone, Copy, Drop)]
pub struct OpenGate;

impl Gate for OpenGate {
    fn pass(&self, _worker: u32, _part: u32) {}
}

/// Allows or refuses the start of each worker's thread. It is passed the number of the worker, from
/// 0 on. A refusal counts as a failed start.
pub trait Starter {
    fn may_start(&mut self, worker: u32) -> bool;
}

/// A starter that allows every start.
#[derive(Clone, Copy, Drop)]
pub struct AllStart;

impl Starter for AllStart {
    fn may_start(&mut self, _worker: u32) -> bool {
        true
    }
}
