//! What all threads of a run share.
use crate::layout::Layout;
use std::alloc::Global;
use std::thread::Parker;

/// What all threads of a run share.
#[derive(Drop)]
pub struct Course<'a, M> {
    pub alloc: Global,
    pub machine: &'a M,
    pub layout: &'a Layout,
    /// One for each worker, to be woken by. That of worker 0 is the caller's.
    pub parkers: &'a [Parker],
    /// As in `Hands`.
    pub worth: u64,
}

/// How many workers a team has, and when it wakes them.
#[derive(Clone, Copy, Drop)]
pub struct Hands {
    /// The number of workers, of which the calling thread is one.
    pub workers: u32,
    /// How many events of a window are worth waking a worker that sleeps. If it is 0, all are woken
    /// in each window.
    pub worth: u64,
}
