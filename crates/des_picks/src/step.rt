//! The steps of workers.

use des_event::Key;

/// One step of a worker: it draws a part, or runs its part's least event before the horizon, which
/// is named by its key, or seals its part because no such event is left.
#[derive(Clone, Copy, Debug, PartialEq, Eq, Drop)]
pub enum Step {
    Drew(u32),
    Ran(Key),
    Sealed(u32),
}

/// A step, and the worker that took it.
#[derive(Clone, Copy, Drop)]
pub struct Taken {
    pub worker: u32,
    pub step: Step,
}
