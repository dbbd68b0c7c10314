//! The errors of a run.
ghost use Rattle.std.specs.Prelude.{◌≡◌};

use std::alloc::{AllocError, AllocFailed};

/// An allocation failed.
#[derive(Clone, Copy, Debug, PartialEq, Eq, Drop)]
pub struct Memory;

impl From<AllocError> for Memory {
    fn from(_error: AllocError) -> Self {
        Memory
    }
}

impl<T: Drop> From<AllocFailed<T>> for Memory {
    fn from(_error: AllocFailed<T>) -> Self {
        Memory
    }
}

/// Why a run stopped before its end.
#[derive(Clone, Copy, Debug, PartialEq, Eq, Drop)]
pub enum RunError {
    /// An allocation failed.
    Memory,
    /// A thread could not be started.
    Worker,
    /// The run has more events than the scenario allows.
    TooManyEvents,
    /// The writer of the trace failed.
    Write,
    /// The division has another number of nodes than the scenario.
    BadDivision,
}

impl From<Memory> for RunError {
    ghost use Rattle.des_event.specs.declared.error.RunError.TheVariants as run;

    ghost from_gives = { λ _ error. error ≡ run.Memory };

    fn from(_error: Memory) -> Self {
        RunError::Memory
    }
}

impl From<AllocError> for RunError {
    ghost use Rattle.des_event.specs.declared.error.RunError.TheVariants as run;

    ghost from_gives = { λ _ error. error ≡ run.Memory };

    fn from(_error: AllocError) -> Self {
        RunError::Memory
    }
}

impl<T: Drop> From<AllocFailed<T>> for RunError {
    ghost use Rattle.des_event.specs.declared.error.RunError.TheVariants as run;

    ghost from_gives = { λ _ error. error ≡ run.Memory };

    fn from(_error: AllocFailed<T>) -> Self {
        RunError::Memory
    }
}
