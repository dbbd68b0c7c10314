//! Why a task stops.
use chord_event::{Memory, RunError};
use chord_play::PlayFault;
use chord_scenario::ScenarioFault;
use std::alloc::AllocError;

/// Why a call did not end with its result.
#[derive(Clone, Copy, Debug, PartialEq, Eq, Drop)]
pub enum Stop {
    /// An allocation failed, and what is promised of that held.
    Memory,
    /// A thread could not be started, and what is promised of that held.
    Worker,
    /// It did something else than is promised, as the text says.
    Wrong(&'static str),
}

/// Stops with what is wrong, unless a promise holds.
pub fn holds(promise: bool, wrong: &'static str) -> Result<(), Stop> {
    if promise {
        Ok(())
    } else {
        Err(Stop::Wrong(wrong))
    }
}

/// Stops unless what was written is a beginning of a trace, and all of it if the run ended.
pub fn holds_written(trace: &[u8], written: &[u8], ended: bool) -> Result<(), Stop> {
    holds(
        trace.starts_with(written),
        "what was written is no beginning of the trace",
    )?;
    holds(!ended || written == trace, "the trace is another")
}

impl From<AllocError> for Stop {
    fn from(_error: AllocError) -> Stop {
        Stop::Memory
    }
}

impl From<Memory> for Stop {
    fn from(_error: Memory) -> Stop {
        Stop::Memory
    }
}

impl From<RunError> for Stop {
    fn from(error: RunError) -> Stop {
        match error {
            RunError::Memory => Stop::Memory,
            RunError::Worker => Stop::Worker,
            RunError::TooManyEvents => Stop::Wrong("too many events"),
            RunError::Write => Stop::Wrong("the writer failed"),
            RunError::BadDivision => Stop::Wrong("another number of nodes"),
        }
    }
}

impl From<ScenarioFault> for Stop {
    fn from(fault: ScenarioFault) -> Stop {
        match fault {
            ScenarioFault::Memory => Stop::Memory,
            _ => Stop::Wrong("the scenario is refused"),
        }
    }
}

impl From<PlayFault> for Stop {
    fn from(fault: PlayFault) -> Stop {
        match fault {
            PlayFault::Run(error) => Stop::from(error),
            PlayFault::Scenario(fault) => Stop::from(fault),
            PlayFault::Read(_) | PlayFault::TooLong(_) => Stop::Wrong("a text is not read"),
        }
    }
}
