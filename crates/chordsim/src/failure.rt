//! Faults of orders, as standard error shows them.
ghost use Rattle.std.specs.Prelude.{◌≡◌};
ghost use Rattle.chordsim.specs.Statuses.{status_of};

use chord_command::Files;
use chord_event::RunError;
use chord_play::PlayFault;
use std::fmt::{self, Display};

/// The status of a run that failed.
pub const FAILED: u8 = 3;

/// Why an order could not be carried out, as standard error shows it.
#[derive(Drop)]
pub struct Failure<'a> {
    pub files: &'a Files,
    pub fault: PlayFault,
}

impl Failure<'_> {
    /// The exit status: 1 for refused files, and 3 for a failed run.
    pub fn status(&self) -> u8
        ensures { result ≡ status_of self.now.fault }
    {
        match self.fault {
            PlayFault::Run(_) => FAILED,
            _ => 1,
        }
    }
}

impl Display for Failure<'_> {
    fn fmt<W: fmt::Write>(&self, f: &mut fmt::Formatter<W>) -> fmt::Result {
        match &self.fault {
            PlayFault::Run(error) => write!(f, "{}", FailedRun(*error)),
            PlayFault::Scenario(fault) => write!(f, "refused: {fault}"),
            PlayFault::Read(text) => write!(f, "refused: cannot read {}", self.files.name(*text)),
            PlayFault::TooLong(text) => write!(f, "refused: too long {}", self.files.name(*text)),
        }
    }
}

/// A run that failed, as standard error shows it: the number and the name of its error.
#[derive(Drop)]
pub struct FailedRun(pub RunError);

impl Display for FailedRun {
    fn fmt<W: fmt::Write>(&self, f: &mut fmt::Formatter<W>) -> fmt::Result {
        f.write_str(match self.0 {
            RunError::Memory => "failed: 1 Memory",
            RunError::Worker => "failed: 2 Worker",
            RunError::TooManyEvents => "failed: 3 TooManyEvents",
            RunError::Write => "failed: 4 Write",
            RunError::BadDivision => "failed: 5 BadDivision",
        })
    }
}
