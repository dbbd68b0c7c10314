//! Exit statuses, and what standard error says beside them.
ghost use Rattle.std.specs.Prelude.{◌≡◌, ◌⊎◌};
ghost use Rattle.std.specs.Process.{exit_status};
ghost use Rattle.chordsim.specs.Statuses.{IsShown, status_of_outcome, status_of_words};

use crate::failure::{FAILED, FailedRun, Failure};
use chord_command::{Files, WordFault};
use chord_event::RunError;
use chord_play::PlayFault;
use std::fmt::Display;
use std::process::ExitCode;

/// The status of an order. If it was not carried out, standard error says why.
pub fn conclude(rt: &impl Eprint, files: &Files, outcome: Result<(), PlayFault>) -> ExitCode
    ensures { exit_status result ≡ status_of_outcome outcome }
{
    match outcome {
        Ok(()) => ExitCode::from(0),
        Err(fault) => {
            let failure = Failure { files, fault };
            let _ = eprintln!(rt; "{failure}");
            ExitCode::from(failure.status())
        }
    }
}

/// The status of arguments that give no order, and the reason on standard error. The text that `--help` or
/// `--version` asks for goes to standard output.
pub fn refuse(rt: &(impl Print + Eprint), fault: WordFault) -> ExitCode
    ensures { (exit_status result ≡ status_of_words fault) ⊎ (IsShown fault × (exit_status result ≡ 3)) }
{
    match fault {
        WordFault::Refused(error) => {
            if error.use_stderr() {
                let _ = eprint!(rt; "{error}");
                ExitCode::from(REFUSED_ARGUMENTS)
            } else {
                show(rt, error)
            }
        }
        WordFault::NotText => {
            let _ = eprintln!(rt; "error: an argument is not UTF-8 text");
            ExitCode::from(REFUSED_ARGUMENTS)
        }
        WordFault::Memory => {
            let _ = eprintln!(rt; "{}", FailedRun(RunError::Memory));
            ExitCode::from(FAILED)
        }
    }
}

/// Prints a text on standard output: status 0, or 3 if it cannot be printed.
fn show(rt: &(impl Print + Eprint), text: impl Display + Drop) -> ExitCode
    ensures { (exit_status result ≡ 0) ⊎ (exit_status result ≡ 3) }
{
    match print!(rt; "{text}") {
        Ok(()) => ExitCode::from(0),
        Err(_) => {
            let _ = eprintln!(rt; "{}", FailedRun(RunError::Write));
            ExitCode::from(FAILED)
        }
    }
}

/// An input file that the file of an option would overwrite.
#[derive(Drop)]
pub struct Overwritten<'a> {
    pub option: &'static str,
    /// What the input file has.
    pub what: &'static str,
    pub name: &'a str,
}

/// The status of an order that would overwrite an input file, and the reason on standard error.
pub fn refuse_output(rt: &impl Eprint, overwritten: Overwritten<'_>) -> ExitCode
    ensures { exit_status result ≡ 2 }
{
    let Overwritten { option, what, name } = overwritten;
    let _ = eprintln!(rt; "error: {option} names the {what} file: {name}");
    ExitCode::from(REFUSED_ARGUMENTS)
}

/// The status of arguments that are refused.
const REFUSED_ARGUMENTS: u8 = 2;
