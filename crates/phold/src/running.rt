//! Carries out what the arguments ask for.
ghost use Rattle.std.specs.Prelude.{◌≡◌, ◌≢◌, false, IfErr};
ghost use Rattle.des_machine.specs.Runs.{IsRun};
ghost use Rattle.des_output.specs.Watched.{wrapped, has_failed};
ghost use Rattle.des_output.specs.Writing.{is_write};
ghost use Rattle.phold_machine.specs.Texts.{text_of};
ghost use Rattle.phold_rules.specs.Counts.{AreCounts};
ghost use Rattle.phold_rules.specs.Rules.{phold};

use crate::options::{Order, command, order_of};
use clap::Error;
use des_event::RunError;
use des_output::Watched;
use des_serial::run_serial;
use des_team::{MOST_WORKERS, run_team};
use des_window::Division;
use phold_machine::{Phold, PholdScribe};
use phold_rules::PholdReport;
use std::alloc::{AllocError, Global};
use std::io::{BufWriter, Write};
use std::marker::Sync;
use std::process::ExitCode;
use std::rt::{Env, Files as FileSystem};
use std::sync::Wait;
use std::thread::Threads;
use std::{env, fs};

/// The status of arguments that are refused.
const REFUSED: u8 = 2;

/// The status of a run that fails.
const FAILED: u8 = 3;

/// Why there is no report.
#[derive(Drop)]
enum Fault {
    /// Clap refuses the arguments, with this text, or they ask for it.
    Refused(Error),
    /// An argument is not UTF-8 text.
    NotText,
    /// A number is out of its range.
    OutOfRange,
    Run(RunError),
}

/// Reads the arguments, runs PHOLD, prints its report, and returns the exit status.
pub fn perform<T: FileSystem + AllocGlobal + Env + Threads + Wait + Sync, C: Print + Eprint>(
    rt: &T,
    console: &C,
) -> ExitCode {
    let order = match read_order(rt) {
        Ok(order) => order,
        Err(fault) => return tell(console, fault),
    };
    match run(rt, &order) {
        Ok(report) => print_report(console, report),
        Err(fault) => tell(console, fault),
    }
}

/// What the arguments ask for.
fn read_order(rt: &(impl Env + AllocGlobal)) -> Result<Order, Fault> {
    let alloc = rt.alloc();
    let words = words_of(rt)?;
    let Ok(command) = command(alloc) else {
        return Err(Fault::Run(RunError::Memory));
    };
    let matches = match command.try_get_matches_from(words.as_slice()) {
        Ok(matches) => matches,
        Err(error) => return Err(Fault::Refused(error)),
    };
    match order_of(alloc, &matches) {
        Ok(order) => Ok(order),
        Err(AllocError) => Err(Fault::Run(RunError::Memory)),
    }
}

/// The arguments of the process.
fn words_of(rt: &(impl Env + AllocGlobal)) -> Result<Vec<String>, Fault> {
    let Ok(words) = env::args(rt) else {
        return Err(Fault::NotText);
    };
    match words.collect(rt.alloc()) {
        Ok(words) => Ok(words),
        Err(_) => Err(Fault::Run(RunError::Memory)),
    }
}

/// Runs PHOLD. The file of the trace is created or emptied first.
fn run<T: FileSystem + AllocGlobal + Threads + Wait + Sync>(
    rt: &T,
    order: &Order,
) -> Result<PholdReport, Fault> {
    let Some(phold) = Phold::new(order.settings) else {
        return Err(Fault::OutOfRange);
    };
    let outcome = match &order.trace {
        Some(name) => match fs::create(rt, name.as_str()) {
            Ok(file) => run_to(rt, &phold, order.workers, file),
            Err(_) => Err(RunError::Write),
        },
        None => run_to(rt, &phold, order.workers, Vec::new(rt.alloc())),
    };
    outcome.map_err(Fault::Run)
}

/// Runs with a buffer in front of the writer of the trace.
fn run_to<T: AllocGlobal + Threads + Wait + Sync, W: Write + Drop>(
    rt: &T,
    phold: &Phold,
    workers: u32,
    writer: W,
) -> Result<PholdReport, RunError> {
    let alloc = rt.alloc();
    let Ok(buffer) = BufWriter::new(alloc, writer) else {
        return Err(RunError::Memory);
    };
    let mut trace = Watched::new(buffer);
    let report = run_by(rt, phold, workers, &mut trace)?;
    // A full disk shows here at the latest.
    match trace.flush() {
        Ok(()) => Ok(report),
        Err(_) => Err(RunError::Write),
    }
}

/// Writes the trace of PHOLD, and returns its report: the same by any number of workers. Each worker
/// has a part of the nodes, dealt out in turn. What was written before an error is a beginning of the
/// trace.
fn run_by<T: AllocGlobal + Threads + Wait + Sync, W: Write>(
    rt: &T,
    machine: &Phold,
    workers: u32,
    writer: &mut Watched<W>,
) -> Result<PholdReport, RunError>
    requires sound { has_failed writer.old ≡ false }
    ensures run { IsRun (text_of machine.now) (phold machine.now) AreCounts (W.contents (wrapped writer.old)) (W.contents (wrapped writer.new)) result }
    ensures writer { has_failed writer.new ≡ is_write result }
    ensures only { IfErr result (λ e. e ≢ RunError.BadDivision) }
{
    let alloc = rt.alloc();
    if workers < 2 || workers > MOST_WORKERS {
        return run_serial::<Phold, PholdScribe, W>(alloc, machine, writer);
    }
    let nodes = machine.settings().nodes;
    let division = Division::dealt(alloc, nodes, workers)?;
    run_team::<Phold, PholdScribe, T, W>(rt, alloc, machine, &division, workers, writer)
}

/// Prints the report: status 0, or 3 if it cannot be printed.
fn print_report<C: Print + Eprint>(console: &C, report: PholdReport) -> ExitCode {
    let PholdReport {
        events,
        remote,
        time_sum,
    } = report;
    match println!(console; "events {events}\nremote {remote}\ntime-sum {time_sum}") {
        Ok(()) => ExitCode::from(0),
        Err(_) => tell(console, Fault::Run(RunError::Write)),
    }
}

/// Says why there is no report, and returns the exit status.
fn tell<C: Print + Eprint>(console: &C, fault: Fault) -> ExitCode {
    match fault {
        Fault::Refused(error) => {
            if error.use_stderr() {
                let _ = eprint!(console; "{error}");
                ExitCode::from(REFUSED)
            } else {
                let _ = print!(console; "{error}");
                ExitCode::from(0)
            }
        }
        Fault::NotText => {
            let _ = eprintln!(console; "error: an argument is not UTF-8 text");
            ExitCode::from(REFUSED)
        }
        Fault::OutOfRange => {
            let _ = eprintln!(console; "error: a number is out of its range");
            ExitCode::from(REFUSED)
        }
        Fault::Run(error) => {
            let _ = eprintln!(console; "failed: {}", name_of(error));
            ExitCode::from(FAILED)
        }
    }
}

/// The number and the name of an error of a run.
fn name_of(error: RunError) -> &'static str {
    match error {
        RunError::Memory => "1 Memory",
        RunError::Worker => "2 Worker",
        RunError::TooManyEvents => "3 TooManyEvents",
        RunError::Write => "4 Write",
        RunError::BadDivision => "5 BadDivision",
    }
}
