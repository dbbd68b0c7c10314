//! Judges the lookups of a trace: opens its files, and reports the outcome.
ghost use Rattle.std.specs.Prelude.{◌≡◌, ◌⊎◌, false};
ghost use Rattle.std.specs.Process.{exit_status};
ghost use Rattle.des_output.specs.Watched.{has_failed};

use crate::execution::open;
use crate::status::conclude;
use chord_command::{Files, Judging};
use chord_event::RunError;
use chord_judge::{Digest, Digested, TableFault, edges_in, judge_trace};
use chord_play::{PlayFault, load};
use chord_scenario::Scenario;
use chord_trace::Watched;
use std::alloc::Global;
use std::io::{BufWriter, Read, Write};
use std::process::ExitCode;
use std::rt::Files as FileSystem;
use std::{fs, io};

/// Why a table of lookups was not written to its end.
#[derive(Drop)]
pub enum JudgeFailure {
    /// The scenario was not read, or the run of the program failed.
    Play(PlayFault),
    /// The trace cannot be read.
    Read,
    /// The line of this number, counted from 1, is none that a run of the scenario writes.
    Line(u64),
    /// The edges are no times in their order.
    Edges,
}

impl From<PlayFault> for JudgeFailure {
    fn from(fault: PlayFault) -> JudgeFailure {
        JudgeFailure::Play(fault)
    }
}

impl From<TableFault> for JudgeFailure {
    fn from(fault: TableFault) -> JudgeFailure {
        match fault {
            TableFault::Memory => JudgeFailure::Play(PlayFault::Run(RunError::Memory)),
            TableFault::Write => JudgeFailure::Play(PlayFault::Run(RunError::Write)),
            TableFault::Read => JudgeFailure::Read,
            TableFault::Line(line) => JudgeFailure::Line(line),
        }
    }
}

/// The file for a digest, and the times at which its counts begin anew.
#[derive(Drop)]
struct DigestFile<'a> {
    name: &'a str,
    edges: Vec<u64>,
}

/// Opens the files, and writes the table of the lookups of the trace to the console.
pub fn judge<T: FileSystem + AllocGlobal + Input, C: Print>(
    rt: &T,
    console: &C,
    files: &Files,
    judging: &Judging,
) -> Result<(), JudgeFailure> {
    let digest = digest_of(rt.alloc(), judging)?;
    let scenario = scenario_of(rt, files)?;
    let judged = match &judging.trace {
        Some(name) => match fs::open(rt, name.as_str()) {
            Ok(file) => judge_from(rt, console, &scenario, file, digest),
            Err(_) => Err(TableFault::Read),
        },
        None => judge_from(rt, console, &scenario, rt.reader(), digest),
    };
    Ok(judged?)
}

/// Opens the files, and reads their scenario.
fn scenario_of<T: FileSystem + AllocGlobal>(rt: &T, files: &Files) -> Result<Scenario, PlayFault> {
    let (mut scenario, mut latency) = open(rt, files)?;
    load(rt.alloc(), &mut scenario, &mut latency)
}

/// The digest that is asked for. Edges are read without one too.
fn digest_of<'a>(
    alloc: Global,
    judging: &'a Judging,
) -> Result<Option<DigestFile<'a>>, JudgeFailure> {
    let edges = match &judging.edges {
        Some(text) => edges_in(alloc, text.as_str()),
        None => Ok(Some(Vec::new(alloc))),
    };
    match (edges, &judging.digest) {
        (Ok(Some(edges)), Some(name)) => Ok(Some(DigestFile {
            name: name.as_str(),
            edges,
        })),
        (Ok(Some(_)), None) => Ok(None),
        (Ok(None), _) => Err(JudgeFailure::Edges),
        (Err(_), _) => Err(JudgeFailure::from(TableFault::Memory)),
    }
}

/// Judges a trace, and writes its digest if a file for that is named.
fn judge_from<T: FileSystem + AllocGlobal, C: Print, R: Read + Drop>(
    rt: &T,
    console: &C,
    scenario: &Scenario,
    trace: R,
    digest: Option<DigestFile<'_>>,
) -> Result<(), TableFault> {
    match digest {
        Some(digest) => judge_and_digest(rt, console, scenario, trace, digest),
        None => judge_to(rt, console, scenario, &mut Watched::new(trace)),
    }
}

/// Judges a trace, and writes its digest.
fn judge_and_digest<T: FileSystem + AllocGlobal, C: Print, R: Read + Drop>(
    rt: &T,
    console: &C,
    scenario: &Scenario,
    trace: R,
    digest: DigestFile<'_>,
) -> Result<(), TableFault> {
    let Ok(file) = fs::create(rt, digest.name) else {
        return Err(TableFault::Write);
    };
    let digest = Digest::new(rt.alloc(), digest.edges);
    let mut trace = Watched::new(Digested::new(trace, digest, file));
    judge_to(rt, console, scenario, &mut trace)?;
    trace.into_inner().finish()
}

/// Judges with a buffer in front of the console, which is written to in every case.
fn judge_to<T: AllocGlobal, C: Print, R: Read>(
    rt: &T,
    console: &C,
    scenario: &Scenario,
    trace: &mut Watched<R>,
) -> Result<(), TableFault> {
    let Ok(buffer) = BufWriter::new(rt.alloc(), io::writer(console)) else {
        return Err(TableFault::Memory);
    };
    let mut output = Watched::new(buffer);
    let judged = judge_trace(rt.alloc(), scenario, trace, &mut output);
    let flushed = output.flush();
    judged?;
    if flushed.is_err() {
        return Err(TableFault::Write);
    }
    Ok(())
}

/// The status of a judgement. If the table was not written to its end, standard error says why.
pub fn conclude_table(
    rt: &impl Eprint,
    files: &Files,
    judging: &Judging,
    outcome: Result<(), JudgeFailure>,
) -> ExitCode
    ensures { (exit_status result ≡ 0) ⊎ (exit_status result ≡ 1) ⊎ (exit_status result ≡ 2) ⊎ (exit_status result ≡ 3) }
{
    let name = match &judging.trace {
        Some(name) => name.as_str(),
        None => "standard input",
    };
    match outcome {
        Ok(()) => ExitCode::from(0),
        Err(JudgeFailure::Play(fault)) => conclude(rt, files, Err(fault)),
        Err(JudgeFailure::Read) => {
            let _ = eprintln!(rt; "refused: cannot read {name}");
            ExitCode::from(1)
        }
        Err(JudgeFailure::Line(line)) => {
            let _ = eprintln!(rt; "refused: line {line} of {name} is of no run of the scenario");
            ExitCode::from(1)
        }
        Err(JudgeFailure::Edges) => {
            let _ = eprintln!(rt;
                "error: --edges has to give times in microseconds, in their order, with commas between them"
            );
            ExitCode::from(2)
        }
    }
}
