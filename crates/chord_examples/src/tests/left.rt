//! What runs and plays leave, as texts, which tests compare with what they expect.
ghost use Rattle.std.specs.Prelude.{◌<◌, ◌≤◌};

use crate::examples::engines::{ENGINES, Engine, Shape, run_by};
use crate::examples::play::{SERIAL, nonzero};
use crate::tests::by_engine::PAIR;
use crate::tests::steps::value_of;
use chord_event::RunError;
use chord_play::{Plan, PlayFault, Text, play};
use chord_scenario::{Scenario, ScenarioFault};
use chord_trace::{Report, Watched};
use chord_window::{Division, Taken, run_picked};
use std::fmt::{Debug, Write as _};
use std::io::Read;
use std::process::Abort;
use std::sync::Wait;
use std::thread::Threads;

/// The trace that was written, and the end: the lines of the report, or the name of the fault.
#[derive(Drop)]
pub struct Left {
    pub trace: String,
    pub end: String,
}

/// The text of these bytes.
fn text_of_bytes<T: Abort + AllocGlobal>(rt: &T, bytes: Vec<u8>) -> String {
    value_of(rt, String::from_utf8_lossy(rt.alloc(), bytes.as_slice()))
}

/// How a run ended.
fn end_of_run<T: Abort + AllocGlobal>(rt: &T, outcome: &Result<Report, RunError>) -> String {
    match outcome {
        Ok(report) => text_of_report(rt, report),
        Err(error) => value_of(rt, format!(in rt.alloc(); "{error:?}")),
    }
}

/// The lines of a report.
fn text_of_report<T: Abort + AllocGlobal>(rt: &T, report: &Report) -> String {
    let bytes = value_of(rt, Vec::with_capacity(rt.alloc(), 1024));
    let mut writer = Watched::new(bytes);
    value_of(rt, report.write(rt.alloc(), &mut writer));
    text_of_bytes(rt, writer.into_inner())
}

/// Runs a scenario by an engine.
pub fn run_left<T: Abort + AllocGlobal + Threads + Wait + Sync>(
    rt: &T,
    engine: Engine,
    shape: Shape,
    scenario: &Scenario,
) -> Left {
    let alloc = rt.alloc();
    let mut writer = Watched::new(Vec::new(alloc));
    let outcome = run_by(rt, alloc, engine, shape, scenario, &mut writer);
    Left::of_run(rt, writer.into_inner(), &outcome)
}

/// Asserts that a scenario leaves this trace and this report by each engine. `name` says which scenario it is.
pub fn all_leave<T: Abort + AllocGlobal + Threads + Wait + Sync>(
    rt: &T,
    name: &str,
    scenario: &Scenario,
    trace: &str,
    report: &str,
) {
    for engine in ENGINES {
        let left = run_left(rt, engine, PAIR, scenario);
        left.is(rt, &(name, engine), trace, report);
    }
}

/// What a run by windows left, and a line for each step: its worker, and the step.
#[derive(Drop)]
pub struct Picked {
    pub left: Left,
    pub steps: String,
}

/// Runs a scenario by windows with these picks.
pub fn run_picks<T: Abort + AllocGlobal>(
    rt: &T,
    scenario: &Scenario,
    division: &Division,
    workers: u32,
    picks: &[u32],
) -> Picked
    requires { (0 < workers) × (workers ≤ 64) }
{
    let alloc = rt.alloc();
    let mut writer = Watched::new(Vec::new(alloc));
    let outcome = run_picked(alloc, scenario, division, workers, picks, &mut writer);
    let (report, taken) = value_of(rt, outcome);
    Picked {
        left: Left::of_run(rt, writer.into_inner(), &Ok(report)),
        steps: text_of_steps(rt, taken.as_slice()),
    }
}

/// A line for each step.
fn text_of_steps<T: Abort + AllocGlobal>(rt: &T, taken: &[Taken]) -> String {
    let mut steps = String::new(rt.alloc());
    for Taken { worker, step } in taken {
        value_of(rt, writeln!(steps, "{worker} {step:?}"));
    }
    steps
}

/// The name of a fault, which is the error's own if the run has begun.
pub fn name_of<T: Abort + AllocGlobal>(rt: &T, fault: &PlayFault) -> String {
    let name = match fault {
        PlayFault::Read(Text::Scenario) => "scenario not read",
        PlayFault::Read(Text::Latency) => "latencies not read",
        PlayFault::TooLong(Text::Scenario) => "scenario too long",
        PlayFault::TooLong(Text::Latency) => "latencies too long",
        PlayFault::Scenario(ScenarioFault::NotToml) => "NotToml",
        PlayFault::Scenario(_) => "refused",
        PlayFault::Run(error) => return value_of(rt, format!(in rt.alloc(); "{error:?}")),
    };
    value_of(rt, String::from_str(rt.alloc(), name))
}

/// Plays what two readers give, as planned.
pub fn play_readers<T, R: Read + Drop, Q: Read + Drop>(
    rt: &T,
    scenario: R,
    latency: Q,
    plan: &Plan,
) -> Left
where
    T: Abort + AllocGlobal + Threads + Wait + Sync,
{
    let alloc = rt.alloc();
    let mut toml = Watched::new(scenario);
    let mut csv = Watched::new(latency);
    let mut writer = Watched::new(Vec::new(alloc));
    let outcome = play(rt, alloc, &mut toml, &mut csv, plan, &mut writer);
    let end = match &outcome {
        Ok(report) => text_of_report(rt, report),
        Err(fault) => name_of(rt, fault),
    };
    Left {
        trace: text_of_bytes(rt, writer.into_inner()),
        end,
    }
}

/// Plays a scenario with a latency text, as planned.
pub fn play_texts<T: Abort + AllocGlobal + Threads + Wait + Sync>(
    rt: &T,
    scenario: &[u8],
    latency: &[u8],
    plan: &Plan,
) -> Left {
    play_readers(rt, scenario, latency, plan)
}

/// Plays a scenario without a latency text, one event at a time.
pub fn play_text<T: Abort + AllocGlobal + Threads + Wait + Sync>(rt: &T, scenario: &str) -> Left {
    play_readers(rt, scenario.as_bytes(), b"".as_slice(), &SERIAL)
}

impl Left {
    /// What a run left that wrote this trace.
    pub fn of_run<T: Abort + AllocGlobal>(
        rt: &T,
        trace: Vec<u8>,
        outcome: &Result<Report, RunError>,
    ) -> Left {
        Left {
            trace: text_of_bytes(rt, trace),
            end: end_of_run(rt, outcome),
        }
    }

    /// Whether the run reached its end.
    pub fn has_ended(&self) -> bool {
        self.end.as_str().starts_with("events ")
    }

    /// Asserts that this is the trace. `how` says what left it.
    pub fn has_written<D: Debug>(&self, rt: &impl Abort, how: &D, trace: &str) {
        assert!(rt; self.trace.as_str() == trace, "{how:?}: {}", self.trace);
    }

    /// Asserts that these are the trace and the end. `how` says what left them.
    pub fn is<D: Debug>(&self, rt: &impl Abort, how: &D, trace: &str, end: &str) {
        self.has_written(rt, how, trace);
        assert!(rt; self.end.as_str() == end, "{how:?}: {}", self.end);
    }

    /// Asserts that the run reached its end, and that this is the trace. `how` says what left it.
    pub fn ends_with<D: Debug>(&self, rt: &impl Abort, how: &D, trace: &str) {
        self.has_written(rt, how, trace);
        assert!(rt; self.has_ended(), "{how:?}: {}", self.end);
    }

    /// Asserts that this is the trace, and that these are the lines of the report whose number is not 0.
    pub fn shows<T: Abort + AllocGlobal, D: Debug>(
        &self,
        rt: &T,
        how: &D,
        trace: &str,
        report: &str,
    ) {
        let lines = value_of(rt, nonzero(rt.alloc(), self.end.as_str()));
        self.has_written(rt, how, trace);
        assert!(rt; lines.as_str() == report, "{how:?}: {lines}");
    }
}
