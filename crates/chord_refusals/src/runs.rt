//! Runs of examples by engines.
ghost use Rattle.std.specs.Prelude.{◌<◌, ◌≤◌};

use crate::stop::{Stop, holds, holds_written};
use chord_crew::{Crew, MOST_SEATS, OpenGate, Starter, run_crew_started};
use chord_examples::{Engine, Example, Shape, TWO_LOOKUPS, example_groups, run_by, shown, text_of};
use chord_scenario::read_scenario;
use chord_trace::Watched;
use chord_window::Division;
use std::sync::Wait;
use std::thread::Threads;

/// The examples that are run: lookups, a crash and a join while a message is on its way, and a join that fails.
const NAMES: [&str; 3] = [
    "two lookups",
    "a crash and a join at one instant",
    "a join that fails eight times",
];

/// Two parts, and a worker for each.
const PAIR: Shape = Shape {
    parts: 2,
    workers: 2,
};

/// Runs the three examples by an engine, in two parts by two workers.
pub fn run_examples<T: AllocGlobal + Threads + Wait + Sync>(
    rt: &T,
    engine: Engine,
) -> Result<(), Stop> {
    for group in example_groups() {
        run_named(rt, engine, group)?;
    }
    Ok(())
}

fn run_named<T: AllocGlobal + Threads + Wait + Sync>(
    rt: &T,
    engine: Engine,
    group: &[Example],
) -> Result<(), Stop> {
    for example in group {
        if NAMES.contains(&example.name) {
            run_example(rt, engine, PAIR, example)?;
        }
    }
    Ok(())
}

/// Runs an example by an engine, with a writer that has its room ahead. What it took is a beginning of the trace,
/// whatever the run returns. A run that ends has written the trace, and has its report.
fn run_example<T: AllocGlobal + Threads + Wait + Sync>(
    rt: &T,
    engine: Engine,
    shape: Shape,
    example: &Example,
) -> Result<(), Stop> {
    let alloc = rt.alloc();
    let expected = example.trace.as_bytes();
    let scenario = example.scenario(alloc)?;
    let mut writer = Watched::new(Vec::with_capacity(alloc, expected.len())?);
    let outcome = run_by(rt, alloc, engine, shape, &scenario, &mut writer);
    let written = writer.into_inner();
    holds_written(expected, written.as_slice(), outcome.is_ok())?;
    let report = shown(alloc, &outcome?)?;
    holds(report.as_str() == example.report, "the report is another")
}

/// Runs the example of two lookups in three parts by a team of so many workers.
pub fn run_team_of<T: AllocGlobal + Threads + Wait + Sync>(rt: &T, workers: u32) -> Result<(), Stop>
    requires { (0 < workers) × (workers ≤ MOST_SEATS) }
{
    let shape = Shape { parts: 3, workers };
    run_example(rt, Engine::Team, shape, &TWO_LOOKUPS)
}

/// Runs a ring of three nodes whose timers expire in so many windows, by a team of eight workers. Each has a part, if
/// only one without nodes, and is woken in each window.
pub fn run_windows<T: AllocGlobal + Threads + Wait + Sync>(
    rt: &T,
    windows: u32,
) -> Result<(), Stop> {
    let alloc = rt.alloc();
    let duration = u64::from(windows) * 10;
    let settings = format!(in alloc;
        "list = 2\nduration_us = {duration}\nwindow_us = 10\ntimeout_us = 40\naudit_us = {duration}\n\
         stabilize_us = 10\nfinger_us = 10\n"
    )?;
    let text = text_of(alloc, settings.as_str(), TWO_LOOKUPS.nodes, "")?;
    let scenario = read_scenario(alloc, text.as_str().as_bytes(), b"")?;
    let shape = Shape {
        parts: 8,
        workers: 8,
    };
    let mut writer = Watched::new(Vec::new(alloc));
    run_by(rt, alloc, Engine::Team, shape, &scenario, &mut writer)?;
    Ok(())
}

/// A starter that allows every start, and counts them.
#[derive(Drop)]
struct Counted {
    starts: u32,
}

impl Starter for Counted {
    fn may_start(&mut self, _worker: u32) -> bool {
        self.starts = self.starts.saturating_add(1);
        true
    }
}

/// Runs the example of two lookups by two workers, which start if a starter allows it. The run has four windows.
pub fn run_started<T: AllocGlobal + Threads + Wait + Sync>(
    rt: &T,
    example: &Example,
) -> Result<(), Stop> {
    let alloc = rt.alloc();
    let expected = example.trace.as_bytes();
    let scenario = example.scenario(alloc)?;
    scenario.recall_range();
    let division = Division::blocks(alloc, scenario.nodes(), 2)?;
    let mut starter = Counted { starts: 0 };
    let mut writer = Watched::new(Vec::with_capacity(alloc, expected.len())?);
    let crew = Crew {
        division: &division,
        workers: 2,
        gate: &OpenGate,
    };
    let outcome = run_crew_started(rt, alloc, &scenario, &crew, &mut starter, &mut writer);
    let written = writer.into_inner();
    holds_written(expected, written.as_slice(), outcome.is_ok())?;
    outcome?;
    holds(starter.starts == 8, "another number of workers is started")
}
