//! The team: workers whose threads stand for the whole run, and run the parts of its windows. It is the
//! kernel's, for Chord.
#![tactic(auto)]

ghost use Rattle.std.specs.Prelude.{◌≡◌, ◌≢◌, ◌<◌, ◌≤◌, false, length, OnOk, Err};
ghost use Rattle.chord_output.specs.Runs.{IsRun};
ghost use Rattle.chord_scenario.specs.World.{node_count};
ghost use Rattle.des_output.specs.Watched.{wrapped, has_failed};
ghost use Rattle.des_output.specs.Writing.{is_write};

use chord_event::RunError;
use chord_output::{ActorRing, ChordScribe};
use chord_scenario::Scenario;
use chord_trace::{Report, Watched};
pub use des_team::MOST_WORKERS;
use des_window::Division;
use std::alloc::Global;
use std::io::Write;
use std::marker::Sync;
use std::sync::Wait;
use std::thread::Threads;
// A test has all workers woken by it.
#[doc(hidden)]
pub use des_team::Hands;

/// Runs a scenario by windows, by 1 to 64 workers whose threads stand for the whole run. The calling
/// thread is one of them. A part of the division has the states of its nodes and their pending
/// events for the whole run. After a window of few events only the first workers run the next one.
/// Writes the trace and returns the report, which depend on neither the workers nor the division.
/// What was written before an error is a beginning of the trace.
///
/// # Errors
///
/// `BadDivision`, if the division has another number of nodes than the scenario: nothing is written.
/// `Worker`, if a thread cannot be started: nothing is written. Of several faults of a window
/// `Memory`, else `TooManyEvents`, else `Write`.
pub fn run_team<R: Threads + Wait + Sync, W: Write>(
    rt: &R,
    alloc: Global,
    scenario: &Scenario,
    division: &Division,
    workers: u32,
    writer: &mut Watched<W>,
) -> Result<Report, RunError>
    requires workers { (0 < workers) × (workers ≤ MOST_WORKERS) }
    requires sound { has_failed writer.old ≡ false }
    ensures run { IsRun scenario.now (W.contents (wrapped writer.old)) (W.contents (wrapped writer.new)) result }
    ensures writer { has_failed writer.new ≡ is_write result }
    ensures bad { result ≡ Err RunError.BadDivision → (length division.now.of_node ≢ node_count scenario.now) × (writer.new ≡ writer.old) }
    ensures divides { OnOk result (length division.now.of_node ≡ node_count scenario.now) }
{
    let ring = ActorRing { scenario };
    des_team::run_team::<ActorRing<'_>, ChordScribe, R, W>(
        rt, alloc, &ring, division, workers, writer,
    )
}

/// `run_team`, with another number of events that are worth waking a worker: a test can have all of
/// them woken in each window.
pub fn run_team_by<R: Threads + Wait + Sync, W: Write>(
    rt: &R,
    alloc: Global,
    scenario: &Scenario,
    division: &Division,
    hands: Hands,
    writer: &mut Watched<W>,
) -> Result<Report, RunError>
    requires workers { (0 < hands.workers) × (hands.workers ≤ MOST_WORKERS) }
    requires sound { has_failed writer.old ≡ false }
    ensures run { IsRun scenario.now (W.contents (wrapped writer.old)) (W.contents (wrapped writer.new)) result }
    ensures writer { has_failed writer.new ≡ is_write result }
    ensures bad { result ≡ Err RunError.BadDivision → (length division.now.of_node ≢ node_count scenario.now) × (writer.new ≡ writer.old) }
    ensures divides { OnOk result (length division.now.of_node ≡ node_count scenario.now) }
{
    let ring = ActorRing { scenario };
    des_team::run_team_by::<ActorRing<'_>, ChordScribe, R, W>(
        rt, alloc, &ring, division, hands, writer,
    )
}
