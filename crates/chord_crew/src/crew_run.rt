//! Runs of a scenario by crews.
ghost use Rattle.std.specs.Prelude.{◌≡◌, ◌≢◌, ◌<◌, ◌≤◌, false, length, OnOk, Err};
ghost use Rattle.chord_output.specs.Runs.{IsRun};
ghost use Rattle.chord_scenario.specs.World.{node_count};
ghost use Rattle.des_model.specs.Windows.{Division as ADivision};
ghost use Rattle.des_output.specs.Watched.{wrapped, has_failed};
ghost use Rattle.des_output.specs.Writing.{is_write};

use chord_event::RunError;
use chord_output::{ChordRing, ChordScribe};
use chord_scenario::Scenario;
use chord_trace::{Report, Watched};
use des_crew::{AllStart, Crew, Gate, Hands, MOST_SEATS, Starter};
use des_dealt::Dealer;
use des_window::Division;
use std::alloc::Global;
use std::io::Write;
use std::marker::Sync;
use std::sync::Wait;
use std::thread::Threads;

/// Runs a scenario by windows. 1 to 64 workers, each in its own thread, run the parts of a window.
/// Writes the trace, window by window, and returns the report. The bytes and the report do not
/// depend on which worker draws which part. What was written before an error is a beginning of the
/// trace.
///
/// # Errors
///
/// `Worker`, if a thread could not be started; `BadDivision`, with nothing written, if the
/// division has another number of nodes than the scenario; `TooManyEvents`, `Write` and `Memory` as
/// `chord_serial::run_serial`. If several workers of a window fail, `Worker` comes before
/// `Memory`, and that before `TooManyEvents`.
pub fn run_crew<R: Threads + Wait + Sync, G: Gate + Sync, W: Write>(
    rt: &R,
    alloc: Global,
    scenario: &Scenario,
    division: &Division,
    workers: u32,
    gate: &G,
    writer: &mut Watched<W>,
) -> Result<Report, RunError>
    requires workers { (0 < workers) × (workers ≤ MOST_SEATS) }
    requires sound { has_failed writer.old ≡ false }
    ensures run { IsRun scenario.now (W.contents (wrapped writer.old)) (W.contents (wrapped writer.new)) result }
    ensures writer { has_failed writer.new ≡ is_write result }
    ensures divides { OnOk result (length division.now.of_node ≡ node_count scenario.now) }
    ensures bad { result ≡ Err RunError.BadDivision → (length division.now.of_node ≢ node_count scenario.now) × (writer.new ≡ writer.old) }
{
    let crew = Crew {
        division,
        workers,
        gate,
    };
    run_crew_started(rt, alloc, scenario, &crew, &mut AllStart, writer)
}

/// Runs a scenario as `run_crew`, but asks a starter before it starts each worker's thread. After a
/// refusal the starter is not asked again.
///
/// # Errors
///
/// `Worker`, if the starter refused or a thread could not be started; the others as `run_crew`.
pub fn run_crew_started<R: Threads + Wait + Sync, S: Starter, G: Gate + Sync, W: Write>(
    rt: &R,
    alloc: Global,
    scenario: &Scenario,
    crew: &Crew<'_, G>,
    starter: &mut S,
    writer: &mut Watched<W>,
) -> Result<Report, RunError>
    requires workers { (0 < crew.now.workers) × (crew.now.workers ≤ MOST_SEATS) }
    requires sound { has_failed writer.old ≡ false }
    ensures run { IsRun scenario.now (W.contents (wrapped writer.old)) (W.contents (wrapped writer.new)) result }
    ensures writer { has_failed writer.new ≡ is_write result }
    ensures divides { OnOk result (length crew.now.division.now.of_node ≡ node_count scenario.now) }
    ensures bad { result ≡ Err RunError.BadDivision → (length crew.now.division.now.of_node ≢ node_count scenario.now) × (writer.new ≡ writer.old) }
{
    let ring = ChordRing { scenario };
    des_crew::run_crew_started::<ChordRing<'_>, ChordScribe, S, G, R, W>(
        rt, alloc, &ring, crew, starter, writer,
    )
}

/// Runs a scenario as `run_crew`, but asks a dealer for a new division before each window. The
/// dealer is passed the number of events that each node has handled so far.
///
/// # Errors
///
/// `BadDivision`, if the dealer names a division of another number of nodes than the scenario
/// has; `Memory`, also if the dealer runs out of memory; the others as `run_crew`.
pub fn run_crew_dealt<R: Threads + Wait + Sync, D: Dealer, G: Gate + Sync, W: Write>(
    rt: &R,
    alloc: Global,
    scenario: &Scenario,
    workers: u32,
    dealer: &mut D,
    gate: &G,
    writer: &mut Watched<W>,
) -> Result<Report, RunError>
    requires workers { (0 < workers) × (workers ≤ MOST_SEATS) }
    requires sound { has_failed writer.old ≡ false }
    ensures run { IsRun scenario.now (W.contents (wrapped writer.old)) (W.contents (wrapped writer.new)) result }
    ensures writer { has_failed writer.new ≡ is_write result }
    ensures bad { result ≡ Err RunError.BadDivision → (has_failed writer.new ≡ false) × ((d : ADivision) × D.can_name (node_count scenario.now) d × (length d.of_node ≢ node_count scenario.now)) }
{
    let ring = ChordRing { scenario };
    let hands = Hands { workers, gate };
    des_dealt::run_crew_dealt::<ChordRing<'_>, ChordScribe, D, G, R, W>(
        rt, alloc, &ring, dealer, hands, writer,
    )
}
