//! Runs whose workers take turns on the calling thread.
ghost use Rattle.std.specs.Prelude.{◌≡◌, ◌≢◌, ◌⊎◌, ◌<◌, ◌≤◌, false, length, OnOk, IfOk, IfErr, Err};
ghost use Rattle.chord_output.specs.Runs.{IsRun};
ghost use Rattle.chord_scenario.specs.World.{node_count};
ghost use Rattle.chord_window.specs.PickedRuns.{AreStepsOf};
ghost use Rattle.des_picks.specs.PickedRuns.{report_in};
ghost use Rattle.des_output.specs.Watched.{wrapped, has_failed};
ghost use Rattle.des_output.specs.Writing.{is_write};

use chord_event::RunError;
use chord_output::{ChordRing, ChordScribe};
use chord_scenario::Scenario;
use chord_trace::{Report, Watched};
use des_picks::{Taken, Turns};
use des_window::Division;
use std::alloc::Global;
use std::io::Write;

/// Runs a scenario by windows, with 1 to 64 workers that take turns on the calling thread. Each
/// pick names the worker that takes the next step. After the picks it is the lowest worker that can
/// take one. Picks that name no worker, or one that can take no step, are skipped. Writes the
/// trace, and returns the report and the steps. What was written before an error is a beginning of
/// the trace.
///
/// # Errors
///
/// `BadDivision`, with nothing written, if the division has another number of nodes than the
/// scenario; `TooManyEvents`, `Write` and `Memory` as `chord_serial::run_serial`.
pub fn run_picked<W: Write>(
    alloc: Global,
    scenario: &Scenario,
    division: &Division,
    workers: u32,
    picks: &[u32],
    writer: &mut Watched<W>,
) -> Result<(Report, Vec<Taken>), RunError>
    requires workers { (0 < workers) × (workers ≤ 64) }
    requires sound { has_failed writer.old ≡ false }
    ensures run { IsRun scenario.now (W.contents (wrapped writer.old)) (W.contents (wrapped writer.new)) (report_in result) }
    ensures divides { OnOk result (length division.now.of_node ≡ node_count scenario.now) }
    ensures steps { IfOk result (λ run. AreStepsOf scenario.now division.now workers picks.now run.1.items) }
    ensures writer { has_failed writer.new ≡ is_write result }
    ensures bad { result ≡ Err RunError.BadDivision → (length division.now.of_node ≢ node_count scenario.now) × (writer.new ≡ writer.old) }
    ensures only { IfErr result (λ e. (e ≡ RunError.Memory) ⊎ (e ≡ RunError.TooManyEvents) ⊎ (e ≡ RunError.Write) ⊎ (e ≡ RunError.BadDivision)) }
{
    let ring = ChordRing { scenario };
    let turns = Turns { workers, picks };
    des_picks::run_picked::<ChordRing<'_>, ChordScribe, W>(alloc, &ring, division, turns, writer)
}
