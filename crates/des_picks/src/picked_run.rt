//! Runs whose workers take turns on the calling thread.
ghost use Rattle.std.specs.Prelude.{◌≡◌, ◌≢◌, ◌⊎◌, ◌<◌, ◌≤◌, false, length, OnOk, IfOk, IfErr, Err};
ghost use Rattle.des_machine.specs.Runs.{IsRun};
ghost use Rattle.des_output.specs.Watched.{wrapped, has_failed};
ghost use Rattle.des_output.specs.Writing.{is_write};
ghost use Rattle.des_parts.specs.WindowEngine.{IsAt};
ghost use Rattle.des_picks.specs.PickedRuns.{AreStepsOf, report_in};

use crate::picked_window::PickedWindow;
use crate::step::Taken;
use des_event::RunError;
use des_machine::{Machine, Scribe};
use des_output::Watched;
use des_parts::{CopiesStates, Window, WindowEngine};
use des_window::Division;
use std::alloc::Global;
use std::io::Write;

/// How many workers take turns, and whose turn it is.
#[derive(Clone, Copy)]
pub struct Turns<'a> {
    /// 1 to 64.
    pub workers: u32,
    /// Each names the worker that takes the next step.
    pub picks: &'a [u32],
}

/// Runs a machine by windows, with 1 to 64 workers that take turns on the calling thread. Each
/// pick names the worker that takes the next step. After the picks it is the lowest worker that can
/// take one. Picks that name no worker, or one that can take no step, are skipped. Writes the
/// trace, and returns the report and the steps. What was written before an error is a beginning of
/// the trace.
///
/// # Errors
///
/// `BadDivision`, with nothing written, if the division has another number of nodes than the
/// machine; `TooManyEvents`, `Write` and `Memory` as `des_serial::run_serial`.
pub fn run_picked<M: CopiesStates, S: Scribe<M> + Drop, W: Write>(
    alloc: Global,
    machine: &M,
    division: &Division,
    turns: Turns<'_>,
    writer: &mut Watched<W>,
) -> Result<(S::Report, Vec<Taken>), RunError>
    requires workers { (0 < turns.workers) × (turns.workers ≤ 64) }
    requires sound { has_failed writer.old ≡ false }
    ensures run { IsRun (S.text machine.now) (M.model machine.now) (S.IsReport machine.now) (W.contents (wrapped writer.old)) (W.contents (wrapped writer.new)) (report_in result) }
    ensures divides { OnOk result (length division.now.of_node ≡ (M.model machine.now).nodes) }
    ensures steps { IfOk result (λ run. AreStepsOf (M.model machine.now) division.now turns.entry.workers turns.entry.picks.now run.1.items) }
    ensures writer { has_failed writer.new ≡ is_write result }
    ensures bad { result ≡ Err RunError.BadDivision → (length division.now.of_node ≢ (M.model machine.now).nodes) × (writer.new ≡ writer.old) }
    ensures only { IfErr result (λ e. (e ≡ RunError.Memory) ⊎ (e ≡ RunError.TooManyEvents) ⊎ (e ≡ RunError.Write) ⊎ (e ≡ RunError.BadDivision)) }
{
    let mut engine = WindowEngine::<M, S>::start(alloc, machine, division)?;
    let outcome = run_windows(&mut engine, alloc, machine, turns, writer);
    // By one call: at each end of a function a struct is dropped field by field.
    drop(engine);
    outcome
}

/// Runs the windows of a run that has started, and finishes it.
fn run_windows<M: CopiesStates, S: Scribe<M> + Drop, W: Write>(
    engine: &mut WindowEngine<M, S>,
    alloc: Global,
    machine: &M,
    turns: Turns<'_>,
    writer: &mut Watched<W>,
) -> Result<(S::Report, Vec<Taken>), RunError>
    requires at { IsAt (S.text machine.now) (M.model machine.now) (S.HasCounted machine.now) (W.contents (wrapped writer.old)) (W.contents (wrapped writer.old)) engine.old }
    requires count { engine.old.world.count ≡ 0 }
    requires workers { (0 < turns.workers) × (turns.workers ≤ 64) }
    requires sound { has_failed writer.old ≡ false }
    ensures run { IsRun (S.text machine.now) (M.model machine.now) (S.IsReport machine.now) (W.contents (wrapped writer.old)) (W.contents (wrapped writer.new)) (report_in result) }
    ensures steps { IfOk result (λ run. AreStepsOf (M.model machine.now) engine.old.world.division turns.entry.workers turns.entry.picks.now run.1.items) }
    ensures writer { has_failed writer.new ≡ is_write result }
    ensures only { IfErr result (λ e. (e ≡ RunError.Memory) ⊎ (e ≡ RunError.TooManyEvents) ⊎ (e ≡ RunError.Write)) }
{
    machine.recall();
    let mut picked = PickedWindow::new(alloc, turns.workers)?;
    let mut next = 0;
    let mut taken = Vec::new(alloc);
    while let Some(opening) = engine.opening() {
        let window = Window {
            alloc,
            machine,
            world: engine.world(),
            horizon: opening.horizon,
        };
        let dones = picked.run(&window, turns.picks, &mut next, &mut taken)?;
        engine.put_window(alloc, machine, opening, dones, writer)?;
    }
    let report = engine.finish(alloc, machine, writer)?;
    Ok((report, taken))
}
