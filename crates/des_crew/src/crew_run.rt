//! Runs by crews: windows whose parts are run by workers in threads.
ghost use Rattle.std.specs.Prelude.{◌≡◌, ◌≢◌, ◌⊎◌, ◌<◌, ◌≤◌, false, length, OnOk, IfOk, IfErr, Err};
ghost use Rattle.des_machine.specs.Runs.{IsRun};
ghost use Rattle.des_model.specs.Histories.{IsOverLimit};
ghost use Rattle.des_output.specs.Watched.{wrapped, has_failed};
ghost use Rattle.des_output.specs.Writing.{is_write};
ghost use Rattle.des_parts.specs.WindowEngine.{IsAt};
ghost use Rattle.des_parts.specs.Exchanges.{AreDone};
ghost use Rattle.des_parts.specs.PartRuns.{IsNextWindow};

use crate::all_parts::{Hands, run_all_parts};
use crate::course::Course;
use crate::draws::MOST_SEATS;
use crate::hooks::{AllStart, Gate, Starter};
use crate::window_parts::WindowParts;
use des_event::RunError;
use des_machine::{Machine, Scribe};
use des_output::Watched;
use des_parts::{CopiesStates, Done, Window, WindowEngine, in_part_order};
use des_window::Division;
use std::alloc::Global;
use std::io::Write;
use std::marker::{Send, Sync};
use std::sync::Wait;
use std::thread::Threads;

/// How a machine's nodes are divided into parts, how many workers run the parts of a window, and the
/// gate that each of them passes before a part.
#[derive(Drop)]
pub struct Crew<'a, G> {
    pub division: &'a Division,
    pub workers: u32,
    pub gate: &'a G,
}

/// Lets a crew run the parts of the world's next window. Returns what the parts leave, in the order
/// of the parts. Of several faults it returns `Worker`, else `Memory`, else `TooManyEvents`.
pub fn run_parts<M: CopiesStates + Sync, A: Starter, G: Gate + Sync, R: Threads + Wait + Sync>(
    rt: &R,
    window: &Window<'_, M>,
    hands: &Hands<'_, G>,
    starter: &mut A,
) -> Result<Vec<Done<M::State, M::Body, M::Piece>>, RunError>
where
    M::State: Send + Sync,
    M::Body: Send + Sync,
    M::Piece: Send,
    requires window { IsNextWindow (M.model window.now.machine.now) window.now.world.now window.now.horizon }
    requires workers { (0 < hands.now.workers) × (hands.now.workers ≤ MOST_SEATS) }
    ensures done { IfOk result (λ dones. AreDone (M.model window.now.machine.now) (M.Known window.now.machine.now) window.now.world.now window.now.horizon dones.items) }
    ensures over { result ≡ Err RunError.TooManyEvents → IsOverLimit (M.model window.now.machine.now) }
    ensures only { IfErr result (λ e. (e ≡ RunError.Worker) ⊎ (e ≡ RunError.Memory) ⊎ (e ≡ RunError.TooManyEvents)) }
{
    let runner = WindowParts { window };
    let dones = run_all_parts(rt, window.alloc, &runner, hands, starter)?;
    let parts = window.world.division.parts();
    Ok(in_part_order(window.alloc, parts, dones)?)
}

/// Runs a machine by windows. 1 to 64 workers, each in its own thread, run the parts of a window.
/// Writes the trace, window by window, and returns the report. The bytes and the report do not
/// depend on which worker draws which part. What was written before an error is a beginning of the
/// trace.
///
/// # Errors
///
/// `Worker`, if a thread could not be started; `BadDivision`, with nothing written, if the
/// division has another number of nodes than the machine; `TooManyEvents`, `Write` and `Memory` as
/// `des_serial::run_serial`. If several workers of a window fail, `Worker` comes before `Memory`,
/// and that before `TooManyEvents`.
pub fn run_crew<
    M: CopiesStates + Sync,
    S: Scribe<M> + Drop,
    G: Gate + Sync,
    R: Threads + Wait + Sync,
    W: Write,
>(
    rt: &R,
    alloc: Global,
    machine: &M,
    crew: &Crew<'_, G>,
    writer: &mut Watched<W>,
) -> Result<S::Report, RunError>
where
    M::State: Send + Sync,
    M::Body: Send + Sync,
    M::Piece: Send,
    requires workers { (0 < crew.now.workers) × (crew.now.workers ≤ MOST_SEATS) }
    requires sound { has_failed writer.old ≡ false }
    ensures run { IsRun (S.text machine.now) (M.model machine.now) (S.IsReport machine.now) (W.contents (wrapped writer.old)) (W.contents (wrapped writer.new)) result }
    ensures writer { has_failed writer.new ≡ is_write result }
    ensures divides { OnOk result (length crew.now.division.now.of_node ≡ (M.model machine.now).nodes) }
    ensures bad { result ≡ Err RunError.BadDivision → (length crew.now.division.now.of_node ≢ (M.model machine.now).nodes) × (writer.new ≡ writer.old) }
{
    run_crew_started::<M, S, AllStart, G, R, W>(rt, alloc, machine, crew, &mut AllStart, writer)
}

/// Runs a machine as `run_crew`, but asks a starter before it starts each worker's thread. After a
/// refusal the starter is not asked again.
///
/// # Errors
///
/// `Worker`, if the starter refused or a thread could not be started; the others as `run_crew`.
pub fn run_crew_started<
    M: CopiesStates + Sync,
    S: Scribe<M> + Drop,
    A: Starter,
    G: Gate + Sync,
    R: Threads + Wait + Sync,
    W: Write,
>(
    rt: &R,
    alloc: Global,
    machine: &M,
    crew: &Crew<'_, G>,
    starter: &mut A,
    writer: &mut Watched<W>,
) -> Result<S::Report, RunError>
where
    M::State: Send + Sync,
    M::Body: Send + Sync,
    M::Piece: Send,
    requires workers { (0 < crew.now.workers) × (crew.now.workers ≤ MOST_SEATS) }
    requires sound { has_failed writer.old ≡ false }
    ensures run { IsRun (S.text machine.now) (M.model machine.now) (S.IsReport machine.now) (W.contents (wrapped writer.old)) (W.contents (wrapped writer.new)) result }
    ensures writer { has_failed writer.new ≡ is_write result }
    ensures divides { OnOk result (length crew.now.division.now.of_node ≡ (M.model machine.now).nodes) }
    ensures bad { result ≡ Err RunError.BadDivision → (length crew.now.division.now.of_node ≢ (M.model machine.now).nodes) × (writer.new ≡ writer.old) }
{
    let course = Course {
        alloc,
        machine,
        hands: Hands {
            workers: crew.workers,
            gate: crew.gate,
        },
    };
    let mut engine = WindowEngine::start(alloc, machine, crew.division)?;
    let outcome = run_windows::<M, S, A, G, R, W>(rt, &course, &mut engine, starter, writer);
    // By one call: at each end of a function a struct is dropped field by field.
    drop(engine);
    outcome
}

/// Runs the windows of a run that has started, and finishes it.
fn run_windows<
    M: CopiesStates + Sync,
    S: Scribe<M> + Drop,
    A: Starter,
    G: Gate + Sync,
    R: Threads + Wait + Sync,
    W: Write,
>(
    rt: &R,
    course: &Course<'_, M, G>,
    engine: &mut WindowEngine<M, S>,
    starter: &mut A,
    writer: &mut Watched<W>,
) -> Result<S::Report, RunError>
where
    M::State: Send + Sync,
    M::Body: Send + Sync,
    M::Piece: Send,
    requires at { IsAt (S.text course.now.machine.now) (M.model course.now.machine.now) (S.HasCounted course.now.machine.now) (W.contents (wrapped writer.old)) (W.contents (wrapped writer.old)) engine.old }
    requires workers { (0 < course.now.hands.workers) × (course.now.hands.workers ≤ MOST_SEATS) }
    requires sound { has_failed writer.old ≡ false }
    ensures run { IsRun (S.text course.now.machine.now) (M.model course.now.machine.now) (S.IsReport course.now.machine.now) (W.contents (wrapped writer.old)) (W.contents (wrapped writer.new)) result }
    ensures writer { has_failed writer.new ≡ is_write result }
    ensures only { IfErr result (λ e. (e ≡ RunError.Worker) ⊎ (e ≡ RunError.Memory) ⊎ (e ≡ RunError.TooManyEvents) ⊎ (e ≡ RunError.Write)) }
{
    let alloc = course.alloc;
    let machine = course.machine;
    while let Some(opening) = engine.opening() {
        let window = Window {
            alloc,
            machine,
            world: engine.world(),
            horizon: opening.horizon,
        };
        let dones = run_parts(rt, &window, &course.hands, starter)?;
        engine.put_window(alloc, machine, opening, dones, writer)?;
    }
    engine.finish(alloc, machine, writer)
}
