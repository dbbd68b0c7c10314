//! Runs by crews whose nodes are divided again before each window.
ghost use Rattle.std.specs.Prelude.{◌≡◌, ◌≢◌, ◌⊎◌, ◌<◌, ◌≤◌, ℕ, List, Option, false, length, Err, IfErr, OnOk};
ghost use Rattle.des_machine.specs.Runs.{IsRun};
ghost use Rattle.des_machine.specs.Simulable.{IsSimulable};
ghost use Rattle.des_model.specs.Windows.{Division as ADivision};
ghost use Rattle.des_output.specs.Watched.{wrapped, has_failed};
ghost use Rattle.des_output.specs.Writing.{is_write};
ghost use Rattle.des_parts.specs.WindowEngine.{IsAt};

use crate::dealer::Dealer;
use crate::loads::count_events;
use des_crew::{AllStart, Course, Gate, Hands, MOST_SEATS, run_parts};
use des_event::RunError;
use des_machine::{Machine, Scribe};
use des_output::Watched;
use des_parts::{CopiesStates, Window, WindowEngine};
use des_redivide::divide_again;
use des_window::Division;
use std::alloc::Global;
use std::io::Write;
use std::marker::{Send, Sync};
use std::sync::Wait;
use std::thread::Threads;

/// Runs a machine as `run_crew`, but asks a dealer for a new division before each window. The
/// dealer is passed the number of events that each node has handled so far.
///
/// # Errors
///
/// `BadDivision`, if the dealer names a division of another number of nodes than the machine has;
/// `Memory`, also if the dealer runs out of memory; the others as `run_crew`.
pub fn run_crew_dealt<
    M: CopiesStates + Sync,
    S: Scribe<M> + Drop,
    D: Dealer,
    G: Gate + Sync,
    R: Threads + Wait + Sync,
    W: Write,
>(
    rt: &R,
    alloc: Global,
    machine: &M,
    dealer: &mut D,
    hands: Hands<'_, G>,
    writer: &mut Watched<W>,
) -> Result<S::Report, RunError>
where
    M::State: Send + Sync,
    M::Body: Send + Sync,
    M::Piece: Send,
    requires workers { (0 < hands.workers) × (hands.workers ≤ MOST_SEATS) }
    requires sound { has_failed writer.old ≡ false }
    ensures run { IsRun (S.text machine.now) (M.model machine.now) (S.IsReport machine.now) (W.contents (wrapped writer.old)) (W.contents (wrapped writer.new)) result }
    ensures writer { has_failed writer.new ≡ is_write result }
    ensures bad { result ≡ Err RunError.BadDivision → (has_failed writer.new ≡ false) × ((d : ADivision) × D.can_name (M.model machine.now).nodes d × (length d.of_node ≢ (M.model machine.now).nodes)) }
{
    // All nodes in one part: the dealer is asked before each window and never otherwise, so a run
    // without windows never asks it.
    let whole = Division::of_list(1, vec![in alloc; 0u32; machine.nodes() as usize]?);
    let mut engine = WindowEngine::start(alloc, machine, &whole)?;
    let course = Course {
        alloc,
        machine,
        hands,
    };
    let outcome = deal_windows::<M, S, D, G, R, W>(rt, &course, &mut engine, dealer, writer);
    // By one call: at each end of a function a struct is dropped field by field.
    drop(engine);
    outcome
}

/// Runs the windows of a run that has started, each by a division of the dealer, and finishes it.
fn deal_windows<
    M: CopiesStates + Sync,
    S: Scribe<M> + Drop,
    D: Dealer,
    G: Gate + Sync,
    R: Threads + Wait + Sync,
    W: Write,
>(
    rt: &R,
    course: &Course<'_, M, G>,
    engine: &mut WindowEngine<M, S>,
    dealer: &mut D,
    writer: &mut Watched<W>,
) -> Result<S::Report, RunError>
where
    M::State: Send + Sync,
    M::Body: Send + Sync,
    M::Piece: Send,
    requires at { IsAt (S.text course.now.machine.now) (M.model course.now.machine.now) (S.HasCounted course.now.machine.now) (W.contents (wrapped writer.old)) (W.contents (wrapped writer.old)) engine.old }
    requires workers { (0 < course.now.hands.workers) × (course.now.hands.workers ≤ MOST_SEATS) }
    requires sound { has_failed writer.old ≡ false }
    ensures run { IsRun (S.text course.now.machine.now) (M.model course.now.machine.now) (S.IsReport course.now.machine.now) (W.contents (wrapped writer.old)) (W.contents (wrapped writer.new)) result }
    ensures writer { has_failed writer.new ≡ is_write result }
    ensures bad { result ≡ Err RunError.BadDivision → (has_failed writer.new ≡ false) × ((d : ADivision) × D.can_name (M.model course.now.machine.now).nodes d × (length d.of_node ≢ (M.model course.now.machine.now).nodes)) }
{
    let alloc = course.alloc;
    let machine = course.machine;
    recall_laws(machine);
    let mut loads = vec![in alloc; 0u64; machine.nodes() as usize]?;
    while let Some(opening) = engine.opening() {
        let division = dealer.deal(loads.as_slice())?;
        redivide(alloc, machine, engine, &division)?;
        let window = Window {
            alloc,
            machine,
            world: engine.world(),
            horizon: opening.horizon,
        };
        let dones = run_parts(rt, &window, &course.hands, &mut AllStart)?;
        count_events(&mut loads, dones.as_slice());
        engine.put_window(alloc, machine, opening, dones, writer)?;
    }
    engine.finish(alloc, machine, writer)
}

/// Divides the nodes of a run again, from the next window on. After an error the run cannot go on.
fn redivide<M: Machine, S: Scribe<M> + Drop>(
    alloc: Global,
    machine: &M,
    engine: &mut WindowEngine<M, S>,
    division: &Division,
) -> Result<(), RunError>
    requires at { (old : Option (List ℕ)) × (now : Option (List ℕ)) × IsAt (S.text machine.now) (M.model machine.now) (S.HasCounted machine.now) old now engine.old }
    ensures at { OnOk result ((old now : Option (List ℕ)) → IsAt (S.text machine.now) (M.model machine.now) (S.HasCounted machine.now) old now engine.old → IsAt (S.text machine.now) (M.model machine.now) (S.HasCounted machine.now) old now engine.new) }
    ensures count { OnOk result (engine.new.world.count ≡ engine.old.world.count) }
    ensures opening { OnOk result (engine.new.world.opening ≡ engine.old.world.opening) }
    ensures division { OnOk result (engine.new.world.division ≡ division.now) }
    ensures bad { result ≡ Err RunError.BadDivision → length division.now.of_node ≢ (M.model machine.now).nodes }
    ensures only { IfErr result (λ e. (e ≡ RunError.Memory) ⊎ (e ≡ RunError.BadDivision)) }
{
    divide_again(alloc, machine, &mut engine.world, division)?;
    Ok(())
}

/// Hands the prover the laws that hold of the machine. It does nothing else.
fn recall_laws<M: Machine>(machine: &M)
    ensures { IsSimulable (M.model machine.now) (M.Sound machine.now) (M.Fit machine.now) (M.Room machine.now) }
{
    machine.recall();
}
