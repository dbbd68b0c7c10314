//! Runs by crews: workers in their own threads.
ghost use Rattle.std.specs.Prelude.{◌≡◌, ◌<◌, ◌≤◌, None, Some, true, slice_get, IfOk};
ghost use Rattle.chord_window.specs.Ordering.{ArePartsDone};
ghost use Rattle.des_parts.specs.Ordering.{HasEachOnce};

use crate::examples::own_window::window_by_one;
use crate::examples::table::TWO_LOOKUPS;
use crate::tests::gates::{
    Broken, CountGate, Counting, Log, LogGate, LogRunner, PairGate, SizeGate,
};
use crate::tests::left::Left;
use crate::tests::ring_of_three::{ring_with, two_lookups};
use crate::tests::steps::{holds, is_text, value_of};
use crate::tests::windows::{divide, horizon_of};
use chord_crew::{Draws, Gate, MOST_SEATS, OpenGate, Seat, WindowParts, run_crew, work_by};
use chord_event::{Memory, RunError};
use chord_play::Split;
use chord_scenario::Scenario;
use chord_trace::Watched;
use chord_window::{Division, Window, World, exchange, run_picked};
use std::alloc::Global;
use std::process::Abort;
use std::snapshot::Snapshot;
use std::sync::atomic::{AtomicU64, Ordering};
use std::sync::{Mutex, Wait};
use std::thread::Threads;

/// Runs a scenario by `workers` workers.
fn run_by<T: Abort + AllocGlobal + Threads + Wait + Sync, G: Gate + Sync>(
    rt: &T,
    scenario: &Scenario,
    division: &Division,
    workers: u32,
    gate: &G,
) -> Left
    requires { (0 < workers) × (workers ≤ MOST_SEATS) }
{
    let alloc = rt.alloc();
    let mut writer = Watched::new(Vec::new(alloc));
    let outcome = run_crew(rt, alloc, scenario, division, workers, gate, &mut writer);
    Left::of_run(rt, writer.into_inner(), &outcome)
}

/// A division of four nodes does not fit a ring of three, and nothing is written.
#[test]
fn a_crew_with_a_division_of_other_nodes(rt: HostRuntime) {
    let alloc = rt.alloc();
    let scenario = two_lookups(&rt, 50);
    let division = value_of(&rt, Division::dealt(rt.alloc(), 4, 2));
    let left = run_by(&rt, &scenario, &division, 2, &OpenGate);
    left.is(&rt, &"four nodes", "", "BadDivision");
}

/// Whether these are workers 0 and 1, in any order.
fn is_pair(workers: &[AtomicU64]) -> bool {
    let [one, other] = workers else {
        return false;
    };
    let (one, other) = (one.load(Ordering::SeqCst), other.load(Ordering::SeqCst));
    (one == 0 && other == 1) || (one == 1 && other == 0)
}

#[test]
fn two_workers_pass_in_pairs(rt: HostRuntime) {
    let alloc = rt.alloc();
    let scenario = two_lookups(&rt, 50);
    let division = divide(&rt, &scenario, Split::Blocks, 2);
    let gate = PairGate::new();
    let left = run_by(&rt, &scenario, &division, 2, &gate);
    left.has_written(&rt, &"two lookups", TWO_LOOKUPS.trace);
    assert!(rt; gate.passes.load(Ordering::SeqCst) == 8);
    assert!(rt; gate.alone.load(Ordering::SeqCst) == 0);
    for pair in gate.workers.chunks(2) {
        holds(&rt, is_pair(pair), &pair.len());
    }
}

/// What a window leaves is written before the next one begins: the lines of the two lookups after the first, those of
/// the replies after the third, the audit at the end. The gate is passed the parts in the order in which the one worker
/// draws them.
#[test]
fn each_window_is_put_out_at_its_end(rt: HostRuntime) {
    let alloc = rt.alloc();
    let scenario = two_lookups(&rt, 50);
    let division = divide(&rt, &scenario, Split::Blocks, 2);
    let taken = AtomicU64::new(0);
    let gate = SizeGate::new(&taken);
    let mut writer = Watched::new(Counting { taken: &taken });
    let outcome = run_crew(&rt, alloc, &scenario, &division, 1, &gate, &mut writer);
    value_of(&rt, outcome);
    assert!(rt; gate.passes() == 8);
    assert!(rt; gate.parts() == [0, 1, 0, 1, 0, 1, 0, 1]);
    assert!(rt; gate.sizes() == [0, 0, 32, 32, 32, 32, 116, 116]);
    assert!(rt; taken.load(Ordering::SeqCst) == 190);
}

/// One worker runs a window of two parts, with a gate and a runner that write to one log.
#[test]
fn a_gate_is_passed_before_its_part_is_run(rt: HostRuntime) {
    let alloc = rt.alloc();
    let scenario = two_lookups(&rt, 50);
    let division = divide(&rt, &scenario, Split::Blocks, 2);
    let world = value_of(&rt, World::start(alloc, &scenario, &division));
    let horizon = horizon_of(&rt, &scenario, &world);
    let window = Window {
        alloc,
        scenario: &scenario,
        world: &world,
        horizon,
    };
    world.kernel.division.recall_division();
    let (draws, seat) = value_of(&rt, Draws::start(alloc, world.kernel.division.parts(), 1));
    let log = Log::new();
    let gate = LogGate { log: &log };
    let parts = WindowParts { window };
    let runner = LogRunner {
        log: &log,
        runner: &parts,
    };
    let shift = work_by(&runner, alloc, &draws, seat, 3, &gate);
    assert!(rt; shift.fault.is_none() && shift.done.len() == 2);
    assert!(rt; log.count.load(Ordering::SeqCst) == 4);
    for (note, expected) in log.notes.iter().zip([300, 0, 301, 1]) {
        holds(&rt, note.load(Ordering::SeqCst) == expected, &expected);
    }
}

/// The settings of a run whose first window has an audit, and which allows fewer events than that window has.
const AUDITED: &str =
    "list = 2\nduration_us = 200\nwindow_us = 10\ntimeout_us = 40\naudit_us = 100\nstabilize_us = 1000\nfinger_us = 1000\nmax_events = 1\n";

/// That a window has too many events is found before any of it is written, in two parts as in one: the writer fails at
/// the window's audit, and is never called.
#[test]
fn too_many_events_come_before_a_failed_write(rt: HostRuntime) {
    let alloc = rt.alloc();
    let scenario = ring_with(&rt, AUDITED, TWO_LOOKUPS.commands);
    let one = divide(&rt, &scenario, Split::Blocks, 1);
    let two = divide(&rt, &scenario, Split::Blocks, 2);
    for division in [&one, &two] {
        let mut writer = Watched::new(Broken);
        let by_crew = run_crew(&rt, alloc, &scenario, division, 2, &OpenGate, &mut writer).err();
        assert!(rt; by_crew == Some(RunError::TooManyEvents));
        let mut writer = Watched::new(Broken);
        let picked = run_picked(alloc, &scenario, division, 2, &[], &mut writer).err();
        assert!(rt; picked == Some(RunError::TooManyEvents));
    }
}

/// One event is allowed, and the first window has two in its one part. The part's run fails, and its gate is passed
/// once.
#[test]
fn a_gate_is_passed_for_a_part_that_fails(rt: HostRuntime) {
    let scenario = two_lookups(&rt, 1);
    let division = divide(&rt, &scenario, Split::Blocks, 1);
    let gate = CountGate {
        rt: &rt,
        passes: Mutex::new(0),
    };
    let left = run_by(&rt, &scenario, &division, 1, &gate);
    is_text(&rt, left.end.as_str(), "TooManyEvents");
    assert!(rt; *gate.passes.lock(&rt) == 1);
}

#[test]
fn a_gate_may_wait(rt: HostRuntime) {
    let scenario = two_lookups(&rt, 50);
    let division = divide(&rt, &scenario, Split::Blocks, 3);
    let gate = CountGate {
        rt: &rt,
        passes: Mutex::new(0),
    };
    let left = run_by(&rt, &scenario, &division, 3, &gate);
    left.has_written(&rt, &"two lookups", TWO_LOOKUPS.trace);
    assert!(rt; *gate.passes.lock(&rt) == 12);
}

/// One worker alone draws both parts of the first window, and each runs its one event.
#[test]
fn one_worker_alone(rt: HostRuntime) {
    let alloc = rt.alloc();
    let scenario = two_lookups(&rt, 50);
    let division = divide(&rt, &scenario, Split::Blocks, 2);
    let mut world = value_of(&rt, World::start(alloc, &scenario, &division));
    let horizon = horizon_of(&rt, &scenario, &world);
    assert!(rt; horizon == 110);
    let window = Window {
        alloc,
        scenario: &scenario,
        world: &world,
        horizon,
    };
    let dones = value_of(&rt, window_by_one(&window));
    assert!(rt; dones.len() == 2);
    for done in dones.iter() {
        assert!(rt; done.events == 1);
    }
    let lists = value_of(&rt, exchange(alloc, &scenario, &mut world, dones));
    assert!(rt; lists.len() == 2 && world.kernel.count == 2);
}

/// Two seats draw five times alternately, and are joined. The snapshot shows the joined seat to the contract.
fn draw_in_turn(alloc: Global) -> Result<([Option<u32>; 5], Snapshot<Seat>), Memory>
    ensures allowance { IfOk result (λ r. r.1.value.allowance ≡ 2) }
    ensures exhausted { IfOk result (λ r. slice_get r.0 3 ≡ Some None → slice_get r.0 4 ≡ Some None → r.1.value.is_exhausted ≡ true) }
    ensures each_once { IfOk result (λ r. slice_get r.0 4 ≡ Some None → HasEachOnce 3 r.1.value.numbers) }
{
    let (draws, mut first) = Draws::start(alloc, 3, 2)?;
    let mut second = draws.split(&mut first);
    let a = draws.draw(&mut first);
    let b = draws.draw(&mut second);
    let c = draws.draw(&mut first);
    let d = draws.draw(&mut second);
    let e = draws.draw(&mut first);
    draws.join(&mut first, second);
    let seat = Snapshot::of(&first);
    draws.close(first);
    Ok(([a, b, c, d, e], seat))
}

#[test]
fn numbers_come_in_turn(rt: HostRuntime) {
    let (answers, _seat) = value_of(&rt, draw_in_turn(rt.alloc()));
    assert!(rt; answers == [Some(0), Some(1), Some(2), None, None]);
}
