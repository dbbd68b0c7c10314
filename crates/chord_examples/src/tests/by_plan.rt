//! Neither the workers nor the parts of a plan change what a scenario leaves, but a run has those that its plan says: a
//! starter and a gate note them.
ghost use Rattle.std.specs.Prelude.{◌≡◌, ◌≤◌};

use crate::examples::play::{SERIAL, SETTINGS, THREE, text_of};
use crate::examples::table::{Example, TWO_LOOKUPS, example_groups};
use crate::tests::by_example::leaves_example;
use crate::tests::gates::{NotesStarts, SizeGate};
use crate::tests::left::{play_text, play_texts};
use crate::tests::random_texts::{Dice, RandomTexts, random_texts};
use crate::tests::ring_of_three::two_lookups;
use crate::tests::steps::{holds, value_of};
use chord_play::{Engine, Plan, Split, run_planned};
use chord_trace::Watched;
use std::process::Abort;
use std::sync::Wait;
use std::sync::atomic::AtomicU64;
use std::thread::Threads;

/// The number of plans.
const PLANS: u64 = 40;

/// The number of seeds from which a random scenario is made.
const SEEDS: u64 = 44;

/// The engines that have workers.
const CREW_AND_TEAM: [Engine; 2] = [Engine::Crew, Engine::Team];

/// The plan of this number: 1, 2, 3, 8 or 64 workers, 1, 2, 7 or 512 parts, and one split or the other.
fn plan_of(engine: Engine, number: u64) -> Plan {
    let workers = match number % 5 {
        0 => 1,
        1 => 2,
        2 => 3,
        3 => 8,
        _ => 64,
    };
    let parts = match number / 5 % 4 {
        0 => 1,
        1 => 2,
        2 => 7,
        _ => 512,
    };
    Plan {
        engine,
        workers,
        parts,
        split: if number / 20 % 2 == 0 {
            Split::RoundRobin
        } else {
            Split::Blocks
        },
    }
}

/// Three plans for each example by a crew and by a team, and all plans among these.
#[test]
fn examples_by_plans(rt: HostRuntime) {
    let mut number = 0;
    for group in example_groups() {
        leave_by_plans(&rt, group, number);
        number = number.wrapping_add(15);
    }
}

/// Asserts that each of five examples has by three plans what it has by the rules, the first by the plan of this number.
fn leave_by_plans<T: Abort + AllocGlobal + Threads + Wait + Sync>(
    rt: &T,
    group: &[Example],
    first: u64,
) {
    let mut number = first;
    for example in group {
        leaves_by_plans(rt, example, number);
        number = number.wrapping_add(3);
    }
}

/// Asserts that an example has by a crew and by a team of three plans what it has by the rules.
fn leaves_by_plans<T: Abort + AllocGlobal + Threads + Wait + Sync>(
    rt: &T,
    example: &Example,
    first: u64,
) {
    for more in 0..3 {
        for engine in CREW_AND_TEAM {
            leaves_example(rt, example, &plan_of(engine, first.wrapping_add(more)));
        }
    }
}

/// If one event is allowed, a serial plan writes what that one leaves. By workers the first window
/// has two events, and a window that fails writes nothing: so they do not run one event at a time.
#[test]
fn plans_differ_in_what_fails(rt: HostRuntime) {
    let settings = format!(in rt.alloc(); "{SETTINGS}max_events = 1\n");
    let settings = value_of(&rt, settings);
    let text = text_of(rt.alloc(), settings.as_str(), THREE, TWO_LOOKUPS.commands);
    let text = value_of(&rt, text);
    let serial = play_text(&rt, text.as_str());
    serial.is(&rt, &SERIAL, "100 n0 lookup 4\n", "TooManyEvents");
    for number in 0..PLANS {
        for engine in CREW_AND_TEAM {
            let plan = plan_of(engine, number);
            let other = play_texts(&rt, text.as_str().as_bytes(), b"", &plan);
            other.is(&rt, &plan, "", "TooManyEvents");
        }
    }
}

/// Asserts that a random scenario, if it is accepted, leaves the same by a crew and by a team of the plan of this number
/// as one event at a time. Returns whether it is accepted.
fn leaves_the_same<T: Abort + AllocGlobal + Threads + Wait + Sync>(
    rt: &T,
    texts: &RandomTexts,
    number: u64,
) -> bool {
    let toml = texts.toml.as_str().as_bytes();
    let csv = texts.csv.as_str().as_bytes();
    let one = play_texts(rt, toml, csv, &SERIAL);
    if one.end.as_str() == "refused" {
        return false;
    }
    holds(rt, one.has_ended(), &number);
    for engine in CREW_AND_TEAM {
        let plan = plan_of(engine, number);
        let other = play_texts(rt, toml, csv, &plan);
        other.is(rt, &(number, plan), one.trace.as_str(), one.end.as_str());
    }
    true
}

#[test]
fn random_scenarios_by_plans(rt: HostRuntime) {
    let mut accepted: u64 = 0;
    for seed in 0..SEEDS {
        let mut dice = Dice { state: 1000 + seed };
        let texts = value_of(&rt, random_texts(rt.alloc(), &mut dice, 400));
        if leaves_the_same(&rt, &texts, seed) {
            accepted = accepted.wrapping_add(1);
        }
    }
    assert!(rt; accepted >= 40, "{accepted}");
}

/// Runs two lookups by a plan with this gate. Returns the number of each worker that is started.
fn starts_by<T: Abort + AllocGlobal + Threads + Wait + Sync>(
    rt: &T,
    plan: &Plan,
    gate: &SizeGate<'_>,
) -> Vec<u32> {
    let alloc = rt.alloc();
    let scenario = two_lookups(rt, 50);
    let mut starter = NotesStarts::new(alloc);
    let mut writer = Watched::new(Vec::new(alloc));
    let outcome = run_planned(rt, alloc, &scenario, plan, &mut starter, gate, &mut writer);
    value_of(rt, outcome);
    assert!(rt; writer.into_inner().as_slice() == TWO_LOOKUPS.trace.as_bytes());
    starter.workers
}

/// Whether so many workers are started in turn, worker 0 first, and so on for so many windows.
fn are_in_turn(started: &[u32], workers: usize, windows: usize) -> bool {
    started.len() == workers.saturating_mul(windows)
        && started
            .iter()
            .enumerate()
            .all(|(i, worker)| *worker as usize == i % workers.max(1))
}

/// Whether these are the parts 0 to 2, in any order.
fn are_three(parts: &[u64]) -> bool {
    parts.len() == 3 && (0..3u64).all(|part| parts.contains(&part))
}

/// What a starter and a gate note of the two lookups by a plan.
#[derive(Drop)]
struct Noted {
    /// The number of each worker that is started.
    started: Vec<u32>,
    /// How often the gate is passed.
    passes: u64,
    /// The parts of the first eight passes.
    parts: [u64; 8],
}

fn noted_by<T: Abort + AllocGlobal + Threads + Wait + Sync>(rt: &T, plan: &Plan) -> Noted {
    let taken = AtomicU64::new(0);
    let gate = SizeGate::new(&taken);
    let started = starts_by(rt, plan, &gate);
    Noted {
        started,
        passes: gate.passes(),
        parts: gate.parts(),
    }
}

/// Each of the four windows has two threads and three parts.
#[test]
fn two_workers_and_three_parts(rt: HostRuntime) {
    let plan = Plan {
        engine: Engine::Crew,
        workers: 2,
        parts: 3,
        split: Split::Blocks,
    };
    let Noted {
        started,
        passes,
        parts,
    } = noted_by(&rt, &plan);
    assert!(rt; are_in_turn(started.as_slice(), 2, 4) && passes == 12);
    assert!(rt; are_three(&parts[..3]) && are_three(&parts[3..6]));
}

/// More workers than parts have a thread each, too.
#[test]
fn three_workers_on_one_part(rt: HostRuntime) {
    let plan = Plan {
        engine: Engine::Crew,
        workers: 3,
        parts: 1,
        split: Split::RoundRobin,
    };
    let Noted {
        started,
        passes,
        parts,
    } = noted_by(&rt, &plan);
    assert!(rt; are_in_turn(started.as_slice(), 3, 4) && passes == 4);
    assert!(rt; parts[..4] == [0, 0, 0, 0]);
}
