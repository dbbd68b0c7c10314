//! Crews whose nodes are divided again before each window, or whose threads may not all start.
ghost use Rattle.std.specs.Prelude.{◌≡◌, ◌<◌, ◌≤◌, length};

use crate::examples::play::{SETTINGS, text_of};
use crate::examples::table::TWO_LOOKUPS;
use crate::tests::divisions::divides;
use crate::tests::gates::{NotesStarts, SizeGate};
use crate::tests::left::Left;
use crate::tests::ring_of_three::{is_beginning, scenario_of, two_lookups};
use crate::tests::steps::{holds, value_of};
use chord_crew::{
    Balanced, Crew, Dealer, Gate, MOST_SEATS, OpenGate, Starter, run_crew_dealt, run_crew_started,
};
use chord_event::{Memory, RunError};
use chord_scenario::Scenario;
use chord_serial::run_serial;
use chord_trace::Watched;
use chord_window::{Division, MOST_PARTS};
use std::alloc::Global;
use std::process::Abort;
use std::sync::Wait;
use std::sync::atomic::AtomicU64;
use std::thread::Threads;

/// What a dealer returns for a ring of three nodes.
#[derive(Clone, Copy)]
enum Answer {
    ByTurns,
    ByBlocks,
    InOnePart,
    EachAlone,
    OfFourNodes,
    Refused,
}

fn answered(alloc: Global, answer: Answer) -> Result<Division, Memory> {
    match answer {
        Answer::ByTurns => Division::dealt(alloc, 3, 2),
        Answer::ByBlocks => Division::blocks(alloc, 3, 2),
        Answer::InOnePart => Division::dealt(alloc, 3, 1),
        Answer::EachAlone => Division::dealt(alloc, 3, 3),
        Answer::OfFourNodes => Division::dealt(alloc, 4, 2),
        Answer::Refused => Err(Memory),
    }
}

/// A dealer that returns two results alternately. It notes the loads that it is passed.
#[derive(Drop)]
struct InTurn {
    alloc: Global,
    first: Answer,
    second: Answer,
    calls: u32,
    loads: Vec<u64>,
}

impl InTurn {
    fn new(alloc: Global, first: Answer, second: Answer) -> InTurn {
        InTurn {
            alloc,
            first,
            second,
            calls: 0,
            loads: Vec::new(alloc),
        }
    }
}

impl Dealer for InTurn {
    ghost can_name = { λ _ _. Unit {0} };

    fn deal(&mut self, loads: &[u64]) -> Result<Division, Memory> {
        self.loads.extend_from_slice(loads)?;
        let answer = if self.calls % 2 == 0 {
            self.first
        } else {
            self.second
        };
        self.calls = self.calls.saturating_add(1);
        answered(self.alloc, answer)
    }
}

/// Runs a scenario by `workers` workers, with the divisions of a dealer.
fn run_dealt<T, D: Dealer, G: Gate + Sync>(
    rt: &T,
    scenario: &Scenario,
    workers: u32,
    dealer: &mut D,
    gate: &G,
) -> Left
where
    T: Abort + AllocGlobal + Threads + Wait + Sync,
    requires { (0 < workers) × (workers ≤ MOST_SEATS) }
{
    let alloc = rt.alloc();
    let mut writer = Watched::new(Vec::new(alloc));
    let outcome = run_crew_dealt(rt, alloc, scenario, workers, dealer, gate, &mut writer);
    Left::of_run(rt, writer.into_inner(), &outcome)
}

/// The dealer is asked before each of the four windows, and passed what each node has handled so far.
#[test]
fn a_dealer_is_told_the_loads(rt: HostRuntime) {
    let scenario = two_lookups(&rt, 50);
    let mut dealer = InTurn::new(rt.alloc(), Answer::ByTurns, Answer::ByBlocks);
    let left = run_dealt(&rt, &scenario, 2, &mut dealer, &OpenGate);
    left.ends_with(&rt, &"in turn", TWO_LOOKUPS.trace);
    assert!(rt; dealer.calls == 4);
    assert!(rt; dealer.loads.as_slice() == [0, 0, 0, 1, 0, 1, 2, 0, 2, 3, 0, 3].as_slice());
}

/// A division that does not fit the ring ends the run, and so does one for which an allocation fails. What was written
/// before stays.
#[test]
fn a_dealer_without_a_division_ends_the_run(rt: HostRuntime) {
    let scenario = two_lookups(&rt, 50);
    for (first, second, error, taken) in [
        (Answer::OfFourNodes, Answer::ByTurns, "BadDivision", 0),
        (Answer::ByTurns, Answer::OfFourNodes, "BadDivision", 32),
        (Answer::Refused, Answer::ByTurns, "Memory", 0),
        (Answer::ByTurns, Answer::Refused, "Memory", 32),
    ] {
        let mut dealer = InTurn::new(rt.alloc(), first, second);
        let left = run_dealt(&rt, &scenario, 2, &mut dealer, &OpenGate);
        left.is(&rt, &taken, &TWO_LOOKUPS.trace[..taken], error);
    }
}

/// Whether the gate was passed for part 0, and then for parts 0 to 2 in any order.
fn is_one_then_three(passes: &[u64]) -> bool {
    let [one, three @ ..] = passes else {
        return false;
    };
    *one == 0 && (0..3u64).all(|part| three.contains(&part))
}

/// Each window has the parts of its own division.
#[test]
fn each_window_has_its_own_parts(rt: HostRuntime) {
    let scenario = two_lookups(&rt, 50);
    let mut dealer = InTurn::new(rt.alloc(), Answer::InOnePart, Answer::EachAlone);
    let taken = AtomicU64::new(0);
    let gate = SizeGate::new(&taken);
    let left = run_dealt(&rt, &scenario, 2, &mut dealer, &gate);
    left.has_written(&rt, &"own parts", TWO_LOOKUPS.trace);
    let parts = gate.parts();
    assert!(rt; gate.passes() == 8);
    assert!(rt; is_one_then_three(&parts[..4]) && is_one_then_three(&parts[4..]));
}

/// Refuses one start, the first being number 1.
#[derive(Drop)]
struct RefusesStart {
    refused: u32,
    asked: u32,
}

impl Starter for RefusesStart {
    fn may_start(&mut self, _worker: u32) -> bool {
        self.asked = self.asked.saturating_add(1);
        self.asked != self.refused
    }
}

/// The four windows have two starts each. A refused one ends the run: what earlier windows left stays, and the starter
/// is not asked again.
#[test]
fn a_refused_start_ends_the_run(rt: HostRuntime) {
    let scenario = two_lookups(&rt, 50);
    let division = value_of(&rt, Division::blocks(rt.alloc(), 3, 2));
    for (refused, taken) in [
        (1, 0),
        (2, 0),
        (3, 32),
        (4, 32),
        (5, 32),
        (6, 32),
        (7, 116),
        (8, 116),
        (9, 190),
    ] {
        ends_at(&rt, &scenario, &division, refused, taken);
    }
}

/// Asserts that a run by two workers whose start of this number is refused has written so many bytes.
fn ends_at<T: Abort + AllocGlobal + Threads + Wait + Sync>(
    rt: &T,
    scenario: &Scenario,
    division: &Division,
    refused: u32,
    taken: usize,
) {
    let mut starter = RefusesStart { refused, asked: 0 };
    let (trace, fault) = run_started(rt, scenario, division, 2, &mut starter);
    let expected = if refused < 9 {
        Some(RunError::Worker)
    } else {
        None
    };
    holds(rt, fault == expected, &refused);
    holds(rt, starter.asked == refused.min(8), &refused);
    holds(rt, is_beginning(trace.as_slice(), taken), &refused);
}

/// Runs a scenario with the threads that a starter lets start, and returns the trace and the fault.
fn run_started<T: Abort + AllocGlobal + Threads + Wait + Sync, S: Starter>(
    rt: &T,
    scenario: &Scenario,
    division: &Division,
    workers: u32,
    starter: &mut S,
) -> (Vec<u8>, Option<RunError>)
    requires { (0 < workers) × (workers ≤ MOST_SEATS) }
{
    let alloc = rt.alloc();
    let mut writer = Watched::new(Vec::new(alloc));
    let crew = Crew {
        division,
        workers,
        gate: &OpenGate,
    };
    let outcome = run_crew_started(rt, alloc, scenario, &crew, starter, &mut writer);
    (writer.into_inner(), outcome.err())
}

/// Runs the two lookups with threads for `workers` workers, and returns the workers that a starter was asked for.
fn asked_for<T: Abort + AllocGlobal + Threads + Wait + Sync>(
    rt: &T,
    parts: u32,
    workers: u32,
) -> Vec<u32>
    requires parts { (0 < parts) × (parts ≤ MOST_PARTS) }
    requires workers { (0 < workers) × (workers ≤ MOST_SEATS) }
{
    let scenario = two_lookups(rt, 50);
    let division = value_of(rt, Division::blocks(rt.alloc(), 3, parts));
    let mut starter = NotesStarts::new(rt.alloc());
    let (_trace, fault) = run_started(rt, &scenario, &division, workers, &mut starter);
    holds(rt, fault.is_none(), &workers);
    starter.workers
}

/// In each of the four windows a starter is asked for each worker, worker 0 first, also if there are more workers than
/// parts.
#[test]
fn a_starter_is_told_each_worker(rt: HostRuntime) {
    let two = asked_for(&rt, 2, 2);
    assert!(rt; two.as_slice() == [0, 1, 0, 1, 0, 1, 0, 1].as_slice());
    let three = asked_for(&rt, 1, 3);
    assert!(rt; three.as_slice() == [0, 1, 2, 0, 1, 2, 0, 1, 2, 0, 1, 2].as_slice());
}

/// The node with the greatest load goes first, each to the part with the least load so far.
#[test]
fn loads_are_evened_out(rt: HostRuntime) {
    let mut dealer = Balanced::new(rt.alloc(), 2);
    let division = value_of(&rt, dealer.deal(&[7, 5, 4, 3, 1]));
    divides(&rt, &division, 2, &[0, 1, 1, 0, 1]);
    let division = value_of(&rt, dealer.deal(&[0, 0, 0, 0]));
    divides(&rt, &division, 2, &[0, 1, 0, 1]);
}

/// A ring in which the nodes of even number start all lookups.
const EIGHT: &str = "[[node]]\nname = \"n0\"\nid = 0\ninitial = true\n\
    [[node]]\nname = \"n1\"\nid = 1\ninitial = true\n\
    [[node]]\nname = \"n2\"\nid = 2\ninitial = true\n\
    [[node]]\nname = \"n3\"\nid = 3\ninitial = true\n\
    [[node]]\nname = \"n4\"\nid = 4\ninitial = true\n\
    [[node]]\nname = \"n5\"\nid = 5\ninitial = true\n\
    [[node]]\nname = \"n6\"\nid = 6\ninitial = true\n\
    [[node]]\nname = \"n7\"\nid = 7\ninitial = true\n";

const EVEN_LOOKUPS: &str = "[[command]]\nat_us = 100\ndo = \"lookup\"\nnode = \"n0\"\nkey = 4\n\
    [[command]]\nat_us = 100\ndo = \"lookup\"\nnode = \"n2\"\nkey = 7\n\
    [[command]]\nat_us = 105\ndo = \"lookup\"\nnode = \"n4\"\nkey = 1\n\
    [[command]]\nat_us = 110\ndo = \"lookup\"\nnode = \"n6\"\nkey = 2\n";

/// A dealer that evens out the parts, and keeps the loads that it was last passed.
#[derive(Drop)]
struct Keeping {
    balanced: Balanced,
    last: Vec<u64>,
}

impl Dealer for Keeping {
    ghost use Rattle.std.specs.Prelude.{◌≡◌, length};

    ghost can_name = { λ nodes d. length d.of_node ≡ nodes };

    fn deal(&mut self, loads: &[u64]) -> Result<Division, Memory> {
        self.last.clear();
        self.last.extend_from_slice(loads)?;
        self.balanced.deal(loads)
    }
}

/// The load of a part of eight nodes.
fn load_of(part: u32, division: &Division, loads: &[u64]) -> u64
    requires nodes { length division.now.of_node ≡ 8 }
    requires loads { length loads.now ≡ 8 }
{
    let mut sum: u64 = 0;
    for (node, load) in loads.iter().enumerate() {
        if division.part_of(node as u32) == part {
            sum = sum.saturating_add(*load);
        }
    }
    sum
}

/// What one event at a time writes of a scenario.
fn serial_trace<T: Abort + AllocGlobal>(rt: &T, scenario: &Scenario) -> Vec<u8> {
    let mut writer = Watched::new(Vec::new(rt.alloc()));
    value_of(rt, run_serial(rt.alloc(), scenario, &mut writer));
    writer.into_inner()
}

/// The greater load of two parts of eight nodes.
fn greater_load(division: &Division, loads: &[u64]) -> u64
    requires nodes { length division.now.of_node ≡ 8 }
    requires loads { length loads.now ≡ 8 }
{
    load_of(0, division, loads).max(load_of(1, division, loads))
}

/// Dealt in turn, the nodes of even number are one part of two.
#[test]
fn parts_of_a_skewed_ring_are_evened_out(rt: HostRuntime) {
    let text = value_of(&rt, text_of(rt.alloc(), SETTINGS, EIGHT, EVEN_LOOKUPS));
    let scenario = scenario_of(&rt, text.as_str(), b"");
    let serial = serial_trace(&rt, &scenario);
    let mut dealer = Keeping {
        balanced: Balanced::new(rt.alloc(), 2),
        last: Vec::new(rt.alloc()),
    };
    let left = run_dealt(&rt, &scenario, 2, &mut dealer, &OpenGate);
    assert!(rt; left.has_ended() && left.trace.as_str().as_bytes() == serial.as_slice());
    let loads = dealer.last.as_slice();
    assert!(rt; loads.len() == 8);
    let even = value_of(&rt, dealer.balanced.deal(loads));
    let skewed = value_of(&rt, Division::dealt(rt.alloc(), 8, 2));
    assert!(rt; greater_load(&even, loads) < greater_load(&skewed, loads));
}
