//! What holds of a run by any engine.
ghost use Rattle.std.specs.Prelude.{◌<◌, ◌≤◌};

use crate::examples::engines::{ENGINES, Engine, Shape};
use crate::examples::table::{Example, TWO_LOOKUPS, example_groups};
use crate::tests::left::{Picked, run_left, run_picks};
use crate::tests::ring_of_three::{scenario_of, scenario_of_example, two_lookups};
use crate::tests::steps::{holds, value_of};
use crate::tests::windows::divide;
use chord_crew::MOST_SEATS;
use chord_play::Split;
use chord_scenario::Scenario;
use chord_window::MOST_PARTS;
use std::fmt::Write as _;
use std::process::Abort;
use std::sync::Wait;
use std::thread::Threads;

/// Two parts, and a worker for each.
pub const PAIR: Shape = Shape {
    parts: 2,
    workers: 2,
};

/// One worker, and more, up to as many as there can be.
pub const TEAMS: [Shape; 4] = [
    Shape {
        parts: 3,
        workers: 1,
    },
    Shape {
        parts: 3,
        workers: 3,
    },
    Shape {
        parts: 2,
        workers: 8,
    },
    Shape {
        parts: 3,
        workers: 64,
    },
];

/// Parts and workers of a run by windows.
const SHAPES: [Shape; 6] = [
    Shape {
        parts: 1,
        workers: 2,
    },
    Shape {
        parts: 2,
        workers: 1,
    },
    PAIR,
    Shape {
        parts: 3,
        workers: 2,
    },
    Shape {
        parts: 3,
        workers: 64,
    },
    Shape {
        parts: 5,
        workers: 3,
    },
];

/// Each example has the trace and the report that it has by the rules, with any engine, parts and workers.
#[test]
fn examples_by_engines(rt: HostRuntime) {
    for group in example_groups() {
        show_by_all(&rt, group);
    }
}

fn show_by_all<T: Abort + AllocGlobal + Threads + Wait + Sync>(rt: &T, group: &[Example]) {
    for example in group {
        shows_by_all(rt, example);
    }
}

fn shows_by_all<T: Abort + AllocGlobal + Threads + Wait + Sync>(rt: &T, example: &Example) {
    let scenario = scenario_of_example(rt, example);
    for engine in ENGINES {
        for shape in SHAPES {
            let left = run_left(rt, engine, shape, &scenario);
            let how = (example.name, engine, shape);
            left.shows(rt, &how, example.trace, example.report);
        }
    }
}

/// How many lines a run of two lookups has written when it meets the limit: the limit, and the lines one event at a
/// time and by windows. The run has eight events: the lookups begin in the first window, their requests come in the
/// second, the replies in the third, and the two timeouts, which end nothing, are the fourth. By windows nothing of the
/// window is written that meets it.
const LIMITS: [(u32, usize, usize); 8] = [
    (1, 1, 0),
    (2, 2, 2),
    (3, 2, 2),
    (4, 2, 2),
    (5, 3, 2),
    (6, 4, 4),
    (7, 4, 4),
    (8, 5, 5),
];

/// Asserts that a run of the two lookups with this limit has written so many lines, and that it fails below eight
/// events.
fn meets_the_limit<T: Abort + AllocGlobal + Threads + Wait + Sync>(
    rt: &T,
    engine: Engine,
    shape: Shape,
    allowed: u32,
    lines: usize,
) {
    let scenario = two_lookups(rt, allowed);
    let left = run_left(rt, engine, shape, &scenario);
    let is_over = left.end.as_str() == "TooManyEvents";
    let how = (engine, allowed);
    holds(rt, is_over == (allowed < 8), &how);
    holds(rt, left.has_ended() == (allowed == 8), &how);
    let trace = left.trace.as_str();
    holds(rt, TWO_LOOKUPS.trace.starts_with(trace), &how);
    holds(rt, trace.lines().count() == lines, &how);
}

#[test]
fn too_many_events_by_engines(rt: HostRuntime) {
    for (allowed, one_at_a_time, by_windows) in LIMITS {
        for engine in ENGINES {
            let lines = if engine == Engine::Serial {
                one_at_a_time
            } else {
                by_windows
            };
            meets_the_limit(&rt, engine, PAIR, allowed, lines);
        }
        for shape in TEAMS {
            meets_the_limit(&rt, Engine::Team, shape, allowed, by_windows);
        }
    }
}

/// Without picks the lowest worker that can take a step takes each of them, and the run is the same.
#[test]
fn two_workers_without_picks(rt: HostRuntime) {
    let scenario = two_lookups(&rt, 8);
    for parts in [1, 2, 3, 5] {
        takes_the_lowest(&rt, &scenario, parts);
    }
}

/// Asserts that the two lookups in so many parts leave what they leave in any, and that worker 0 takes each step.
fn takes_the_lowest<T: Abort + AllocGlobal>(rt: &T, scenario: &Scenario, parts: u32)
    requires { (0 < parts) × (parts ≤ MOST_PARTS) }
{
    let division = divide(rt, scenario, Split::RoundRobin, parts);
    let Picked { left, steps } = run_picks(rt, scenario, &division, 2, &[]);
    left.shows(rt, &parts, TWO_LOOKUPS.trace, TWO_LOOKUPS.report);
    let first = steps.as_str().lines().all(|step| step.starts_with("0 "));
    holds(rt, first, &parts);
}

/// A ring of `nodes` nodes, each with its number as identifier, in which the first node looks a key up.
fn ring_of<T: Abort + AllocGlobal>(rt: &T, bits: u32, nodes: u32, key: u32) -> String {
    let top = format!(in rt.alloc();
        "profile = 2\nbits = {bits}\nseed = 1\nlatency_us = 10\nlist = 16\nduration_us = 300\n\
         window_us = 10\ntimeout_us = 40\naudit_us = 300\nstabilize_us = 1000\nfinger_us = 1000\n"
    );
    let mut text = value_of(rt, top);
    for node in 0..nodes {
        let table = writeln!(
            text,
            "[[node]]\nname = \"n{node}\"\nid = {node}\ninitial = true"
        );
        value_of(rt, table);
    }
    let command = writeln!(
        text,
        "[[command]]\nat_us = 100\ndo = \"lookup\"\nnode = \"n0\"\nkey = {key}"
    );
    value_of(rt, command);
    text
}

/// As many parts as nodes, and as many workers as there can be, write what one event at a time writes.
#[test]
fn a_part_for_each_of_512_nodes(rt: HostRuntime) {
    let ring = ring_of(&rt, 9, 512, 300);
    let scenario = scenario_of(&rt, ring.as_str(), b"");
    let shape = Shape {
        parts: MOST_PARTS,
        workers: MOST_SEATS,
    };
    let serial = run_left(&rt, Engine::Serial, shape, &scenario);
    assert!(rt; serial.has_ended() && serial.trace.starts_with("100 n0 lookup 300\n"));
    for engine in [Engine::Picked, Engine::Crew, Engine::Dealt, Engine::Team] {
        let left = run_left(&rt, engine, shape, &scenario);
        left.is(&rt, &engine, serial.trace.as_str(), serial.end.as_str());
    }
}
