//! The worked examples in the second and in the extended profile.
use crate::examples::engines::Engine;
use crate::examples::play::text_of;
use crate::examples::table::{Example, example_groups};
use crate::tests::by_engine::PAIR;
use crate::tests::left::{all_leave, run_left};
use crate::tests::ring_of_three::{scenario_of, scenario_of_example};
use crate::tests::steps::value_of;
use chord_scenario::Scenario;
use std::process::Abort;
use std::sync::Wait;
use std::thread::Threads;

/// The scenario of an example with these settings in place of its profile.
fn in_profile<T: Abort + AllocGlobal>(rt: &T, profile: &str, example: &Example) -> Scenario {
    let (nodes, commands) = (example.nodes, example.commands);
    let text = value_of(rt, text_of(rt.alloc(), example.settings, nodes, commands));
    let text = value_of(rt, text.replacen(rt.alloc(), "profile = 1", profile, 1));
    scenario_of(rt, text.as_str(), b"")
}

/// The extended profile without the rules of published Chord.
const FIRST_RULES: &str =
    "profile = 4\nlist_routes = false\ngoes_on = false\nask_owner = false\nlookup_timeouts = 8\n\
    drop_silent = false\nskip_near = false\nrandom_start = false\nclean_lists = false\n\
    join_asks = false\njoin_pause_us = 0\njoin_forever = false\ncheck_us = 0";

/// The timeouts of a lookup, by its line of a trace.
fn timeouts_of(line: &str) -> u64 {
    let Some((_, after)) = line.split_once(" timeouts=") else {
        return 0;
    };
    match after.split_once(" ") {
        Some((digits, _)) => digits.parse().unwrap_or(0),
        None => 0,
    }
}

/// The timeouts of the lookups that were found, by the lines of a trace.
fn timeouts_in(trace: &str) -> u64 {
    let mut sum: u64 = 0;
    for line in trace.lines() {
        if line.contains(" found ") {
            sum = sum.saturating_add(timeouts_of(line));
        }
    }
    sum
}

/// An example that draws nothing that makes a difference has its trace in each profile, and more lines in its report.
#[test]
fn examples_without_loss(rt: HostRuntime) {
    for group in example_groups() {
        have_no_loss(&rt, group);
    }
}

fn have_no_loss<T: Abort + AllocGlobal + Threads + Wait + Sync>(rt: &T, group: &[Example]) {
    for example in group {
        has_no_loss(rt, example, "profile = 2", "losses 0\n");
        let last = value_of(
            rt,
            format!(in rt.alloc();
                "losses 0\nagain 0\nforgotten 0\nleaves 0\nrescues 0\ncreates 0\ntimeouts-sum {}\n",
                timeouts_in(example.trace)
            ),
        );
        has_no_loss(rt, example, FIRST_RULES, last.as_str());
    }
}

/// Asserts that an example leaves in a profile the trace and the report of the first, and these lines more.
fn has_no_loss<T: Abort + AllocGlobal + Threads + Wait + Sync>(
    rt: &T,
    example: &Example,
    profile: &str,
    last: &str,
) {
    let first = scenario_of_example(rt, example);
    let left = run_left(rt, Engine::Serial, PAIR, &first);
    let report = value_of(rt, format!(in rt.alloc(); "{}{last}", left.end));
    let scenario = in_profile(rt, profile, example);
    all_leave(rt, example.name, &scenario, example.trace, report.as_str());
}
