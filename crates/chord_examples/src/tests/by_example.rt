//! Plays of examples.
use crate::examples::play::{SERIAL, text_of};
use crate::examples::table::{Example, example_groups};
use crate::tests::left::play_texts;
use crate::tests::steps::value_of;
use chord_play::Plan;
use std::process::Abort;
use std::sync::Wait;
use std::thread::Threads;

/// Asserts that an example has by a plan the trace and the report that it has by the rules.
pub fn leaves_example<T: Abort + AllocGlobal + Threads + Wait + Sync>(
    rt: &T,
    example: &Example,
    plan: &Plan,
) {
    let (settings, nodes) = (example.settings, example.nodes);
    let text = value_of(rt, text_of(rt.alloc(), settings, nodes, example.commands));
    let left = play_texts(rt, text.as_str().as_bytes(), b"", plan);
    left.shows(rt, &(example.name, plan), example.trace, example.report);
}

#[test]
fn examples(rt: HostRuntime) {
    for group in example_groups() {
        leave_examples(&rt, group);
    }
}

fn leave_examples<T: Abort + AllocGlobal + Threads + Wait + Sync>(rt: &T, group: &[Example]) {
    for example in group {
        leaves_example(rt, example, &SERIAL);
    }
}
