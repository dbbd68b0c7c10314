//! Calls that make a scenario from texts, and the start of a run from a scenario.
use crate::stop::{Stop, holds, holds_written};
use chord_event::Event;
use chord_examples::{Example, text_of};
use chord_node::{NodeState, initial_ring};
use chord_play::{Engine, Plan, Split, load, play};
use chord_scenario::Scenario;
use chord_trace::Watched;
use std::alloc::Global;
use std::sync::Wait;
use std::thread::Threads;

/// A latency text with one pair, at the latency that it has anyway.
const LATENCY: &[u8] = b"n0,n3,10\n";

/// Loads the scenario of an example.
pub fn load_example(alloc: Global, example: &Example) -> Result<(), Stop> {
    let text = text_of(alloc, example.settings, example.nodes, example.commands)?;
    let mut toml = Watched::new(text.as_str().as_bytes());
    let mut csv = Watched::new(LATENCY);
    let scenario = load(alloc, &mut toml, &mut csv)?;
    holds(scenario.nodes() == 3, "another number of nodes")
}

/// Plays an example by two workers. What was written is a beginning of its trace.
pub fn play_example<T: AllocGlobal + Threads + Wait + Sync>(
    rt: &T,
    example: &Example,
) -> Result<(), Stop> {
    let alloc = rt.alloc();
    let plan = Plan {
        engine: Engine::Crew,
        workers: 2,
        parts: 2,
        split: Split::Blocks,
    };
    let expected = example.trace.as_bytes();
    let text = text_of(alloc, example.settings, example.nodes, example.commands)?;
    let mut toml = Watched::new(text.as_str().as_bytes());
    let mut csv = Watched::new(LATENCY);
    let mut writer = Watched::new(Vec::with_capacity(alloc, expected.len())?);
    let outcome = play(rt, alloc, &mut toml, &mut csv, &plan, &mut writer);
    let written = writer.into_inner();
    holds_written(expected, written.as_slice(), outcome.is_ok())?;
    outcome?;
    Ok(())
}

/// Makes the start events and the ring of a scenario, and copies each of them. The originals stay as they were.
pub fn copy_the_start(alloc: Global, scenario: &Scenario) -> Result<(), Stop> {
    let events = scenario.start_events(alloc)?;
    for event in events.iter() {
        copy_event(event)?;
    }
    copy_ring(alloc, scenario)
}

fn copy_event(event: &Event) -> Result<(), Stop> {
    let key = event.key;
    let copy = event.try_clone();
    holds(event.key == key, "copying changes an event")?;
    holds(copy?.key == key, "the copy is another event")
}

fn copy_ring(alloc: Global, scenario: &Scenario) -> Result<(), Stop> {
    let states = initial_ring(alloc, scenario)?;
    for state in states.iter() {
        copy_state(state)?;
    }
    Ok(())
}

fn copy_state(state: &NodeState) -> Result<(), Stop> {
    let me = state.me;
    let copy = state.clone_state();
    holds(state.me == me, "copying changes a state")?;
    holds(copy?.me == me, "the copy is another state")
}
