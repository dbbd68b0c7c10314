//! What can be tried, by its name.
ghost use Rattle.std.specs.Prelude.{◌<◌, ◌≤◌, IfSome};

use crate::queues::{insert_and_copy, push_two, reserve_chunks};
use crate::runs::{run_examples, run_started, run_team_of, run_windows};
use crate::stop::Stop;
use crate::texts::{copy_the_start, load_example, play_example};
use crate::windows::{divide_three, run_by_hand};
use chord_crew::MOST_SEATS;
use chord_examples::{Engine, Example, TWO_LOOKUPS};
use std::alloc::Global;
use std::sync::Wait;
use std::thread::Threads;

/// The names of all tasks, without the two that run windows and are there to compare what memory they take.
pub const TASKS: [&str; 18] = [
    "arena",
    "pending",
    "queue",
    "divisions",
    "load",
    "copies",
    "windows",
    "play",
    "serial",
    "picked",
    "crew",
    "started",
    "dealt",
    "team",
    "team-1",
    "team-3",
    "team-8",
    "team-64",
];

/// Does the task of this name.
pub fn do_task<T: AllocGlobal + Threads + Wait + Sync>(rt: &T, name: &str) -> Result<(), Stop> {
    if let Some(engine) = engine_named(name) {
        return run_examples(rt, engine);
    }
    if let Some(workers) = workers_named(name) {
        return run_team_of(rt, workers);
    }
    if let Some(windows) = windows_named(name) {
        return run_windows(rt, windows);
    }
    match name {
        "play" => play_example(rt, &TWO_LOOKUPS),
        "started" => run_started(rt, &TWO_LOOKUPS),
        _ => do_calls(rt.alloc(), name),
    }
}

/// The engine of a task that runs examples.
fn engine_named(name: &str) -> Option<Engine> {
    match name {
        "serial" => Some(Engine::Serial),
        "picked" => Some(Engine::Picked),
        "crew" => Some(Engine::Crew),
        "dealt" => Some(Engine::Dealt),
        "team" => Some(Engine::Team),
        _ => None,
    }
}

/// The number of workers of a task that runs a team.
fn workers_named(name: &str) -> Option<u32>
    ensures { IfSome result (λ workers. (0 < workers) × (workers ≤ MOST_SEATS)) }
{
    match name {
        "team-1" => Some(1),
        "team-3" => Some(3),
        "team-8" => Some(8),
        "team-64" => Some(64),
        _ => None,
    }
}

/// The number of windows of a task that runs windows.
fn windows_named(name: &str) -> Option<u32> {
    match name {
        "few-windows" => Some(1_000),
        "many-windows" => Some(100_000),
        _ => None,
    }
}

/// Does a task that makes single calls.
fn do_calls(alloc: Global, name: &str) -> Result<(), Stop> {
    match name {
        "arena" => reserve_chunks(alloc),
        "pending" => insert_and_copy(alloc),
        "queue" => push_two(alloc),
        "divisions" => divide_three(alloc),
        _ => do_with_example(alloc, name, &TWO_LOOKUPS),
    }
}

/// Does a task that makes single calls with an example.
fn do_with_example(alloc: Global, name: &str, example: &Example) -> Result<(), Stop> {
    match name {
        "load" => load_example(alloc, example),
        "copies" => copy_the_start(alloc, &example.scenario(alloc)?),
        "windows" => run_by_hand(alloc, &example.scenario(alloc)?),
        _ => Err(Stop::Wrong("there is no such task")),
    }
}
