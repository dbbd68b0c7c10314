//! Runs by windows with picks.
ghost use Rattle.std.specs.Prelude.{◌≡◌, ◌<◌, ◌≤◌, OnOk};
ghost use Rattle.chord_window.specs.PartRuns.{IsDone, IsHorizon};
ghost use Rattle.chord_window.specs.Worlds.{IsWorldOf};

use crate::examples::table::TWO_LOOKUPS;
use crate::tests::left::run_picks;
use crate::tests::ring_of_three::{NO_HOP, ring_of_three};
use crate::tests::steps::{holds, is_text, value_of};
use chord_event::{Block, RunError};
use chord_play::Split;
use chord_queue::WindowQueue;
use chord_scenario::Scenario;
use chord_window::{Division, Done, MOST_PARTS, Window, World, exchange, run_part};
use std::alloc::Global;
use std::process::Abort;

/// The division of a scenario's nodes.
pub fn divide<T: Abort + AllocGlobal>(
    rt: &T,
    scenario: &Scenario,
    split: Split,
    parts: u32,
) -> Division
    requires { (0 < parts) × (parts ≤ MOST_PARTS) }
{
    scenario.recall_range();
    let division = match split {
        Split::RoundRobin => Division::dealt(rt.alloc(), scenario.nodes(), parts),
        Split::Blocks => Division::blocks(rt.alloc(), scenario.nodes(), parts),
    };
    value_of(rt, division)
}

/// The end of the next window of a world that has one.
pub fn horizon_of(rt: &impl Abort, scenario: &Scenario, world: &World) -> u64
    requires { IsWorldOf scenario.now world.now }
    ensures { IsHorizon world.now result }
{
    let Some(horizon) = world.horizon(scenario) else {
        panic!(rt; "no window");
    };
    horizon
}

/// A pick that names no worker is skipped, and after the picks the lowest worker that can take a step takes it.
#[test]
fn steps_as_they_are_picked(rt: HostRuntime) {
    let scenario = ring_of_three(&rt, NO_HOP);
    let division = divide(&rt, &scenario, Split::RoundRobin, 2);
    let picked = run_picks(&rt, &scenario, &division, 2, &[1, 1, 0, 9, 0]);
    let expected = "1 Drew(0)\n\
        1 Ran(Key { time: 100, origin: 1, number: 1 })\n\
        0 Drew(1)\n\
        0 Sealed(1)\n\
        1 Sealed(0)\n";
    is_text(&rt, picked.steps.as_str(), expected);
}

/// In the first window of two lookups each part runs one event, which leaves one line, a request and its timeout.
#[test]
fn parts_one_by_one(rt: HostRuntime) {
    let alloc = rt.alloc();
    let scenario = ring_of_three(&rt, TWO_LOOKUPS.commands);
    let division = divide(&rt, &scenario, Split::Blocks, 2);
    let world = value_of(&rt, World::start(alloc, &scenario, &division));
    let horizon = horizon_of(&rt, &scenario, &world);
    assert!(rt; horizon == 110 && world.kernel.count == 0 && world.kernel.division.parts() == 2);
    let window = Window {
        alloc,
        scenario: &scenario,
        world: &world,
        horizon,
    };
    for part in 0..world.kernel.division.parts() {
        let mut queue = WindowQueue::new(alloc);
        let done = value_of(&rt, run_part(&window, part, &mut queue));
        holds(&rt, done.part == part && done.events == 1, &part);
        holds(&rt, done.nodes.len() == 1 && done.mail.len() == 2, &part);
        holds(&rt, done.blocks.len() == 1, &part);
    }
}

/// Puts together what two parts leave, the second part's result first.
fn put_together(
    alloc: Global,
    scenario: &Scenario,
    world: &mut World,
    horizon: u64,
    first: Done,
    second: Done,
) -> Result<Vec<Vec<Block>>, RunError>
    requires world { IsWorldOf scenario.now world.old }
    requires horizon { IsHorizon world.old horizon }
    requires parts { world.old.kernel.division.parts ≡ 2 }
    requires first { IsDone scenario.now world.old horizon 0 first }
    requires second { IsDone scenario.now world.old horizon 1 second }
    ensures world { OnOk result (IsWorldOf scenario.now world.new) }
{
    let mut dones = Vec::new(alloc);
    dones.push(second)?;
    dones.push(first)?;
    exchange(alloc, scenario, world, dones)
}

/// What two parts leave in their first window makes the world of the second, in whatever order it comes.
#[test]
fn parts_put_together(rt: HostRuntime) {
    let alloc = rt.alloc();
    let scenario = ring_of_three(&rt, TWO_LOOKUPS.commands);
    let division = divide(&rt, &scenario, Split::Blocks, 2);
    let mut world = value_of(&rt, World::start(alloc, &scenario, &division));
    let horizon = horizon_of(&rt, &scenario, &world);
    assert!(rt; world.kernel.division.parts() == 2);
    let mut queue = WindowQueue::new(alloc);
    let window = Window {
        alloc,
        scenario: &scenario,
        world: &world,
        horizon,
    };
    let first = value_of(&rt, run_part(&window, 0, &mut queue));
    let second = value_of(&rt, run_part(&window, 1, &mut queue));
    let blocks = value_of(
        &rt,
        put_together(alloc, &scenario, &mut world, horizon, first, second),
    );
    assert!(rt; blocks.len() == 2 && blocks[0].len() == 1 && blocks[1].len() == 1);
    assert!(rt; blocks[0][0].key.number == 1 && blocks[1][0].key.number == 2);
    assert!(rt; world.kernel.count == 2);
    assert!(rt; world.horizon(&scenario) == Some(120));
}

/// A world that is divided again has the count, the states and the next window that it had, and one part with all nodes
/// has what two parts had. A division of four nodes is refused.
#[test]
fn a_world_divided_anew(rt: HostRuntime) {
    let alloc = rt.alloc();
    let scenario = ring_of_three(&rt, TWO_LOOKUPS.commands);
    let dealt = value_of(&rt, Division::dealt(alloc, 3, 2));
    let blocks = value_of(&rt, Division::blocks(alloc, 3, 2));
    let whole = value_of(&rt, Division::dealt(alloc, 3, 1));
    let of_four = value_of(&rt, Division::dealt(alloc, 4, 2));
    let world = value_of(&rt, World::start(alloc, &scenario, &dealt));
    let world = value_of(&rt, world.redivide(alloc, &scenario, &blocks));
    assert!(rt;
        world.kernel.count == 0 && world.kernel.states.len() == 3 && world.kernel.parts.len() == 2
    );
    assert!(rt; world.kernel.division.part_of(1) == 0 && world.kernel.division.part_of(2) == 1);
    assert!(rt; world.horizon(&scenario) == Some(110));
    let world = value_of(&rt, world.redivide(alloc, &scenario, &whole));
    assert!(rt;
        world.kernel.count == 0 && world.kernel.states.len() == 3 && world.kernel.parts.len() == 1
    );
    let horizon = horizon_of(&rt, &scenario, &world);
    assert!(rt; horizon == 110);
    let mut queue = WindowQueue::new(alloc);
    let window = Window {
        alloc,
        scenario: &scenario,
        world: &world,
        horizon,
    };
    let done = value_of(&rt, run_part(&window, 0, &mut queue));
    assert!(rt; done.events == 2 && done.nodes.len() == 2 && done.mail.len() == 4);
    let refused = world.redivide(alloc, &scenario, &of_four);
    assert!(rt; refused.err() == Some(RunError::BadDivision));
}
