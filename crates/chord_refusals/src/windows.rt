//! Calls of the engines by windows.
ghost use Rattle.std.specs.Prelude.{◌≡◌, ◌<◌};
ghost use Rattle.chord_window.specs.PartRuns.{IsNextWindow};

use crate::stop::{Stop, holds};
use chord_crew::{Balanced, Dealer};
use chord_examples::window_by_one;
use chord_queue::WindowQueue;
use chord_scenario::Scenario;
use chord_window::{Division, Window, World, exchange, run_part};
use std::alloc::Global;

/// Makes divisions of three nodes: dealt in turn, in blocks, a copy, and one that evens out loads.
pub fn divide_three(alloc: Global) -> Result<(), Stop> {
    let dealt = Division::dealt(alloc, 3, 2)?;
    let blocks = Division::blocks(alloc, 3, 2)?;
    let copy = blocks.try_clone();
    holds(blocks.part_of(1) == 0, "copying changes a division")?;
    holds(copy?.part_of(1) == 0, "the copy is another division")?;
    holds(dealt.part_of(1) == 1, "another division is dealt")?;
    let balanced = Balanced::new(alloc, 2).deal(&[7, 5, 4])?;
    holds(balanced.part_of(2) == 1, "the loads are not evened out")
}

/// Runs one part of a world's first window. After a failed allocation the world and the queue are as they were, so that
/// the part can be run again.
fn run_first(window: &Window<'_>) -> Result<(), Stop>
    requires window { IsNextWindow window.now.scenario.now window.now.world.now window.now.horizon }
    requires part { 0 < window.now.world.now.kernel.division.parts }
{
    let mut queue = WindowQueue::new(window.alloc);
    let first = run_part(window, 0, &mut queue);
    holds(queue.len() == 0, "an event waits")?;
    holds(window.world.kernel.count == 0, "the world has gone on")?;
    if first.is_ok() {
        return Ok(());
    }
    let again = run_part(window, 0, &mut queue)?;
    holds(again.events == 1, "the part runs something else")?;
    first?;
    Ok(())
}

/// Runs the first window of a scenario by hand: its parts by one worker, then all of them at once, and divides the
/// world that they leave again.
pub fn run_by_hand(alloc: Global, scenario: &Scenario) -> Result<(), Stop> {
    scenario.recall_range();
    let blocks = Division::blocks(alloc, scenario.nodes(), 2)?;
    let mut world = World::start(alloc, scenario, &blocks)?;
    let Some(horizon) = world.horizon(scenario) else {
        return Err(Stop::Wrong("there is no window"));
    };
    world.kernel.division.recall_division();
    let window = Window {
        alloc,
        scenario,
        world: &world,
        horizon,
    };
    run_first(&window)?;
    let dones = window_by_one(&window)?;
    let _blocks = exchange(alloc, scenario, &mut world, dones)?;
    holds(
        world.kernel.count == 2,
        "the window has another number of events",
    )?;
    let dealt = Division::dealt(alloc, scenario.nodes(), 3)?;
    let world = world.redivide(alloc, scenario, &dealt)?;
    holds(
        world.kernel.count == 2,
        "another division, another number of events",
    )?;
    holds(
        world.horizon(scenario) == Some(120),
        "the next window is another",
    )
}
