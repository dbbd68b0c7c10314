//! Another division of a world's nodes.
ghost use Rattle.std.specs.Prelude.{◌≡◌, ◌≢◌, ◌⊎◌, Err, IfErr, IfOk, OnOk, length};
ghost use Rattle.des_parts.specs.Worlds.{IsWorldOf};

use crate::events::all_events;
use des_event::RunError;
use des_machine::Machine;
use des_parts::{World, empty_parts, expect_division, fill_parts};
use des_window::Division;
use std::alloc::Global;
use std::mem;

/// The same world with another division of the nodes: the pending events go to the parts of that
/// division, and all else stays. The machine is the one that the world was started from. After an
/// error the world is dropped.
///
/// # Errors
///
/// `BadDivision`, if the division has another number of nodes than the machine; `Memory`.
pub fn redivide<M: Machine>(
    alloc: Global,
    machine: &M,
    world: World<M::State, M::Body>,
    division: &Division,
) -> Result<World<M::State, M::Body>, RunError>
    requires world { IsWorldOf (M.model machine.now) world }
    ensures world { IfOk result (λ divided. IsWorldOf (M.model machine.now) divided) }
    ensures count { IfOk result (λ divided. divided.count ≡ world.count) }
    ensures states { IfOk result (λ divided. divided.states ≡ world.states) }
    ensures opening { IfOk result (λ divided. divided.opening ≡ world.opening) }
    ensures division { IfOk result (λ divided. divided.division ≡ division.now) }
    ensures bad { result ≡ Err RunError.BadDivision → length division.now.of_node ≢ (M.model machine.now).nodes }
    ensures only { IfErr result (λ e. (e ≡ RunError.Memory) ⊎ (e ≡ RunError.BadDivision)) }
{
    let mut world = world;
    divide_again(alloc, machine, &mut world, division)?;
    Ok(world)
}

/// `redivide` in place. After an error the world is unusable.
///
/// # Errors
///
/// As `redivide`.
pub fn divide_again<M: Machine>(
    alloc: Global,
    machine: &M,
    world: &mut World<M::State, M::Body>,
    division: &Division,
) -> Result<(), RunError>
    requires world { IsWorldOf (M.model machine.now) world.old }
    ensures world { OnOk result (IsWorldOf (M.model machine.now) world.new) }
    ensures count { OnOk result (world.new.count ≡ world.old.count) }
    ensures states { OnOk result (world.new.states ≡ world.old.states) }
    ensures opening { OnOk result (world.new.opening ≡ world.old.opening) }
    ensures division { OnOk result (world.new.division ≡ division.now) }
    ensures bad { result ≡ Err RunError.BadDivision → length division.now.of_node ≢ (M.model machine.now).nodes }
    ensures only { IfErr result (λ e. (e ≡ RunError.Memory) ⊎ (e ≡ RunError.BadDivision)) }
{
    machine.recall();
    expect_division(machine, division)?;
    let parts = mem::replace(&mut world.parts, empty_parts(alloc, division.parts())?);
    let events = all_events(alloc, parts)?;
    // This finds the next window again. It is the one that the world had.
    world.opening = fill_parts(machine, &world.clock, division, &mut world.parts, events)?;
    world.division = division.try_clone()?;
    Ok(())
}
