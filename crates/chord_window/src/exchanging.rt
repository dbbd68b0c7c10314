//! The end of a window: the results of the parts become one world again.
ghost use Rattle.std.specs.Prelude.{◌≡◌, ◌⊎◌, ◌+◌, ℕ, IfOk, IfErr, OnOk, Err};
ghost use Rattle.std.specs.List.{All};
ghost use Rattle.chord_machine.specs.Run.{HasTooManyEvents};
ghost use Rattle.chord_window.specs.Dones.{AreSame, IsOfBlock};
ghost use Rattle.chord_window.specs.Ordering.{AreBlocksInOrder, AreEntriesOf, ArePartsDone, events_in};
ghost use Rattle.chord_window.specs.Worlds.{IsWorldOf};

use crate::part_done::{Done, blocks_of};
use crate::world::World;
use chord_event::{Block, Body, Memory, RunError};
use chord_node::NodeState;
use chord_output::ChordRing;
use chord_scenario::Scenario;
use chord_trace::Piece;
use des_parts::Entry;
use std::alloc::Global;

/// Puts together what the parts of a window leave, and opens the next window. There is one result
/// for each part, in any order. Returns the blocks by part, in the order of the parts. After an
/// error the world is unusable.
///
/// # Errors
///
/// `TooManyEvents`, if the run has more events than the scenario allows; `Memory`, if an allocation
/// fails.
pub fn exchange(
    alloc: Global,
    scenario: &Scenario,
    world: &mut World,
    dones: Vec<Done>,
) -> Result<Vec<Vec<Block>>, RunError>
    requires world { IsWorldOf scenario.now world.old }
    requires done { (horizon : ℕ) × ArePartsDone scenario.now world.old horizon dones.items }
    ensures world { OnOk result (IsWorldOf scenario.now world.new) }
    ensures count { OnOk result (world.new.kernel.count ≡ world.old.kernel.count + events_in dones.items) }
    ensures division { OnOk result (world.new.kernel.division ≡ world.old.kernel.division) }
    ensures blocks { IfOk result (λ blocks. AreBlocksInOrder dones.items world.old.kernel.division.parts blocks.items) }
    ensures over { result ≡ Err RunError.TooManyEvents → HasTooManyEvents scenario.now }
    ensures only { IfErr result (λ e. (e ≡ RunError.Memory) ⊎ (e ≡ RunError.TooManyEvents)) }
{
    let ring = ChordRing { scenario };
    let kernels = into_kernels(alloc, dones)?;
    let lists = des_parts::exchange(alloc, &ring, &mut world.kernel, kernels)?;
    Ok(lists_of_blocks(alloc, lists)?)
}

/// The results for the kernel.
fn into_kernels(
    alloc: Global,
    dones: Vec<Done>,
) -> Result<Vec<des_parts::Done<NodeState, Body, Piece>>, Memory>
    ensures { IfOk result (λ kernels. AreSame dones.items kernels.items) }
{
    let mut kernels = Vec::new(alloc);
    for done in dones {
        kernels.push(done.into_kernel(alloc)?)?;
    }
    Ok(kernels)
}

/// The blocks of each list of entries.
fn lists_of_blocks(alloc: Global, lists: Vec<Vec<Entry<Piece>>>) -> Result<Vec<Vec<Block>>, Memory>
    requires { All (λ entries. All IsOfBlock entries.items) lists.items }
    ensures { IfOk result (λ blocks. AreEntriesOf blocks.items lists.items) }
{
    let mut blocks = Vec::new(alloc);
    for entries in lists {
        blocks.push(blocks_of(alloc, entries)?)?;
    }
    Ok(blocks)
}
