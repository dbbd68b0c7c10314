//! Where the state of each node lies.
ghost use Rattle.std.specs.Prelude.{◌≡◌, ◌≢◌, ◌⊎◌, ◌<◌, ℕ, Err, IfErr, IfOk, OnOk, length, slice_index};
ghost use Rattle.des_model.specs.Windows.{Divides, part_of};
ghost use Rattle.des_team.specs.Layouts.{IsLayout, nodes_before};

use des_event::{Memory, RunError};
use des_machine::Machine;
use des_window::Division;
use std::alloc::Global;

/// A division of the nodes, and the place of each node's state among those of its part.
#[derive(Drop)]
pub struct Layout {
    pub division: Division,
    pub slots: Vec<u32>,
}

/// The slots of the nodes: each part counts its own ones, in the order of their numbers.
fn count_slots(alloc: Global, division: &Division, nodes: u32) -> Result<Vec<u32>, Memory>
    requires { Divides division.now nodes }
    ensures long { IfOk result (λ slots. length slots.items ≡ nodes) }
    ensures counted { IfOk result (λ slots. (i : ℕ) → i < nodes → slice_index slots.items i ≡ nodes_before division.now (part_of division.now i) i) }
{
    let mut sizes: Vec<u32> = vec![in alloc; 0; division.parts() as usize]?;
    let mut slots = Vec::new(alloc);
    for node in 0..nodes {
        let part = division.part_of(node) as usize;
        slots.push(sizes[part])?;
        sizes[part] += 1;
    }
    Ok(slots)
}

impl Layout {
    /// The layout of a machine's nodes by a division.
    ///
    /// # Errors
    ///
    /// `BadDivision`, if the division has another number of nodes than the machine; `Memory`.
    pub fn new<M: Machine>(
        alloc: Global,
        machine: &M,
        division: &Division,
    ) -> Result<Layout, RunError>
        ensures layout { IfOk result (IsLayout (M.model machine.now).nodes) }
        ensures division { IfOk result (λ layout. layout.division ≡ division.now) }
        ensures bad { result ≡ Err RunError.BadDivision → length division.now.of_node ≢ (M.model machine.now).nodes }
        ensures divides { OnOk result (length division.now.of_node ≡ (M.model machine.now).nodes) }
        ensures only { IfErr result (λ e. (e ≡ RunError.Memory) ⊎ (e ≡ RunError.BadDivision)) }
    {
        division.recall_division();
        if division.nodes() != machine.nodes() as usize {
            return Err(RunError::BadDivision);
        }
        let slots = count_slots(alloc, division, machine.nodes())?;
        Ok(Layout {
            division: division.try_clone()?,
            slots,
        })
    }
}
