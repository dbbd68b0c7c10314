//! The states that a part changes, copied at the first touch.
ghost use Rattle.std.specs.Prelude.{◌≡◌, ◌⊎◌, ◌<◌, ℕ, None, [], length, slice_index_or, IfOk, OnOk};
ghost use Rattle.des_model.specs.Windows.{Division, part_of};
ghost use Rattle.des_parts.specs.Copies.{AreCopies, IsSlot, HaveSeen};

use crate::part_run::list_with_room;
use des_event::Memory;
use des_machine::Machine;
use std::alloc::Global;

/// A machine whose states can be copied.
pub trait CopiesStates: Machine {
    ghost use Rattle.std.specs.Prelude.{◌≡◌, IfOk};

    /// A copy of a state.
    fn copy_state(&self, state: &Self::State) -> Result<Self::State, Memory>
        ensures { IfOk result (λ copy. copy ≡ state.now) };
}

/// A state that a part changed, and its node.
#[derive(Drop)]
pub struct Touched<T> {
    pub node: u32,
    pub state: T,
}

/// The states of the nodes that a part's run has touched, and for each node the index of its copy.
/// There are no slots until a node is touched.
#[derive(Drop)]
pub struct Copies<T> {
    pub slots: Vec<Option<usize>>,
    pub states: Vec<Touched<T>>,
}

impl<T: Drop> Copies<T> {
    /// No copies and no slots yet, with room for `many` copies if memory allows it.
    pub(crate) fn new(alloc: Global, many: usize) -> Copies<T>
        ensures slots { result.slots.items ≡ [] }
        ensures states { result.states.items ≡ [] }
    {
        Copies {
            slots: Vec::new(alloc),
            states: list_with_room(alloc, many),
        }
    }

    /// Makes a slot for each node, if there is none yet.
    fn make_slots(&mut self, nodes: usize) -> Result<(), Memory>
        requires { (length self.old.slots.items ≡ nodes) ⊎ (self.old.slots.items ≡ []) }
        ensures long { OnOk result (length self.new.slots.items ≡ nodes) }
        ensures same { OnOk result ((i : ℕ) → slice_index_or self.new.slots.items i None ≡ slice_index_or self.old.slots.items i None) }
        ensures states { self.new.states ≡ self.old.states }
    {
        if self.slots.is_empty() {
            let alloc = *self.slots.allocator();
            self.slots = vec![in alloc; None; nodes]?;
        }
        Ok(())
    }

    /// The index of the copy of a node's state. The first call makes the copy.
    pub(crate) fn touch<M: CopiesStates<State = T>>(
        &mut self,
        machine: &M,
        states: &[T],
        node: u32,
    ) -> Result<usize, Memory>
        requires copies { (d : Division) × (part : ℕ) × AreCopies d part states.now self.old }
        requires node { node < length states.now }
        ensures same { OnOk result (HaveSeen states.now self.old self.new) }
        ensures copies { OnOk result ((d : Division) (part : ℕ) → part_of d node ≡ part → AreCopies d part states.now self.old → AreCopies d part states.now self.new) }
        ensures slot { IfOk result (λ slot. IsSlot self.new node slot) }
    {
        let at = node as usize;
        // Made at the first touch, so that a part with nothing due takes no memory for them.
        self.make_slots(states.len())?;
        if let Some(slot) = self.slots[at] {
            return Ok(slot);
        }
        let slot = self.states.len();
        let state = machine.copy_state(&states[at])?;
        self.states.push(Touched { node, state })?;
        self.slots[at] = Some(slot);
        Ok(slot)
    }
}
