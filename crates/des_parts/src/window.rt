//! What the parts of a window read.
use crate::world::World;
use des_machine::Machine;
use std::alloc::Global;

/// A window of a world: what its parts read while they run. All its events are before the horizon,
/// in microseconds.
#[derive(Drop)]
pub struct Window<'a, M: Machine> {
    pub alloc: Global,
    pub machine: &'a M,
    pub world: &'a World<M::State, M::Body>,
    pub horizon: u64,
}
