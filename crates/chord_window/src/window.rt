//! What the parts of a window read.
use crate::world::World;
use chord_scenario::Scenario;
use std::alloc::Global;

/// A window of a world: what its parts read while they run. All its events are before the horizon,
/// in microseconds.
#[derive(Clone, Copy)]
pub struct Window<'a> {
    pub alloc: Global,
    pub scenario: &'a Scenario,
    pub world: &'a World,
    pub horizon: u64,
}
