//! What all windows of a run share.
use crate::all_parts::Hands;
use std::alloc::Global;

/// What all windows of a run share.
#[derive(Drop)]
pub struct Course<'a, M, G> {
    pub alloc: Global,
    pub machine: &'a M,
    pub hands: Hands<'a, G>,
}
