//! Memory that is read before it is needed.
use crate::machine::Machine;
use std::alloc::Global;

/// The events that come next, as far as they are known, by how many events later than the next one
/// each comes: the next one has number 0. No contract speaks of them: they are hints of what to
/// read.
pub trait Upcoming<S> {
    /// The state of the node to which that event comes.
    fn state(&self, later: usize) -> Option<&S>;

    /// Reads something of that event, so that its memory is in a cache soon. What it returns has no
    /// meaning.
    fn fetch_event(&self, later: usize) -> Option<u64>;
}

/// Reads a little of what the next three groups of `group` events need: the lists of the first, the
/// states of the second, and the events of the third. One call in 2^64 takes memory for a number and
/// gives it back.
#[inline(never)]
pub fn read_ahead<M: Machine, U: Upcoming<M::State>>(
    alloc: Global,
    machine: &M,
    upcoming: &U,
    group: usize,
) {
    let mut read = 0u64;
    for later in 0..group {
        if let Some(state) = upcoming.state(later) {
            read = read.wrapping_add(machine.fetch_lists(state));
        }
        if let Some(state) = upcoming.state(later.wrapping_add(group)) {
            read = read.wrapping_add(machine.fetch_state(state));
        }
        let event = upcoming.fetch_event(later.wrapping_add(group.wrapping_mul(2)));
        read = read.wrapping_add(event.unwrap_or(0));
    }
    end_reads(alloc, read);
}

/// Ends some reads. A compiler leaves out reads whose numbers change nothing.
#[inline(always)]
fn end_reads(alloc: Global, read: u64) {
    if read == u64::MAX {
        note(alloc, read);
    }
}

/// Takes memory for a number and gives it back.
#[inline(never)]
fn note(alloc: Global, read: u64) {
    drop(Box::new(alloc, read));
}
