//! Entries: the keys and places of events.
ghost use Rattle.std.specs.Prelude.{◌≡◌, IfOk};
ghost use Rattle.std.specs.List.{filter};
ghost use Rattle.std.specs.List.Sorted.{IsPermutation, IsSorted};
ghost use Rattle.des_queue.specs.Shelf.{get};
ghost use Rattle.des_event.specs.KeyOrder.{before};
ghost use Rattle.des_queue.specs.EventKey.{event_key};
ghost use Rattle.des_queue.specs.Places.{Held, waiting_cmp, is_due, events_at, in_key_order};

use crate::shelf::Shelf;
use des_event::{Brief, Copied, Event, Key, Memory};
use std::alloc::Global;
use std::cmp::Reverse;

/// A key with the place of its event. A heap gives the greatest first, and a sorted list has it last,
/// so the keys are reversed.
#[derive(Clone, Copy, PartialEq, Eq, PartialOrd, Ord)]
pub struct Waiting<P> {
    pub key: Reverse<Key>,
    pub place: P,
}

/// Copies of the events before a time in microseconds.
pub fn copies_before<B: Brief + Copied + Drop>(
    alloc: Global,
    events: &Shelf<B>,
    entries: &[Waiting<usize>],
    horizon: u64,
) -> Result<Vec<Event<B>>, Memory>
    requires { Held (get events.now) entries.now }
    ensures { IfOk result (λ copies. copies.items ≡ before event_key horizon (in_key_order (events_at (get events.now) entries.now))) }
{
    let mut due = due_before(entries, alloc, horizon)?;
    let mut copies = Vec::new(alloc);
    while let Some(waiting) = due.pop() {
        copies.push(events.copy_of(waiting.place)?)?;
    }
    Ok(copies)
}

/// The entries before a time in microseconds, the first one last.
fn due_before(
    entries: &[Waiting<usize>],
    alloc: Global,
    horizon: u64,
) -> Result<Vec<Waiting<usize>>, Memory>
    ensures same { IfOk result (λ due. IsPermutation (filter (is_due horizon) entries.now) due.items) }
    ensures sorted { IfOk result (λ due. IsSorted waiting_cmp due.items) }
{
    let mut due = Vec::new(alloc);
    for waiting in entries {
        if waiting.key.0.time < horizon {
            due.push(*waiting)?;
        }
    }
    due.sort_unstable();
    Ok(due)
}
