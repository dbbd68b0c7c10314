//! The queue of one part's run.
ghost use Rattle.std.specs.Prelude.{◌≡◌, ◌+◌, ◌<◌, ◌^◌, [], drop, length, slice_get, option_copied, option_map, IfErr, OnOk};
ghost use Rattle.std.specs.Borrow.{sem};
ghost use Rattle.des_event.specs.KeyOrder.{InKeyOrder, IsNewKey, put_in_order};
ghost use Rattle.des_queue.specs.EventKey.{event_key};
ghost use Rattle.des_queue.specs.Queue.{queue};

use crate::waiting::Waiting;
use des_arena::{RecordArena, Ticket};
use des_event::{Event, Key};
use std::alloc::Global;
use std::cmp::Reverse;
use std::collections::BinaryHeap;
use std::marker::Model;

/// The events that a part's run has made for its own window. Contracts see the list of those that
/// wait, in the order of their keys, and how many were pushed since the queue was made or emptied.
///
/// An event stays at its place in the arena until the queue is emptied or dropped.
#[derive(Drop)]
pub struct WindowQueue<B> {
    heap: BinaryHeap<Waiting<Ticket>>,
    records: RecordArena<Event<B>>,
}

impl<B> Model for WindowQueue<B> {
    ghost use Rattle.des_queue.specs.Queue.{Queue};
    ghost use Rattle.des_queue.specs.Ticketed.{queue_of, IsTicketedHeap};

    ghost Value = { Queue B };

    ghost view = { λ q. queue_of q };

    ghost invariant = { λ q. IsTicketedHeap q };
}

impl<B: Drop> WindowQueue<B> {
    ghost use Rattle.des_queue.specs.QueueLends.{ends_as};

    /// A queue without events. It takes no memory.
    pub fn new(alloc: Global) -> WindowQueue<B>
        ensures { result ≡ queue [] 0 }
    {
        WindowQueue {
            heap: BinaryHeap::new(alloc),
            records: RecordArena::new(alloc),
        }
    }

    /// All events that wait are in the order of their keys.
    pub fn recall_order(&self)
        ensures { InKeyOrder event_key self.now.events }
    {
        // A no-op for the machine: it hands the prover what the type keeps.
        let _ = &self.heap;
    }

    /// The number of events that wait.
    pub fn len(&self) -> usize
        ensures { result ≡ length self.now.events }
    {
        self.heap.len()
    }

    /// Adds an event, or returns it if an allocation fails.
    pub fn push(&mut self, event: Event<B>) -> Result<(), Event<B>>
        requires new_key { IsNewKey event_key event.key self.old.events }
        requires few { self.old.pushes < 2 ^ 40 }
        ensures ok { OnOk result (self.new ≡ queue (put_in_order event_key event self.old.events) (self.old.pushes + 1)) }
        ensures err { IfErr result (λ back. (back ≡ event) × (self.new ≡ self.old)) }
    {
        if self.heap.reserve(1).is_err() || self.records.reserve(1).is_err() {
            return Err(event);
        }
        let key = Reverse(event.key);
        match self.records.place(event) {
            Ok(place) => match self.heap.push(Waiting { key, place }) {
                Ok(()) => Ok(()),
                Err(_) => unreachable!(),
            },
            Err(_) => unreachable!(),
        }
    }

    /// The key of the event that comes first.
    pub fn least_key(&self) -> Option<Key>
        ensures { result ≡ option_map (λ e. e.key) (slice_get self.now.events 0) }
    {
        let waiting = self.heap.peek()?;
        Some(waiting.key.0)
    }

    /// Takes the event that comes first. It stays in the arena but waits no longer.
    pub fn pop_least(&mut self) -> Option<&Event<B>>
        ensures* rest { sem 𝓛 (ends_as B.row self.entry (drop 1 self.old.events)) }
        ensures least { option_copied result ≡ slice_get self.old.events 0 }
    {
        let waiting = self.heap.pop()?;
        Some(self.records.get(&waiting.place))
    }

    /// Drops all events, and keeps the room.
    pub fn give_up(&mut self)
        ensures { self.new ≡ queue [] 0 }
    {
        self.heap.clear();
        self.records.clear();
    }
}
