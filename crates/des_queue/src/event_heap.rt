//! Events in a heap.
ghost use Rattle.std.specs.Prelude.{◌≡◌, [], ◌∷◌, slice_get, option_map, IfOk, IfErr, MatchOption, OnOk};
ghost use Rattle.des_event.specs.KeyOrder.{InKeyOrder, IsNewKey, put_in_order, before};
ghost use Rattle.des_queue.specs.EventKey.{event_key};

use crate::shelf::Shelf;
use crate::waiting::{Waiting, copies_before};
use des_event::{Brief, Copied, Event, Key, Memory};
use std::alloc::Global;
use std::cmp::Reverse;
use std::collections::BinaryHeap;
use std::marker::Model;

/// Events in a heap, which contracts see as their list in the order of their keys.
#[derive(Drop)]
pub struct EventHeap<B: Brief> {
    // Keys in a heap and events in a slab, so that an insertion moves keys and not events.
    heap: BinaryHeap<Waiting<usize>>,
    events: Shelf<B>,
    alloc: Global,
}

impl<B: Brief> Model for EventHeap<B> {
    ghost use Rattle.std.specs.Prelude.{List};
    ghost use Rattle.des_event.specs.declared.event.Event.{Event as AnEvent};
    ghost use Rattle.des_queue.specs.Places.{heap_events, IsPlacedHeap};

    ghost Value = { List (AnEvent B) };

    ghost view = { λ h. heap_events h };

    ghost invariant = { λ h. IsPlacedHeap h };
}

impl<B: Brief + Drop> EventHeap<B> {
    pub fn new(alloc: Global) -> EventHeap<B>
        ensures { result ≡ [] }
    {
        EventHeap {
            heap: BinaryHeap::new(alloc),
            events: Shelf::new(alloc),
            alloc,
        }
    }

    /// All events are in the order of their keys.
    pub fn recall_order(&self)
        ensures { InKeyOrder event_key self.now }
    {
        // A no-op for the machine: it hands the prover what the type keeps.
        let _ = &self.alloc;
    }

    /// The number of events. It decides where an event goes, so nothing is proved of it.
    pub fn len(&self) -> usize {
        self.heap.len()
    }

    /// Adds an event, or returns it if an allocation fails.
    pub fn insert(&mut self, event: Event<B>) -> Result<(), Event<B>>
        requires { IsNewKey event_key event.key self.old }
        ensures ok { OnOk result (self.new ≡ put_in_order event_key event self.old) }
        ensures err { IfErr result (λ back. (back ≡ event) × (self.new ≡ self.old)) }
    {
        if self.heap.reserve(1).is_err() {
            return Err(event);
        }
        if self.events.make_room().is_err() {
            return Err(event);
        }
        let key = Reverse(event.key);
        let place = self.events.insert_reserved(event);
        match self.heap.push(Waiting { key, place }) {
            Ok(()) => Ok(()),
            Err(_) => unreachable!(),
        }
    }

    /// The key of the first event.
    pub fn first_key(&self) -> Option<Key>
        ensures { result ≡ option_map (λ e. e.key) (slice_get self.now 0) }
    {
        let waiting = self.heap.peek()?;
        Some(waiting.key.0)
    }

    /// Takes the first event.
    #[inline(never)]
    pub fn pop_first(&mut self) -> Option<Event<B>>
        ensures { MatchOption result ((self.old ≡ []) × (self.new ≡ [])) (λ first. self.old ≡ first ∷ self.new) }
    {
        let waiting = self.heap.pop()?;
        Some(self.events.remove(waiting.place))
    }
}

impl<B: Brief + Copied + Drop> EventHeap<B> {
    /// Copies of the events before a time in microseconds.
    pub fn up_to(&self, horizon: u64) -> Result<Vec<Event<B>>, Memory>
        ensures { IfOk result (λ copies. copies.items ≡ before event_key horizon self.now) }
    {
        copies_before(self.alloc, &self.events, self.heap.as_slice(), horizon)
    }
}
