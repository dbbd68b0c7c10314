//! All events that are still to come.
ghost use Rattle.std.specs.Prelude.{◌≡◌, ◌≢◌, ◌↔◌, [], ◌∷◌, ◌++◌, slice_get, option_map, IfOk, IfErr, MatchOption, OnErr, OnOk};
ghost use Rattle.std.specs.List.{AllPairs, Contains};
ghost use Rattle.des_event.specs.declared.event.Event.{Event as AnEvent};
ghost use Rattle.des_event.specs.KeyOrder.{InKeyOrder, IsNewKey, put_in_order, before, from_on};
ghost use Rattle.des_queue.specs.EventKey.{event_key};

use crate::calendar::{Calendar, sort_down, sort_up};
use crate::event_heap::EventHeap;
use des_event::{Brief, Copied, Event, Memory, free_spare};
use std::alloc::Global;
use std::marker::Model;

/// The events that are still to come, which contracts see as their list in the order of their keys.
///
/// Most events go into a calendar: a list for each of the next days, of which only the next one is
/// sorted. So an insertion and a removal take about the same time however many events are pending,
/// while those of a heap grow with the logarithm (R. Brown, "Calendar queues: a fast O(1) priority
/// queue implementation for the simulation event set problem", Communications of the ACM 31, 1988).
///
/// An event that the calendar does not take goes into a heap, and the first event is the lesser of
/// the two first ones. So the calendar may return any event: which ones it takes is a matter of
/// speed alone, and no contract speaks of it.
#[derive(Drop)]
pub struct Pending<B: Brief> {
    calendar: Calendar<B>,
    /// The events that the calendar did not take.
    rest: EventHeap<B>,
}

impl<B: Brief> Model for Pending<B> {
    ghost use Rattle.std.specs.Prelude.{List};
    ghost use Rattle.des_event.specs.declared.event.Event.{Event as AnEvent};
    ghost use Rattle.des_queue.specs.Pending.{all_pending, ArePending};

    ghost Value = { List (AnEvent B) };

    ghost view = { λ p. all_pending p };

    ghost invariant = { λ p. ArePending p };
}

impl<B: Brief + Drop> Pending<B> {
    pub fn new(alloc: Global) -> Pending<B>
        ensures { result ≡ [] }
    {
        Pending {
            calendar: Calendar::new(alloc),
            rest: EventHeap::new(alloc),
        }
    }

    /// All pending events are in the order of their keys.
    pub fn recall_order(&self)
        ensures { InKeyOrder event_key self.now }
    {
        // A no-op for the machine: it hands the prover what the type keeps.
        let _ = &self.rest;
    }

    /// Adds an event, or returns it if an allocation fails.
    #[inline(always)]
    pub fn insert(&mut self, event: Event<B>) -> Result<(), Event<B>>
        requires { IsNewKey event_key event.key self.old }
        ensures ok { OnOk result (self.new ≡ put_in_order event_key event self.old) }
        ensures err { IfErr result (λ back. (back ≡ event) × (self.new ≡ self.old)) }
    {
        let Err(back) = self.calendar.insert(event, self.rest.len()) else {
            return Ok(());
        };
        self.rest.insert(back)?;
        Ok(())
    }

    /// Adds events. After an error some of them may have been added: no caller goes on after that.
    pub fn insert_all(&mut self, events: Vec<Event<B>>) -> Result<(), Memory>
        requires { AllPairs (λ a b. a.key ≢ b.key) (self.old ++ events.items) }
        ensures same { OnOk result ((x : AnEvent B) → Contains self.new x ↔ Contains (self.old ++ events.items) x) }
        ensures ordered { InKeyOrder event_key self.new }
    {
        let mut events = events;
        // The first event goes in first: the calendar opens the day of the first event that it takes,
        // and events of days before it would go into the heap.
        sort_down(&mut events);
        self.move_all(&mut events)
    }

    /// Adds the events of a list, which is empty afterwards and keeps its memory. After an error
    /// some of them may have been added: no caller goes on after that.
    #[inline(always)]
    pub fn insert_from(&mut self, events: &mut Vec<Event<B>>) -> Result<(), Memory>
        requires { AllPairs (λ a b. a.key ≢ b.key) (self.old ++ events.old.items) }
        ensures same { OnOk result ((x : AnEvent B) → Contains self.new x ↔ Contains (self.old ++ events.old.items) x) }
        ensures ordered { InKeyOrder event_key self.new }
        ensures emptied { OnOk result (events.new.items ≡ []) }
    {
        while let Some(event) = events.pop() {
            self.recall_order();
            if let Err(_failed) = self.put(event) {
                self.recall_order();
                return Err(Memory);
            }
        }
        self.recall_order();
        Ok(())
    }

    /// The time of the first event, in microseconds.
    pub fn first_time(&self) -> Option<u64>
        ensures { result ≡ option_map (λ e. e.key.time) (slice_get self.now 0) }
    {
        self.calendar.recall_order();
        self.rest.recall_order();
        let Some(key) = self.calendar.first_key() else {
            let Some(other) = self.rest.first_key() else {
                return None;
            };
            return Some(other.time);
        };
        let Some(other) = self.rest.first_key() else {
            return Some(key.time);
        };
        if key.is_before(&other) {
            return Some(key.time);
        }
        Some(other.time)
    }

    /// Whether to read ahead what the next groups of events need: so many are pending that it is hardly
    /// in a near cache, and the first event begins a group. Events of the heap do not count.
    #[inline(always)]
    pub fn begins_group(&self) -> bool {
        self.calendar.begins_group()
    }

    /// The node to which the event comes that is `later` events after the first. Events of the heap are
    /// passed over, and it may be unknown: it is a hint of what to fetch, and no contract speaks of it.
    #[inline(always)]
    pub fn target_ahead(&self, later: usize) -> Option<u32> {
        self.calendar.target_ahead(later)
    }

    /// Reads something of that event, so that its memory is in a cache soon. What it returns has no
    /// meaning.
    #[inline(always)]
    pub fn fetch_event(&self, later: usize) -> Option<u64> {
        self.calendar.fetch_event(later)
    }

    /// Takes the first event.
    #[inline(always)]
    pub fn pop_first(&mut self) -> Option<Event<B>>
        ensures { MatchOption result ((self.old ≡ []) × (self.new ≡ [])) (λ first. self.old ≡ first ∷ self.new) }
    {
        self.calendar.recall_order();
        self.rest.recall_order();
        let Some(key) = self.calendar.first_key() else {
            return pop_rest(&mut self.calendar, &mut self.rest);
        };
        let Some(other) = self.rest.first_key() else {
            return self.calendar.pop_first();
        };
        if key.is_before(&other) {
            return self.calendar.pop_first();
        }
        self.rest.pop_first()
    }

    /// Drops the events before a time in microseconds.
    pub fn split_at(&mut self, horizon: u64)
        ensures { self.new ≡ from_on event_key horizon self.old }
    {
        while let Some(time) = self.first_time() {
            self.recall_order();
            if time >= horizon {
                break;
            }
            drop(self.pop_first());
        }
    }

    /// Adds the events of a list, the last one first, and frees the memory of the list on the way.
    fn move_all(&mut self, events: &mut Vec<Event<B>>) -> Result<(), Memory>
        requires { AllPairs (λ a b. a.key ≢ b.key) (self.old ++ events.old.items) }
        ensures same { OnOk result ((x : AnEvent B) → Contains self.new x ↔ Contains (self.old ++ events.old.items) x) }
        ensures ordered { InKeyOrder event_key self.new }
    {
        while let Some(last) = events.pop() {
            free_spare(events);
            self.recall_order();
            if let Err(_failed) = self.put(last) {
                self.recall_order();
                return Err(Memory);
            }
        }
        self.recall_order();
        Ok(())
    }

    /// Adds an event, or drops it if an allocation fails.
    #[inline(always)]
    fn put(&mut self, event: Event<B>) -> Result<(), Memory>
        requires { IsNewKey event_key event.key self.old }
        ensures { OnOk result (self.new ≡ put_in_order event_key event self.old) }
    {
        // Not by `insert`, each call of which clears the memory of an event that may come back.
        let Err(back) = self.calendar.insert(event, self.rest.len()) else {
            return Ok(());
        };
        put_in_rest(&mut self.rest, back)?;
        Ok(())
    }
}

impl<B: Brief + Copied + Drop> Pending<B> {
    /// Copies of the events before a time in microseconds.
    pub fn up_to(&self, horizon: u64) -> Result<Vec<Event<B>>, Memory>
        ensures { IfOk result (λ copies. copies.items ≡ before event_key horizon self.now) }
    {
        // This looks at every pending event, since most are in no order. No engine calls it.
        let mut copies = self.calendar.up_to(horizon)?;
        let mut others = self.rest.up_to(horizon)?;
        copies.append(&mut others)?;
        sort_up(&mut copies);
        Ok(copies)
    }
}

/// Takes the first event of the rest, and moves a calendar without events on to its day.
#[inline(never)]
fn pop_rest<B: Brief + Drop>(
    calendar: &mut Calendar<B>,
    rest: &mut EventHeap<B>,
) -> Option<Event<B>>
    ensures popped { MatchOption result ((rest.old ≡ []) × (rest.new ≡ [])) (λ first. rest.old ≡ first ∷ rest.new) }
    ensures same { calendar.new ≡ calendar.old }
{
    let event = rest.pop_first()?;
    calendar.go_on(event.key.time);
    Some(event)
}

/// Adds an event to the rest, or drops it if an allocation fails.
#[inline(never)]
fn put_in_rest<B: Brief + Drop>(rest: &mut EventHeap<B>, event: Event<B>) -> Result<(), Memory>
    requires { IsNewKey event_key event.key rest.old }
    ensures ok { OnOk result (rest.new ≡ put_in_order event_key event rest.old) }
    ensures err { OnErr result (rest.new ≡ rest.old) }
{
    if let Err(refused) = rest.insert(event) {
        drop(refused);
        return Err(Memory);
    }
    Ok(())
}
