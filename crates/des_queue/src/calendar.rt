//! Events by day, of which those of the opened days are in order.
ghost use Rattle.std.specs.Prelude.{◌≡◌, [], ◌∷◌, reverse, slice_get, option_map, vec_capacity, IfErr, IfOk, IfSome, MatchOption, OnOk};
ghost use Rattle.std.specs.List.Sorted.{IsPermutation};
ghost use Rattle.des_event.specs.KeyOrder.{InKeyOrder, IsNewKey, put_in_order, before};
ghost use Rattle.des_queue.specs.Calendar.{AreDistinct, AreOrderly, events_of};
ghost use Rattle.des_queue.specs.Days.{AreDays, HaveNone, HasSame, MayTake};
ghost use Rattle.des_queue.specs.EventKey.{event_key};

use crate::days::Days;
use crate::waiting::{Waiting, copies_before};
use des_event::{Brief, Copied, Event, Key, Memory};
use std::alloc::Global;
use std::cmp::Reverse;
use std::marker::Model;

/// How many events must be pending for a calendar. Fewer are as fast in a heap, and take less memory
/// there than lists would.
const FEW: usize = 256;

/// From how many pending events on their memory is hardly in a near cache.
const MANY: usize = 8192;

/// How many events are read ahead at once. So their reads wait for memory beside each other, and not
/// one after the other.
pub const GROUP: usize = 4;

/// Events by day, which contracts see as their list in the order of their keys.
///
/// The lists have places in a slab and not events: a slab gives out again first the place that was
/// left last, so an event is mostly written to memory that was used just before. A list was last
/// used a second ago, so events in lists would mostly be written to memory that no cache has.
#[derive(Drop)]
pub struct Calendar<B: Brief> {
    /// The entries of the events of the opened days, the first event last.
    due: Vec<Waiting<usize>>,
    days: Days<B>,
    alloc: Global,
}

impl<B: Brief> Model for Calendar<B> {
    ghost use Rattle.std.specs.Prelude.{List};
    ghost use Rattle.des_event.specs.declared.event.Event.{Event as AnEvent};
    ghost use Rattle.des_queue.specs.Calendar.{calendar_of, IsCalendar};

    ghost Value = { List (AnEvent B) };

    ghost view = { λ c. calendar_of c };

    ghost invariant = { λ c. IsCalendar c };
}

impl<B: Brief + Drop> Calendar<B> {
    /// A calendar without events. It takes no memory.
    pub fn new(alloc: Global) -> Calendar<B>
        ensures { result ≡ [] }
    {
        Calendar {
            due: Vec::new(alloc),
            days: Days::new(alloc),
            alloc,
        }
    }

    /// All events are in the order of their keys.
    pub fn recall_order(&self)
        ensures { InKeyOrder event_key self.now }
    {
        // A no-op for the machine: it hands the prover what the type keeps.
        let _ = &self.alloc;
    }

    /// Adds an event, or returns it if few events are pending, `others` besides those here, or if
    /// `Days` does not take it.
    #[inline(always)]
    pub fn insert(&mut self, event: Event<B>, others: usize) -> Result<(), Event<B>>
        requires { IsNewKey event_key event.key self.old }
        ensures ok { OnOk result (self.new ≡ put_in_order event_key event self.old) }
        ensures err { IfErr result (λ back. (back ≡ event) × (self.new ≡ self.old)) }
    {
        let time = event.key.time;
        let Some(at) = list_for(&mut self.due, &mut self.days, time, others, self.alloc) else {
            return Err(event);
        };
        put(&mut self.due, &mut self.days, event, at);
        Ok(())
    }

    /// The key of the first event.
    pub fn first_key(&self) -> Option<Key>
        ensures { result ≡ option_map (λ e. e.key) (slice_get self.now 0) }
    {
        let waiting = self.due.last()?;
        Some(waiting.key.0)
    }

    /// Whether the next events are to be read ahead: the calendar has many events, and of those whose
    /// day is open whole groups are left.
    #[inline(always)]
    pub fn begins_group(&self) -> bool {
        self.due.len() % GROUP == 0 && self.days.events.len() >= MANY
    }

    /// The node to which the event comes that is `later` events after the first, if its day is open.
    #[inline(always)]
    pub fn target_ahead(&self, later: usize) -> Option<u32> {
        let place = self.place_ahead(later)?;
        self.days.events.target(place)
    }

    /// Reads something of that event.
    #[inline(always)]
    pub fn fetch_event(&self, later: usize) -> Option<u64> {
        let place = self.place_ahead(later)?;
        self.days.events.fetch(place)
    }

    /// The place of that event.
    #[inline(always)]
    fn place_ahead(&self, later: usize) -> Option<usize> {
        let index = self.due.len().checked_sub(later)?.checked_sub(1)?;
        let waiting = self.due.get(index)?;
        Some(waiting.place)
    }

    /// Takes the first event.
    #[inline(always)]
    pub fn pop_first(&mut self) -> Option<Event<B>>
        ensures { MatchOption result ((self.old ≡ []) × (self.new ≡ [])) (λ first. self.old ≡ first ∷ self.new) }
    {
        let waiting = self.due.pop()?;
        // The event is taken last, so that no call comes between it and the caller.
        refill(&mut self.due, &mut self.days);
        Some(self.days.events.remove(waiting.place))
    }

    /// Moves on to the day of a time, if there are no events.
    pub fn go_on(&mut self, time: u64)
        ensures { self.new ≡ self.old }
    {
        if self.due.len() > 0 {
            return;
        }
        self.days.go_on(time);
    }
}

impl<B: Brief + Copied + Drop> Calendar<B> {
    /// Copies of the events before a time in microseconds.
    pub fn up_to(&self, horizon: u64) -> Result<Vec<Event<B>>, Memory>
        ensures { IfOk result (λ copies. copies.items ≡ before event_key horizon self.now) }
    {
        let mut entries = Vec::new(self.alloc);
        for waiting in &self.due {
            entries.push(*waiting)?;
        }
        self.days.add_all(&mut entries)?;
        copies_before(self.alloc, &self.days.events, &entries, horizon)
    }
}

/// The index of the list that takes an event of this time. None if few events are pending, `others`
/// besides those here, or if `Days` has no list for it.
#[inline(always)]
fn list_for<B: Brief + Drop>(
    due: &mut Vec<Waiting<usize>>,
    days: &mut Days<B>,
    time: u64,
    others: usize,
    alloc: Global,
) -> Option<usize>
    requires { AreDays days.old (vec_capacity due.old) }
    ensures days { AreDays days.new (vec_capacity due.new) }
    ensures same { HasSame days.old days.new }
    ensures due { due.new.items ≡ due.old.items }
    ensures takes { IfSome result (λ at. MayTake days.new time at (vec_capacity due.new)) }
{
    if days.events.len().saturating_add(others) < FEW {
        return None;
    }
    days.make_lists(due, alloc);
    days.list_for(time, due.capacity())
}

/// Adds an event to the list that takes it.
#[inline(always)]
fn put<B: Brief + Drop>(
    due: &mut Vec<Waiting<usize>>,
    days: &mut Days<B>,
    event: Event<B>,
    at: usize,
)
    requires orderly { AreOrderly due.old days.old }
    requires takes { MayTake days.old event.key.time at (vec_capacity due.old) }
    requires new { IsNewKey event_key event.key (events_of due.old.items days.old) }
    ensures orderly { AreOrderly due.new days.new }
    ensures taken { events_of due.new.items days.new ≡ put_in_order event_key event (events_of due.old.items days.old) }
    ensures whole { due.new.items ≡ [] → HaveNone days.new }
{
    days.put(event, at);
    refill(due, days);
}

/// Fills the list of due entries, if it is empty, with those of the next day that has any.
#[inline(always)]
fn refill<B: Brief + Drop>(due: &mut Vec<Waiting<usize>>, days: &mut Days<B>)
    requires { AreOrderly due.old days.old }
    ensures orderly { AreOrderly due.new days.new }
    ensures same { events_of due.new.items days.new ≡ events_of due.old.items days.old }
    ensures whole { due.new.items ≡ [] → HaveNone days.new }
    ensures kept { days.new.events ≡ days.old.events }
{
    // Mostly there are some, so this test is made without a call.
    if due.len() > 0 {
        return;
    }
    fill(due, days);
}

/// Fills the empty list of due entries with those of the next day that has any.
#[inline(never)]
fn fill<B: Brief + Drop>(due: &mut Vec<Waiting<usize>>, days: &mut Days<B>)
    requires orderly { AreOrderly due.old days.old }
    requires empty { due.old.items ≡ [] }
    ensures orderly { AreOrderly due.new days.new }
    ensures same { events_of due.new.items days.new ≡ events_of due.old.items days.old }
    ensures whole { due.new.items ≡ [] → HaveNone days.new }
    ensures kept { days.new.events ≡ days.old.events }
{
    days.open_next(due);
    due.sort_unstable();
}

/// Sorts events by their keys.
pub fn sort_up<B: Brief + Drop>(events: &mut Vec<Event<B>>)
    requires { AreDistinct events.old.items }
    ensures same { IsPermutation events.old.items events.new.items }
    ensures up { InKeyOrder event_key events.new.items }
{
    sort_down(events);
    events.reverse();
}

/// Sorts events by their keys, the first event last.
pub fn sort_down<B: Brief + Drop>(events: &mut Vec<Event<B>>)
    requires { AreDistinct events.old.items }
    ensures same { IsPermutation events.old.items events.new.items }
    ensures down { InKeyOrder event_key (reverse events.new.items) }
{
    events.sort_unstable_by_key(|event| Reverse(event.key));
}
