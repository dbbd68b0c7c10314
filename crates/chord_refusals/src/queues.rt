//! Calls of the queues and the arena that return what they cannot take.
ghost use Rattle.std.specs.Prelude.{◌≡◌, ◌≢◌, []};
ghost use Rattle.std.specs.List.{AllPairs};
ghost use Rattle.des_event.specs.KeyOrder.{before};
ghost use Rattle.des_queue.specs.EventKey.{event_key};

use crate::stop::{Stop, holds};
use chord_arena::RecordArena;
use chord_event::{Body, Event, Key};
use chord_queue::{Pending, WindowQueue};
use std::alloc::Global;

/// An event of this time: a timeout, which has a short form, or at time 7 a message.
fn event_at(time: u64) -> Event
    ensures { result.key ≡ record { time = time; origin = 2; number = time } }
{
    let key = Key {
        time,
        origin: 2,
        number: time,
    };
    Event {
        key,
        target: 0,
        body: if time == 7 {
            Body::Notify
        } else {
            Body::Timeout { call: time }
        },
    }
}

/// Stops after an event was refused, which must come back, while nothing else may have changed.
fn stop_refused(back: &Event, time: u64, unchanged: bool, wrong: &'static str) -> Result<(), Stop> {
    holds(back.key.time == time, "another event comes back")?;
    holds(unchanged, wrong)?;
    Err(Stop::Memory)
}

/// Adds two events to the pending ones, and a copy of the earlier one to others. An event that is refused comes back,
/// and the others are pending as they were.
pub fn insert_and_copy(alloc: Global) -> Result<(), Stop> {
    let mut pending = Pending::new(alloc);
    if let Err(back) = pending.insert(event_at(7)) {
        let unchanged = pending.first_time() == None;
        return stop_refused(&back, 7, unchanged, "an event is pending");
    }
    if let Err(back) = pending.insert(event_at(5)) {
        let unchanged = pending.first_time() == Some(7);
        return stop_refused(&back, 5, unchanged, "another event is pending");
    }
    copy_to_others(alloc, &pending)
}

/// Copies the earlier of two pending events to others.
fn copy_to_others(alloc: Global, pending: &Pending) -> Result<(), Stop>
    requires { AllPairs (λ a b. a.key ≢ b.key) (before event_key 6 pending.now) }
{
    let copies = pending.up_to(6);
    holds(pending.first_time() == Some(5), "copying moves an event")?;
    insert_copies(alloc, copies?)
}

/// Adds a copy to others.
fn insert_copies(alloc: Global, copies: Vec<Event>) -> Result<(), Stop>
    requires { AllPairs (λ a b. a.key ≢ b.key) copies.items }
{
    holds(copies.len() == 1, "another number of copies")?;
    let mut others = Pending::new(alloc);
    others.insert_all(copies)?;
    holds(others.first_time() == Some(5), "another event is copied")
}

/// Adds two events to the queue of a window.
pub fn push_two(alloc: Global) -> Result<(), Stop> {
    let mut queue = WindowQueue::new(alloc);
    if let Err(back) = queue.push(event_at(7)) {
        return stop_refused(&back, 7, queue.len() == 0, "an event waits");
    }
    if let Err(back) = queue.push(event_at(5)) {
        let unchanged = queue.len() == 1;
        return stop_refused(&back, 5, unchanged, "another number of events wait");
    }
    let least = queue.least_key();
    holds(least == Some(event_at(5).key), "another event is the least")
}

/// Makes room for three chunks of records, after one. The record so far stays, and the room too.
pub fn reserve_chunks(alloc: Global) -> Result<(), Stop> {
    let mut arena = RecordArena::new(alloc);
    arena.reserve(1)?;
    let Ok(ticket) = arena.place(9u64) else {
        return Err(Stop::Wrong("there is no room"));
    };
    let outcome = arena.reserve(700);
    holds(*arena.get(&ticket) == 9, "the record is another")?;
    holds(arena.place(8).is_ok(), "the room is gone")?;
    outcome?;
    Ok(())
}
