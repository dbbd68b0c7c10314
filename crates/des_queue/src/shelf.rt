//! Events at places.
ghost use Rattle.std.specs.Prelude.{◌≡◌, ℕ, ◌+◌, ◌<◌, ◌^◌, false, true, Some, None, IfOk, IfSome, OnOk};
ghost use Rattle.slab.specs.Slab.{slab_len};
ghost use Rattle.des_queue.specs.Places.{key_there};
ghost use Rattle.des_queue.specs.Shelf.{ChangesAt, ContainsPlace, get, has_room, shelf_len, spelled_out};

use des_event::{Brief, Copied, Event, Key, Memory, Short};
use slab::Slab;
use std::alloc::Global;
use std::marker::Model;

/// The most events of one slab.
const MOST: usize = 2_147_483_648;

/// An event that a node made for itself, with the short form of its body. It takes less than half of
/// the memory of an event.
#[derive(Clone, Copy, Drop)]
pub struct OwnEvent {
    pub time: u64,
    pub number: u64,
    pub value: u64,
    pub origin: u32,
    pub kind: u32,
}

/// Events at places, which are numbers below 2^32. Contracts see what is at each place.
///
/// Most events that wait are timers and timeouts, which nodes made for themselves. If its body has a
/// short form, such an event is kept without the body.
#[derive(Drop)]
pub struct Shelf<B: Brief> {
    /// Event `i` of these has place `2 * i`.
    own: Slab<OwnEvent>,
    /// Event `i` of these has place `2 * i + 1`.
    others: Slab<Event<B>>,
}

impl<B: Brief> Model for Shelf<B> {
    ghost use Rattle.des_queue.specs.Shelf.{Shelved, shelved};

    ghost Value = { Shelved B };

    ghost view = { λ s. shelved B.long s };
}

impl<B: Brief + Drop> Shelf<B> {
    /// A shelf without events. It takes no memory.
    pub fn new(alloc: Global) -> Shelf<B>
        ensures none { (place : ℕ) → get result place ≡ None }
        ensures count { shelf_len result ≡ 0 }
    {
        Shelf {
            own: Slab::new(alloc),
            others: Slab::new(alloc),
        }
    }

    /// The number of events. It decides where an event goes, so nothing is proved of it.
    pub fn len(&self) -> usize {
        self.own.len().saturating_add(self.others.len())
    }

    /// Makes room for one event more, of either kind.
    #[inline(always)]
    pub fn make_room(&mut self) -> Result<(), Memory>
        ensures ready { OnOk result (self.new.ready ≡ true) }
        ensures kept { self.new ≡ record self.old { ready = self.new.ready } }
    {
        if has_room(&self.own) && has_room(&self.others) {
            return Ok(());
        }
        grow(&mut self.own)?;
        grow(&mut self.others)
    }

    /// Adds an event, and returns its place.
    #[inline(always)]
    pub fn insert_reserved(&mut self, event: Event<B>) -> usize
        requires { self.old.ready ≡ true }
        ensures small { result < 2 ^ 32 }
        ensures was_vacant { get self.old result ≡ None }
        ensures changed { ChangesAt (get self.old) (get self.new) result (Some event) }
        ensures count { shelf_len self.new ≡ shelf_len self.old + 1 }
    {
        match own_event(&event) {
            Some(own) => {
                drop(event);
                2 * self.own.insert_reserved(own)
            }
            None => 2 * self.others.insert_reserved(event) + 1,
        }
    }

    /// The key of the event at a place.
    #[inline(always)]
    pub fn key(&self, place: usize) -> Key
        requires { ContainsPlace self.now place }
        ensures { result ≡ key_there (get self.now place) }
    {
        if place % 2 == 0 {
            let own = &self.own[place / 2];
            Key {
                time: own.time,
                origin: own.origin,
                number: own.number,
            }
        } else {
            self.others[place / 2].key
        }
    }

    /// Takes the event at a place.
    #[inline(always)]
    pub fn remove(&mut self, place: usize) -> Event<B>
        requires { ContainsPlace self.old place }
        ensures value { get self.old place ≡ Some result }
        ensures changed { ChangesAt (get self.old) (get self.new) place None }
        ensures count { shelf_len self.new + 1 ≡ shelf_len self.old }
    {
        if place % 2 == 0 {
            whole_event(self.own.remove(place / 2))
        } else {
            self.others.remove(place / 2)
        }
    }

    /// The node to which the event at a place comes, if there is an event. It is a hint of what to fetch,
    /// so nothing is proved of it.
    #[inline(always)]
    pub fn target(&self, place: usize) -> Option<u32> {
        if place % 2 == 0 {
            let own = self.own.get(place / 2)?;
            Some(own.origin.saturating_sub(2))
        } else {
            let event = self.others.get(place / 2)?;
            Some(event.target)
        }
    }

    /// Reads something of the event at a place, if there is one, in each of its cache lines. What it
    /// returns has no meaning.
    #[inline(always)]
    pub fn fetch(&self, place: usize) -> Option<u64> {
        if place % 2 == 0 {
            let own = self.own.get(place / 2)?;
            Some(own.time.wrapping_add(u64::from(own.kind)))
        } else {
            let event = self.others.get(place / 2)?;
            // The next place mostly begins in the cache line in which this one ends.
            let has_next = self.others.contains((place / 2).wrapping_add(1));
            Some(u64::from(event.target).wrapping_add(u64::from(has_next)))
        }
    }
}

impl<B: Brief + Copied + Drop> Shelf<B> {
    /// A copy of the event at a place.
    pub fn copy_of(&self, place: usize) -> Result<Event<B>, Memory>
        requires { ContainsPlace self.now place }
        ensures { IfOk result (λ copy. get self.now place ≡ Some copy) }
    {
        if place % 2 == 0 {
            Ok(whole_event(self.own[place / 2]))
        } else {
            self.others[place / 2].try_clone()
        }
    }
}

/// An event that a node made for itself, if its body has a short form.
#[inline(always)]
fn own_event<B: Brief>(event: &Event<B>) -> Option<OwnEvent>
    ensures { IfSome result (λ own. spelled_out B.long own ≡ event.now) }
{
    if event.target != event.key.origin.saturating_sub(2) {
        return None;
    }
    let Short { kind, number } = event.body.shorten()?;
    Some(OwnEvent {
        time: event.key.time,
        number: event.key.number,
        value: number,
        origin: event.key.origin,
        kind,
    })
}

/// The event that a node made for itself, with its body.
#[inline(always)]
fn whole_event<B: Brief>(own: OwnEvent) -> Event<B>
    ensures { result ≡ spelled_out B.long own }
{
    Event {
        key: Key {
            time: own.time,
            origin: own.origin,
            number: own.number,
        },
        target: own.origin.saturating_sub(2),
        body: B::lengthen(Short {
            kind: own.kind,
            number: own.value,
        }),
    }
}

/// Whether a slab takes one value more without an allocation, and all its keys are below 2^31.
#[inline(always)]
fn has_room<T>(slab: &Slab<T>) -> bool
    ensures { result ≡ has_room slab.now }
{
    slab.len() < slab.capacity() && slab.capacity() <= MOST
}

/// Makes room in a slab for one value more. A full slab grows by an eighth, and to 2^31 values at most:
/// of twice the room up to a half would stay empty.
#[inline(never)]
fn grow<T>(slab: &mut Slab<T>) -> Result<(), Memory>
    ensures room { OnOk result (has_room slab.new ≡ true) }
    ensures kept { slab.new ≡ record slab.old { capacity = slab.new.capacity } }
{
    if slab.len() == slab.capacity() && slab.len() < MOST {
        let more = (slab.len() / 8).max(16).min(MOST - slab.len());
        slab.reserve_exact(more)?;
    }
    if has_room(slab) { Ok(()) } else { Err(Memory) }
}
