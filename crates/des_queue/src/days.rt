//! Events by day.
ghost use Rattle.std.specs.Prelude.{◌≡◌, ℕ, ◌+◌, ◌<◌, ◌≤◌, [], ◌++◌, map, vec_len, vec_capacity, IfSome, OnOk};
ghost use Rattle.std.specs.List.{All, AllByRecursion};
ghost use Rattle.std.specs.List.Sorted.{IsPermutation};
ghost use Rattle.des_queue.specs.Shelf.{ContainsPlace, get};
ghost use Rattle.des_queue.specs.Days.{AreDays, HasSame, HasTaken, HaveNone, IsOpened, MayTake, entries_in};
ghost use Rattle.des_queue.specs.Places.{entry_at};

use crate::shelf::Shelf;
use crate::waiting::Waiting;
use des_event::{Brief, Event, Memory};
use std::alloc::Global;
use std::cmp::Reverse;

/// The number of days that have a list. These are two seconds: a timer of a second, with its jitter,
/// still has a list.
const DAYS: u64 = 2048;

/// The length of a day in microseconds.
const DAY: u64 = 1024;

/// The number of events that one day may have.
const MOST: usize = 8192;

/// The most room that a list keeps when it is emptied.
const KEPT: usize = 64;

/// Events, and those of later days by day. A list has the places of the events of one day, and only
/// days after the last opened one have any.
#[derive(Drop)]
pub struct Days<B: Brief> {
    /// The places of the events of day `d` are in list `d % DAYS`. They are stored as u32, which
    /// takes half of the memory.
    pub lists: Vec<Vec<u32>>,
    /// The day that was opened last.
    pub today: u64,
    /// No event in the lists has a later day.
    pub latest: u64,
    /// The events of the lists and of the opened days.
    pub events: Shelf<B>,
}

impl<B: Brief + Drop> Days<B> {
    /// Days without events. They take no memory.
    pub fn new(alloc: Global) -> Days<B>
        ensures days { (room : ℕ) → AreDays result room }
        ensures none { HaveNone result }
    {
        Days {
            lists: Vec::new(alloc),
            today: 0,
            latest: 0,
            events: Shelf::new(alloc),
        }
    }

    /// Makes the lists if there are none yet, and room in `due` for the events of one of them. There
    /// are fewer lists or none if an allocation fails.
    #[inline(always)]
    pub fn make_lists(&mut self, due: &mut Vec<Waiting<usize>>, alloc: Global)
        requires { AreDays self.old (vec_capacity due.old) }
        ensures days { AreDays self.new (vec_capacity due.new) }
        ensures same { HasSame self.old self.new }
        ensures due { due.new.items ≡ due.old.items }
    {
        if self.lists.len() > 0 {
            return;
        }
        self.add_lists(due, alloc);
    }

    /// The index of the list that takes an event of this time, once there is room for it. None if the
    /// day of the time has no list or is too far ahead, if the list has no room, if an event
    /// has no place below 2^32, or if an allocation fails.
    #[inline(always)]
    pub fn list_for(&mut self, time: u64, room: usize) -> Option<usize>
        requires { AreDays self.old room }
        ensures days { AreDays self.new room }
        ensures same { HasSame self.old self.new }
        ensures takes { IfSome result (λ at. MayTake self.new time at room) }
    {
        let day = time / DAY;
        let at = (day % DAYS) as usize;
        if day <= self.today || day - self.today >= DAYS || at >= self.lists.len() {
            return None;
        }
        if self.lists[at].len() >= room {
            return None;
        }
        if let Err(_refused) = self.events.make_room() {
            return None;
        }
        if let Err(_refused) = self.lists[at].reserve(1) {
            return None;
        }
        Some(at)
    }

    /// Adds an event to the list that takes it.
    #[inline(always)]
    pub fn put(&mut self, event: Event<B>, at: usize)
        requires { (room : ℕ) × MayTake self.old event.key.time at room }
        ensures days { (room : ℕ) → AreDays self.old room → MayTake self.old event.key.time at room → AreDays self.new room }
        ensures taken { HasTaken self.old event self.new }
    {
        let day = event.key.time / DAY;
        let place = self.events.insert_reserved(event);
        self.lists[at].push_reserved(place as u32);
        self.latest = self.latest.max(day);
    }

    /// Moves on to the day of a time. There are no events in the lists.
    pub fn go_on(&mut self, time: u64)
        requires none { HaveNone self.old }
        ensures days { (room : ℕ) → AreDays self.old room → AreDays self.new room }
        ensures none { HaveNone self.new }
    {
        self.today = self.today.max(time / DAY);
        self.latest = self.today;
    }

    /// Opens days until one has events, whose entries go to the empty list `due`. If no day has
    /// events, the list stays empty.
    pub fn open_next(&mut self, due: &mut Vec<Waiting<usize>>)
        requires days { AreDays self.old (vec_capacity due.old) }
        requires empty { due.old.items ≡ [] }
        ensures days { AreDays self.new (vec_capacity due.new) }
        ensures events { self.new.events ≡ self.old.events }
        ensures moved { IsPermutation (entries_in self.old) (due.new.items ++ entries_in self.new) }
        ensures opened { IsOpened self.new due.new.items }
        ensures whole { due.new.items ≡ [] → HaveNone self.new }
    {
        while due.is_empty() && self.today < self.latest {
            self.open_day(due);
        }
    }

    /// Adds the entries of all lists.
    pub fn add_all(&self, entries: &mut Vec<Waiting<usize>>) -> Result<(), Memory>
        requires { (room : ℕ) × AreDays self.now room }
        ensures { OnOk result (entries.new.items ≡ entries.old.items ++ entries_in self.now) }
    {
        for list in &self.lists {
            entries.reserve(list.len())?;
            add_entries(&self.events, list, entries);
        }
        Ok(())
    }

    /// Makes the first lists, and room in `due` for the events of one of them.
    #[inline(never)]
    fn add_lists(&mut self, due: &mut Vec<Waiting<usize>>, alloc: Global)
        requires days { AreDays self.old (vec_capacity due.old) }
        requires none { self.old.lists.items ≡ [] }
        ensures days { AreDays self.new (vec_capacity due.new) }
        ensures same { HasSame self.old self.new }
        ensures due { due.new.items ≡ due.old.items }
    {
        if due.reserve(MOST).is_err() {
            return;
        }
        self.lists = empty_lists(alloc);
    }

    /// Opens the next day. The entries of its events go to the empty list `due`.
    fn open_day(&mut self, due: &mut Vec<Waiting<usize>>)
        requires days { AreDays self.old (vec_capacity due.old) }
        requires empty { due.old.items ≡ [] }
        requires more { self.old.today < self.old.latest }
        ensures days { AreDays self.new (vec_capacity due.new) }
        ensures today { (self.new.today ≡ self.old.today + 1) × (self.new.latest ≡ self.old.latest) }
        ensures events { self.new.events ≡ self.old.events }
        ensures moved { IsPermutation (entries_in self.old) (due.new.items ++ entries_in self.new) }
        ensures opened { IsOpened self.new due.new.items }
    {
        self.today += 1;
        let at = (self.today % DAYS) as usize;
        if at < self.lists.len() {
            add_entries(&self.events, &self.lists[at], due);
            empty_list(&mut self.lists[at]);
        }
    }
}

/// Empties a list. One with much room gives its memory back: otherwise each list would keep the room
/// for the most events that one of its days has had.
fn empty_list(places: &mut Vec<u32>)
    ensures { places.new.items ≡ [] }
{
    if places.capacity() > KEPT {
        *places = Vec::new(*places.allocator());
    } else {
        places.clear();
    }
}

/// Adds the entries of the events at some places.
fn add_entries<B: Brief + Drop>(
    events: &Shelf<B>,
    places: &Vec<u32>,
    entries: &mut Vec<Waiting<usize>>,
)
    requires there { All (ContainsPlace events.now) places.now.items }
    requires room { vec_len entries.old + vec_len places.now ≤ vec_capacity entries.old }
    ensures added { entries.new.items ≡ entries.old.items ++ map (entry_at (get events.now)) places.now.items }
    ensures capacity { vec_capacity entries.old ≤ vec_capacity entries.new }
{
    for place in places {
        let place = *place as usize;
        let key = Reverse(events.key(place));
        match entries.push(Waiting { key, place }) {
            Ok(()) => {}
            Err(_) => unreachable!(),
        }
    }
}

/// Empty lists, one for each day, or fewer if an allocation fails.
fn empty_lists(alloc: Global) -> Vec<Vec<u32>>
    ensures { AllByRecursion (λ l. l.items ≡ []) result.items }
{
    let mut lists = Vec::new(alloc);
    for _day in 0..DAYS {
        if let Err(_refused) = lists.push(Vec::new(alloc)) {
            return lists;
        }
    }
    lists
}
