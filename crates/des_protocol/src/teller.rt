//! Through what a node tells.
ghost use Rattle.std.specs.Prelude.{◌≡◌, ◌+◌, ◌<◌, ◌^◌, ◌∷◌, ◌++◌, [], length, OnOk};
ghost use Rattle.des_protocol.specs.Numbered.{events_of};

use des_event::{Event, Key, Memory};
use std::marker::Model;

/// Through this a node tells others while it acts. It gives each telling its key. Contracts see what
/// was told, in its order.
#[derive(Drop)]
pub struct Teller<B: Drop> {
    pub(crate) time: u64,
    pub(crate) origin: u32,
    /// How many events the origin has made, with those of this teller.
    pub(crate) made: u64,
    pub(crate) events: Vec<Event<B>>,
}

impl<B: Drop> Model for Teller<B> {
    ghost use Rattle.std.specs.Prelude.{◌-◌, length, map};
    ghost use Rattle.des_protocol.specs.Tellers.{Speech, telling_of};
    ghost use Rattle.des_protocol.specs.Inside.{IsNumbered};

    ghost Value = { Speech B };

    ghost view = { λ t. record { time = t.time; origin = t.origin; made = t.made - length t.events.items; told = map (telling_of t.time) t.events.items } };

    ghost invariant = { IsNumbered };
}

impl<B: Drop> Teller<B> {
    /// A teller that has told nothing, with room for events.
    pub(crate) fn new(time: u64, origin: u32, made: u64, room: Vec<Event<B>>) -> Teller<B>
        requires { room.items ≡ [] }
        ensures { result ≡ record { time = time; origin = origin; made = made; told = [] } }
    {
        Teller {
            time,
            origin,
            made,
            events: room,
        }
    }

    /// The time at which the node acts, in microseconds.
    pub fn time(&self) -> u64
        ensures { result ≡ self.now.time }
    {
        self.time
    }

    /// How many events the origin has made, with those of this teller.
    pub(crate) fn made(&self) -> u64
        ensures { result ≡ self.now.made + length self.now.told }
    {
        self.made
    }

    /// The events of all that was told.
    pub(crate) fn into_events(self) -> Vec<Event<B>>
        ensures { result.items ≡ events_of self.time self.origin self.made self.told }
    {
        self.events
    }

    /// Tells a node something, which it hears `delay` microseconds later.
    ///
    /// # Errors
    ///
    /// `Memory`, if an allocation fails.
    pub fn tell(&mut self, delay: u64, target: u32, body: B) -> Result<(), Memory>
        requires in_words { self.old.time + delay < 2 ^ 64 }
        requires few { self.old.made + length self.old.told + 1 < 2 ^ 64 }
        ensures { OnOk result (self.new ≡ record self.old { told = self.old.told ++ (record { delay = delay; target = target; body = body }) ∷ [] }) }
    {
        let key = Key {
            time: self.time + delay,
            origin: self.origin,
            number: self.made + 1,
        };
        self.events.push(Event { key, target, body })?;
        self.made += 1;
        Ok(())
    }
}
