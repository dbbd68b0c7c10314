//! Arenas: lists of records that never move.
ghost use Rattle.std.specs.Prelude.{◌≡◌, ◌+◌, ◌<◌, ◌≤◌, ◌^◌, ◌↔◌, max, [], ◌∷◌, ◌++◌, length, slice_get, Some, IfOk, IfErr, OnOk, OnErr, IsOk};
ghost use Rattle.std.specs.List.{All};
ghost use Rattle.des_arena.specs.Arena.{arena, room_for};

use crate::chunk::{CHUNK_PLACES, Chunk};
use des_event::Memory;
use std::alloc::Global;
use std::marker::Model;

/// The place of a record in the arena that returned it. Contracts see its index. It is valid until
/// that arena is cleared.
#[derive(Clone, Copy, PartialEq, Eq, PartialOrd, Ord)]
pub struct Ticket {
    index: usize,
}

impl Model for Ticket {
    ghost use Rattle.std.specs.Prelude.{ℕ};

    ghost Value = { ℕ };

    ghost view = { λ t. t.index };

    ghost inverse = { λ n. record { index = n } };
}

impl Ticket {
    /// How many records were placed before this one.
    pub fn index(&self) -> usize
        ensures { result ≡ self.now }
    {
        self.index
    }
}

/// A list of records that never move, in chunks of 256. Contracts see the records as `items`, in
/// the order in which they were placed, and as `room` the number of records that it can hold before
/// it has to allocate again.
///
/// Only `reserve` allocates. Dropping an arena drops its records, so an arena whose records are not
/// `Drop` cannot be dropped.
pub struct RecordArena<T> {
    chunks: Vec<Chunk<T>>,
    len: usize,
    alloc: Global,
}

impl<T> Model for RecordArena<T> {
    ghost use Rattle.des_arena.specs.Arena.{Arena, arena, arena_code};
    ghost use Rattle.des_arena.specs.Packed.{IsArena, arena_of};

    ghost Value = { Arena T };

    ghost coded = { arena_code T.code };

    ghost view = { λ a. arena_of a };

    ghost invariant = { λ a. IsArena a };
}

impl<T> RecordArena<T> {
    /// An arena without records and without room.
    pub fn new(alloc: Global) -> Self
        ensures { result ≡ arena [] 0 }
    {
        RecordArena {
            chunks: Vec::new(alloc),
            len: 0,
            alloc,
        }
    }

    /// Makes room for `additional` more records, in whole chunks. The room so far stays, also if an
    /// allocation fails. Some of the new room may then be there too.
    pub fn reserve(&mut self, additional: usize) -> Result<(), Memory>
        requires { length self.old.items + additional ≤ 2 ^ 40 }
        ensures items { self.new.items ≡ self.old.items }
        ensures ok { OnOk result (self.new.room ≡ max self.old.room (room_for (length self.old.items + additional))) }
        ensures err { OnErr result (self.old.room ≤ self.new.room) }
    {
        let wanted = (self.len + additional).div_ceil(CHUNK_PLACES);
        for _ in self.chunks.len()..wanted {
            self.add_chunk()?;
        }
        Ok(())
    }

    fn add_chunk(&mut self) -> Result<(), Memory>
        requires { self.old.room + 256 ≤ 2 ^ 40 }
        ensures ok { OnOk result (self.new ≡ arena self.old.items (self.old.room + 256)) }
        ensures err { OnErr result (self.new ≡ self.old) }
    {
        let chunk = Chunk::new(self.alloc)?;
        if let Err(refused) = self.chunks.push(chunk) {
            refused.value.free(self.alloc);
            return Err(Memory);
        }
        Ok(())
    }

    /// Adds a record at the end, or returns it if there is no room.
    pub fn place(&mut self, value: T) -> Result<Ticket, T>
        ensures variant { IsOk result ↔ (length self.old.items < self.old.room) }
        ensures ticket { IfOk result (λ ticket. ticket ≡ length self.old.items) }
        ensures ok { OnOk result (self.new ≡ arena (self.old.items ++ value ∷ []) self.old.room) }
        ensures back { IfErr result (λ back. back ≡ value) }
        ensures err { OnErr result (self.new ≡ self.old) }
    {
        let len = self.len;
        if len == self.room() {
            return Err(value);
        }
        let chunk = &mut self.chunks[len / CHUNK_PLACES];
        chunk.push(value);
        self.len = len + 1;
        Ok(Ticket { index: len })
    }

    /// The record at a ticket. No contract distinguishes the tickets of two arenas: it is the
    /// record that this arena has at the ticket's index.
    pub fn get(&self, ticket: &Ticket) -> &T
        requires { ticket.now < length self.now.items }
        ensures { slice_get self.now.items ticket.now ≡ Some result.now }
    {
        let index = ticket.index;
        self.chunks[index / CHUNK_PLACES].get(index % CHUNK_PLACES)
    }

    /// The number of records.
    pub fn len(&self) -> usize
        ensures { result ≡ length self.now.items }
    {
        self.len
    }

    /// The number of records that fit before the next allocation, a multiple of 256.
    pub fn room(&self) -> usize
        ensures { result ≡ self.now.room }
    {
        self.chunks.len() * CHUNK_PLACES
    }
}

impl<T: Drop> RecordArena<T> {
    /// Drops all records and keeps the room. That the records are dropped is in no contract.
    pub fn clear(&mut self)
        ensures { self.new ≡ arena [] self.old.room }
    {
        clear_chunks(&mut self.chunks);
        self.len = 0;
    }
}

impl<T: Drop> Drop for RecordArena<T> {
    fn drop(self) {
        let RecordArena {
            mut chunks,
            len: _,
            alloc,
        } = self;
        clear_chunks(&mut chunks);
        free_chunks(chunks, alloc);
    }
}

fn clear_chunks<T: Drop>(chunks: &mut Vec<Chunk<T>>)
    ensures len { length chunks.new.items ≡ length chunks.old.items }
    ensures cleared { All (λ c. c ≡ []) chunks.new.items }
{
    for chunk in chunks.iter_mut() {
        chunk.clear();
    }
}

fn free_chunks<T>(mut chunks: Vec<Chunk<T>>, alloc: Global)
    requires { All (λ c. c ≡ []) chunks.items }
{
    while let Some(chunk) = chunks.pop() {
        chunk.free(alloc);
    }
    chunks.destroy_empty();
}
