//! Chunks of 256 records.
ghost use Rattle.std.specs.Prelude.{◌≡◌, ◌<◌, [], ◌∷◌, ◌++◌, length, slice_get, Some, IfOk};

use crate::raw_chunk::RawChunk;
use std::alloc::{AllocError, Global};
use std::marker::Model;
use std_alloc::room::may_hold;

pub(crate) const CHUNK_PLACES: usize = 256;

/// Memory for 256 records, filled from the front, which contracts see as the list of its records.
pub struct Chunk<T> {
    raw: RawChunk<T, Global>,
    len: usize,
}

impl<T> Model for Chunk<T> {
    ghost use Rattle.std.specs.Prelude.{List};

    ghost Value = { List T };

    ghost use Rattle.des_arena.specs.Chunk.{IsChunk};

    ghost view = { λ c. c.raw.items };

    ghost invariant = { λ c. IsChunk c };
}

impl<T> Chunk<T> {
    /// A chunk without records. The allocation also fails if 256 records are too large for any
    /// block.
    pub(crate) fn new(alloc: Global) -> Result<Chunk<T>, AllocError>
        ensures { IfOk result (λ c. c ≡ []) }
    {
        if !may_hold::<T>(CHUNK_PLACES) {
            return Err(AllocError);
        }
        let raw = RawChunk::allocate(&alloc, CHUNK_PLACES)?;
        Ok(Chunk { raw, len: 0 })
    }

    /// Frees the memory of a chunk without records.
    pub(crate) fn free(self, alloc: Global)
        requires { self ≡ [] }
    {
        let Chunk { raw, len: _ } = self;
        raw.deallocate(&alloc, CHUNK_PLACES);
    }

    /// Adds a record at the end.
    pub(crate) fn push(&mut self, value: T)
        requires { length self.old < 256 }
        ensures { self.new ≡ self.old ++ value ∷ [] }
    {
        let len = self.len;
        self.raw.push(len, value);
        self.len = len + 1;
    }

    /// The record at an index.
    pub(crate) fn get(&self, index: usize) -> &T
        requires { index < length self.now }
        ensures { slice_get self.now index ≡ Some result.now }
    {
        self.raw.get(index)
    }

    /// Removes the last record and returns it.
    pub(crate) fn pop(&mut self) -> T
        requires { 0 < length self.old }
        ensures { self.old ≡ self.new ++ result ∷ [] }
    {
        let len = self.len - 1;
        self.len = len;
        self.raw.pop(len)
    }
}

impl<T: Drop> Chunk<T> {
    /// Drops all records.
    pub(crate) fn clear(&mut self)
        ensures { self.new ≡ [] }
    {
        while self.len > 0 {
            drop(self.pop());
        }
    }
}
