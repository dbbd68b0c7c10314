//! The raw memory of a chunk.
ghost use Rattle.std.specs.Prelude.{◌≡◌, ℕ, ◌+◌, ◌<◌, ◌≤◌, List, [], ◌∷◌, ◌++◌, length, slice_get, Some, IfOk};
ghost use Rattle.std.specs.Vec.Ownership.{FitsInBlock};
ghost use Rattle.des_arena.specs.Ownership.{chunk_owned, chunk_lent};

use std::alloc::{AllocError, Allocator};
use std::marker::{Model, PhantomData, Send, Sync};
use std::mem::{align_of, size_of};

/// The memory of a chunk: its records, the room after them and the right to free it all. No other
/// code follows a pointer. Contracts see the records as `items`, and how many fit as `places`; the
/// holder keeps both counts and the allocator.
///
/// It is not `Drop`: its holder must free it with `deallocate`.
pub struct RawChunk<T, A: Allocator> {
    start: *mut T,
    owner: PhantomData<*const A>,
    ghost items: { List T },
    ghost places: { ℕ },
    ghost alloc: { A },
    ghost fits: { length items ≤ places },
}

impl<T, A: Allocator> Model for RawChunk<T, A> {
    ghost also_owns = { λ b. chunk_owned T.row (A.dealloc_token b.alloc) b.start b.places b.items };

    ghost also_shares = { λ b _ κ. chunk_lent T.row b.start b.places b.items κ };
}

unsafe impl<T: Send, A: Allocator + Send> Send for RawChunk<T, A> {}

unsafe impl<T: Sync, A: Allocator> Sync for RawChunk<T, A> {}

impl<T, A: Allocator> RawChunk<T, A> {
    /// Memory for `places` records, with none in it.
    pub(crate) fn allocate(alloc: &A, places: usize) -> Result<RawChunk<T, A>, AllocError>
        requires { FitsInBlock T.row places }
        ensures empty { IfOk result (λ raw. raw.items ≡ []) }
        ensures places { IfOk result (λ raw. raw.places ≡ places) }
        ensures owner { IfOk result (λ raw. raw.alloc ≡ alloc.now) }
    {
        match alloc.allocate(places * size_of::<T>(), align_of::<T>()) {
            Ok(bytes) => Ok(RawChunk {
                start: bytes as *mut T,
                owner: PhantomData,
            }),
            Err(refused) => Err(refused),
        }
    }

    /// Frees the memory. No record may be left.
    pub(crate) fn deallocate(self, alloc: &A, places: usize)
        requires empty { self.items ≡ [] }
        requires counted { self.places ≡ places }
        requires owner { self.alloc ≡ alloc.now }
    {
        let RawChunk { start, owner: _ } = self;
        unsafe {
            alloc.deallocate(start as *mut u8, places * size_of::<T>(), align_of::<T>());
        }
    }

    /// Adds a record after the `len` present ones.
    pub(crate) fn push(&mut self, len: usize, item: T)
        requires counted { len ≡ length self.old.items }
        requires room { len < self.old.places }
        ensures items { self.new.items ≡ self.old.items ++ item ∷ [] }
        ensures places { self.new.places ≡ self.old.places }
    {
        unsafe { self.start.add(len).write(item) }
    }

    /// Removes the last record and returns it. The `len` records before it stay.
    pub(crate) fn pop(&mut self, len: usize) -> T
        requires { length self.old.items ≡ len + 1 }
        ensures items { self.old.items ≡ self.new.items ++ result ∷ [] }
        ensures places { self.new.places ≡ self.old.places }
    {
        unsafe { self.start.add(len).read() }
    }

    /// The record at an index.
    pub(crate) fn get(&self, index: usize) -> &T
        requires { index < length self.now.items }
        ensures { slice_get self.now.items index ≡ Some result.now }
    {
        unsafe { &*self.start.add(index) }
    }
}
