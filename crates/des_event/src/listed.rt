//! Lists that contracts see as plain lists.
ghost use Rattle.std.specs.Prelude.{◌≡◌, ◌<◌, ◌≤◌, [], ◌∷◌, ◌++◌, drop, length, take, IfOk, OnOk, insert, remove, slice_get, slice_set};
ghost use Rattle.std.specs.Fn.{CalledAt};
ghost use Rattle.std.specs.List.Retain.{IsFiltered};

use crate::error::Memory;
use std::alloc::Global;
use std::marker::Model;

/// A vector with its allocator. Contracts see the plain list of its items.
#[derive(Drop)]
pub struct Listed<T> {
    items: Vec<T>,
}

impl<T> Model for Listed<T> {
    ghost use Rattle.std.specs.Prelude.{List};

    ghost Value = { List T };

    ghost view = { λ l. l.items.items };
}

impl<T> Listed<T> {
    pub fn new(alloc: Global) -> Self
        ensures { result ≡ [] }
    {
        Listed {
            items: Vec::new(alloc),
        }
    }

    /// The allocator that the list keeps.
    pub fn allocator(&self) -> Global {
        *self.items.allocator()
    }

    pub fn from_vec(items: Vec<T>) -> Self
        ensures { result ≡ items.items }
    {
        Listed { items }
    }

    pub fn into_vec(self) -> Vec<T>
        ensures { result.items ≡ self }
    {
        let Listed { items } = self;
        items
    }

    pub fn as_slice(&self) -> &[T]
        ensures { result.now ≡ self.now }
    {
        self.items.as_slice()
    }

    /// Makes room for exactly this many items more, if there is less.
    pub fn reserve_exact(&mut self, additional: usize) -> Result<(), Memory>
        ensures { self.new ≡ self.old }
    {
        self.items.reserve_exact(additional)?;
        Ok(())
    }

    pub fn push(&mut self, item: T) -> Result<(), Memory>
    where
        T: Drop,
        ensures { OnOk result (self.new ≡ self.old ++ item ∷ []) }
    {
        self.items.push(item)?;
        Ok(())
    }

    pub fn insert(&mut self, index: usize, item: T) -> Result<(), Memory>
    where
        T: Drop,
        requires { index ≤ length self.old }
        ensures { OnOk result (self.new ≡ insert self.old index item) }
    {
        self.items.insert(index, item)?;
        Ok(())
    }

    pub fn remove(&mut self, index: usize) -> T
        requires { index < length self.old }
        ensures value { slice_get self.old index ≡ Some result }
        ensures rest { self.new ≡ remove self.old index }
    {
        self.items.remove(index)
    }

    pub fn set(&mut self, index: usize, item: T)
    where
        T: Drop,
        requires { index < length self.old }
        ensures { self.new ≡ slice_set self.old index item }
    {
        self.items[index] = item;
    }

    pub fn truncate(&mut self, length: usize)
    where
        T: Drop,
        ensures { self.new ≡ take length self.old }
    {
        self.items.truncate(length);
    }

    pub fn drop_first(&mut self)
    where
        T: Drop,
        ensures { self.new ≡ drop 1 self.old }
    {
        if self.items.len() > 0 {
            let _first = self.items.remove(0);
        }
    }

    /// Keeps the items that `f` accepts, in their order.
    pub fn retain<F: FnMut(&T) -> bool>(&mut self, f: F)
    where
        T: Drop,
        F: Drop,
        requires { F.IsAlwaysCallable f }
        ensures { IsFiltered (CalledAt F.FnMut) f self.old self.new }
    {
        self.items.retain(f);
    }

    pub fn clear(&mut self)
    where
        T: Drop,
        ensures { self.new ≡ [] }
    {
        self.items.clear();
    }

    /// Drops all items and gives back their room.
    pub fn free(&mut self)
    where
        T: Drop,
        ensures { self.new ≡ [] }
    {
        self.items = Vec::new(*self.items.allocator());
    }
}

impl<T: Copy> Listed<T> {
    pub fn try_clone(&self) -> Result<Self, Memory>
        ensures { IfOk result (λ copy. copy ≡ self.now) }
    {
        let items = Vec::from_slice(*self.items.allocator(), self.items.as_slice())?;
        Ok(Listed { items })
    }

    /// Adds items at the end.
    pub fn extend_from_slice(&mut self, items: &[T]) -> Result<(), Memory>
        ensures { OnOk result (self.new ≡ self.old ++ items.now) }
    {
        self.items.extend_from_slice(items)?;
        Ok(())
    }
}
