//! Boxes that contracts see as their values.
ghost use Rattle.std.specs.Prelude.{◌≡◌, IfOk};

use crate::error::Memory;
use std::alloc::Global;
use std::marker::Model;

/// A value in memory of its own. Contracts see the value. A field that mostly has none takes less
/// as `Option<Boxed<T>>` than as `Option<T>`.
#[derive(Drop)]
pub struct Boxed<T> {
    held: Box<T>,
}

impl<T> Model for Boxed<T> {
    ghost Value = { T };

    ghost view = { λ b. b.held.value };
}

impl<T> Boxed<T> {
    pub fn new(alloc: Global, value: T) -> Result<Boxed<T>, Memory>
    where
        T: Drop,
        ensures { IfOk result (λ boxed. boxed ≡ value) }
    {
        let held = Box::new(alloc, value)?;
        Ok(Boxed { held })
    }

    pub fn as_ref(&self) -> &T
        ensures { result.now ≡ self.now }
    {
        self.held.as_ref()
    }

    pub fn into_inner(self) -> T
        ensures { result ≡ self }
    {
        let Boxed { held } = self;
        Box::into_inner(held)
    }
}
