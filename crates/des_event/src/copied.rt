//! What can be copied, if memory allows it.
ghost use Rattle.std.specs.Prelude.{◌≡◌, IfOk};

use crate::error::Memory;

/// A type whose values can be copied.
pub trait Copied {
    ghost use Rattle.std.specs.Prelude.{◌≡◌, IfOk};

    /// An equal value.
    fn try_copy(&self) -> Result<Self, Memory>
        ensures { IfOk result (λ copy. copy ≡ self.now) };
}
