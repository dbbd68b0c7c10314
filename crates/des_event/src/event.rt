//! Events of the simulation.
ghost use Rattle.std.specs.Prelude.{◌≡◌, IfOk};

use crate::copied::Copied;
use crate::error::Memory;
use crate::key::Key;

/// An event, and the number of the node at which it happens. Its body is of any type: what an event
/// asks of its node is a matter of the machine.
#[derive(Drop)]
pub struct Event<B> {
    pub key: Key,
    pub target: u32,
    pub body: B,
}

impl<B: Copied> Event<B> {
    /// A copy of the event.
    pub fn try_clone(&self) -> Result<Event<B>, Memory>
        ensures { IfOk result (λ copy. copy ≡ self.now) }
    {
        Ok(Event {
            key: self.key,
            target: self.target,
            body: self.body.try_copy()?,
        })
    }
}
