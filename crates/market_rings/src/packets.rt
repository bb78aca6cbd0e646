//! What is sent over rings.

ghost use Rattle.std.specs.Prelude.{◌≡◌, IfOk};

use market_events::Event;
use std::alloc::AllocError;

/// What is sent over a ring: on each link events go one way, and counts of events that were taken come back.
pub trait Packet: Drop {
    /// An equal packet.
    fn try_copy(&self) -> Result<Self, AllocError>
        ensures copy { IfOk result (λ copy. copy ≡ self.now) };
}

impl Packet for Event {
    fn try_copy(&self) -> Result<Event, AllocError> {
        self.try_copy()
    }
}

impl Packet for u32 {
    fn try_copy(&self) -> Result<u32, AllocError> {
        Ok(*self)
    }
}
