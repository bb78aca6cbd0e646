//! The end of a ring that pops.

ghost use Rattle.std.specs.Prelude.{◌≡◌, ◌+◌, ◌∷◌, [], ◌++◌, length, IfSome, IsNone, IfOk, OnOk, ◌↔◌};
ghost use Rattle.market_rings.specs.RingEnds.{with_all_popped};

use rtrb::Consumer;
use std::alloc::{AllocError, Global};
use std::marker::Model;

/// The end of a ring that pops. Contracts see a `Popping`: which ring it is, what was popped, and what waits.
#[derive(Drop)]
pub struct Inlet<T> {
    pub(crate) consumer: Consumer<T>,
}

impl<T> Model for Inlet<T> {
    ghost use Rattle.market_rings.specs.RingEnds.{Popping};

    ghost Value = { Popping T };

    ghost use Rattle.market_rings.specs.Views.{popping_of};

    ghost view = { popping_of };
}

impl<T: Drop> Inlet<T> {
    /// Takes the oldest packet that waits. It looks at nothing but what the last meeting told.
    pub fn pop(&mut self) -> Option<T>
        ensures waiting { IfSome result (λ x. self.old.waiting ≡ x ∷ self.new.waiting) }
        ensures popped { IfSome result (λ x. self.new.popped ≡ self.old.popped ++ x ∷ []) }
        ensures none { IsNone result ↔ (self.old.waiting ≡ []) }
        ensures ring { self.new.ring ≡ self.old.ring }
    {
        if self.consumer.cached_slots() == 0 {
            return None;
        }
        Some(self.consumer.pop_known())
    }

    /// How many packets wait.
    pub fn waiting(&self) -> usize
        ensures { result ≡ length self.now.waiting }
    {
        self.consumer.cached_slots()
    }

    /// Takes all packets that wait, oldest first. After want of memory some of them are lost.
    pub fn take_waiting(&mut self, alloc: Global) -> Result<Vec<T>, AllocError>
        ensures packets { IfOk result (λ packets. packets.items ≡ self.old.waiting) }
        ensures popped { OnOk result (self.new ≡ with_all_popped self.old) }
    {
        let mut packets = Vec::with_capacity(alloc, self.waiting())?;
        for _ in 0..self.waiting() {
            if let Some(packet) = self.pop() {
                packets.push(packet)?;
            }
        }
        Ok(packets)
    }
}
