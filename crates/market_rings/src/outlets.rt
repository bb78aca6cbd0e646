//! The end of a ring that pushes.

ghost use Rattle.std.specs.Prelude.{◌≡◌, ◌+◌, ◌*◌, ◌<◌, ◌≤◌, [], ◌∷◌, ◌++◌, length, take, drop, OnOk};
ghost use Rattle.market_rings.specs.Pushes.{fates_left};
ghost use Rattle.market_rings.specs.RingEnds.{with_pushed, with_sent, most_pushed, IsMet, AreMet};

use crate::fates::{Fate, FateList};
use crate::packets::Packet;
use rtrb::Producer;
use std::alloc::{AllocError, Global};
use std::collections::VecDeque;
use std::marker::Model;

/// The end of a ring that pushes. Contracts see a `Pushing`: which ring it is, what was pushed, what is held,
/// and how many slots are known to be free.
#[derive(Drop)]
pub struct Outlet<T> {
    pub(crate) producer: Producer<T>,
    pub(crate) held: VecDeque<T>,
    pub(crate) free: usize,
}

impl<T> Model for Outlet<T> {
    ghost use Rattle.market_rings.specs.RingEnds.{Pushing};

    ghost Value = { Pushing T };

    ghost use Rattle.market_rings.specs.Views.{pushing_of, HasFree};

    ghost view = { pushing_of };

    ghost invariant = { HasFree };
}

impl<T: Packet> Outlet<T> {
    /// Sends packets in order, each with the next fate. One that meets Pass is pushed once, Twice twice, Lose
    /// and Hold not at all. After them the packets that were held before are pushed, and those that met Hold
    /// are held next.
    ///
    /// It requires that as many slots are known to be free as can be needed. After want of memory some of
    /// this was done.
    pub fn send(&mut self, packets: &[T], fates: &mut FateList) -> Result<(), AllocError>
        requires { most_pushed packets.now self.old.held ≤ self.old.free }
        ensures sent { OnOk result (self.new ≡ with_sent self.old packets.now fates.old) }
        ensures fates { OnOk result (fates.new ≡ fates_left packets.now fates.old) }
    {
        let held_before = self.held.len();
        self.push_by_fates(packets, fates)?;
        self.push_held(held_before);
        Ok(())
    }

    /// How many slots are known to be free.
    pub fn free(&self) -> usize
        ensures { result ≡ self.now.free }
    {
        self.free
    }

    /// How many packets are held.
    pub fn held(&self) -> usize
        ensures { result ≡ length self.now.held }
    {
        self.held.len()
    }

    // Each packet meets the next fate; those that are held before stay held.
    fn push_by_fates(&mut self, packets: &[T], fates: &mut FateList) -> Result<(), AllocError>
        requires { 2 * length packets.now ≤ self.old.free }
        ensures sent { OnOk result (AreMet self.old packets.now fates.old self.new) }
        ensures room { OnOk result (self.old.free ≤ self.new.free + 2 * length packets.now) }
        ensures fates { OnOk result (fates.new ≡ fates_left packets.now fates.old) }
    {
        for packet in packets {
            self.push_by_fate(packet, fates.next())?;
        }
        Ok(())
    }

    // The packet meets the fate.
    fn push_by_fate(&mut self, packet: &T, fate: Fate) -> Result<(), AllocError>
        requires { 2 ≤ self.old.free }
        ensures { OnOk result (IsMet self.old packet.now fate self.new) }
    {
        match fate {
            Fate::Pass => self.push(packet.try_copy()?),
            Fate::Twice => {
                let copy = packet.try_copy()?;
                self.push(copy);
                self.push(packet.try_copy()?);
            }
            Fate::Lose => {}
            Fate::Hold => self.held.push_back(packet.try_copy()?)?,
        }
        Ok(())
    }

    // Pushes a packet.
    fn push(&mut self, packet: T)
        requires { 0 < self.old.free }
        ensures { self.new ≡ with_pushed self.old (packet ∷ []) }
    {
        self.producer.push_reserved(packet);
        self.free -= 1;
    }

    // Pushes the oldest packets that are held.
    fn push_held(&mut self, count: usize)
        requires free { count ≤ self.old.free }
        requires held { count ≤ length self.old.held }
        ensures { self.new
            ≡ record (with_pushed self.old (take count self.old.held)) { held = drop count self.old.held } }
    {
        for _ in 0..count {
            if let Some(packet) = self.held.pop_front() {
                self.push(packet);
            }
        }
    }
}
