//! The ends of the rings at a node, and how those of two nodes are brought together.

ghost use Rattle.std.specs.Prelude.{◌≡◌, ◌<◌, ◌≤◌, [], ◌∷◌, None, Some, length, replicate, IsSome, IfOk};
ghost use Rattle.std.specs.Prelude.{OnOk};
ghost use Rattle.market_events.specs.Links.{IsLink};
ghost use Rattle.market_links.specs.Slots.{slot_into, slot_from};
ghost use Rattle.market_links.specs.declared.slots.TheConstants.{SLOTS};
ghost use Rattle.market_rings.specs.NodeEnds.{no_ends, out_at, in_at, with_in, AreJoined, HaveMet};
ghost use Rattle.market_rings.specs.NodeEnds.{CanSendEvents, CanSendCounts, HaveSentEvents, HaveSentCounts};
ghost use Rattle.market_rings.specs.NodeEnds.{events_waiting, counts_waiting, with_events_taken};
ghost use Rattle.market_rings.specs.NodeEnds.{with_counts_taken, with_link_out};
ghost use Rattle.market_rings.specs.Fates.{fates_at, with_fates};
ghost use Rattle.market_rings.specs.Pushes.{fates_left};
ghost use Rattle.market_rings.specs.RingEnds.{most_pushed, with_sent};
ghost use Rattle.market_rings.specs.declared.fates.Way.TheVariants.{Carry, Ack};

use crate::fates::Fates;
use crate::link_ends::{LinkIn, LinkOut, meet_link};
use market_events::{Event, Link};
use market_links::{SLOTS, slot_at_receiver, slot_at_sender};
use std::alloc::{AllocError, Global};
use std::marker::Model;

/// The ends of the rings at a node: for each link out of it and each link into it those of its two rings.
/// Contracts see a `NodeEnds`, with the ends by slot.
#[derive(Drop)]
pub struct Ends {
    outs: Vec<Option<LinkOut>>,
    ins: Vec<Option<LinkIn>>,
}

impl Model for Ends {
    ghost use Rattle.std.specs.Prelude.{◌≡◌, length};
    ghost use Rattle.market_links.specs.declared.slots.TheConstants.{SLOTS};
    ghost use Rattle.market_rings.specs.NodeEnds.{NodeEnds};

    ghost Value = { NodeEnds };

    ghost view = { λ a. record { outs = a.outs.items; ins = a.ins.items } };

    ghost invariant = { λ a. (length a.outs.items ≡ SLOTS) × (length a.ins.items ≡ SLOTS) };
}

impl Ends {
    /// No ends at any slot.
    pub fn none(alloc: Global) -> Result<Ends, AllocError>
        ensures { IfOk result (λ ends. ends ≡ no_ends) }
    {
        let mut outs = Vec::new(alloc);
        for _slot in 0..SLOTS {
            outs.push(None)?;
        }
        let mut ins = Vec::new(alloc);
        for _slot in 0..SLOTS {
            ins.push(None)?;
        }
        Ok(Ends { outs, ins })
    }

    // Puts the ends of a link out of the node into its slot.
    pub(crate) fn put_out(&mut self, slot: usize, out: LinkOut)
        requires { slot < SLOTS }
        ensures { self.new ≡ with_link_out self.old slot out }
    {
        self.outs[slot] = Some(out);
    }

    // Puts the ends of a link into the node into its slot.
    pub(crate) fn put_in(&mut self, slot: usize, into: LinkIn)
        requires { slot < SLOTS }
        ensures { self.new ≡ with_in self.old slot into }
    {
        self.ins[slot] = Some(into);
    }
}

impl Ends {
    /// How many slots there are for links out of the node, and for links into it.
    pub fn slots(&self) -> usize
        ensures outs { length self.now.outs ≡ result }
        ensures ins { length self.now.ins ≡ result }
        ensures full { result ≡ SLOTS }
    {
        self.outs.len()
    }

    /// Sends events on a link out of the node, each with the next fate of the link. It requires the link's
    /// ends, with as many slots known to be free as can be needed. After want of memory some of this was
    /// done.
    pub fn send_events(
        &mut self,
        link: Link,
        events: &[Event],
        fates: &mut Fates,
    ) -> Result<(), AllocError>
        requires link { IsLink link }
        requires can { CanSendEvents self.old link events.now }
        ensures sent { OnOk result
            (HaveSentEvents self.old self.new link events.now (fates_at fates.old Carry (slot_from link))) }
        ensures fates { OnOk result (fates.new
            ≡ with_fates fates.old Carry (slot_from link)
            (fates_left events.now (fates_at fates.old Carry (slot_from link)))) }
    {
        let slot = slot_at_sender(link);
        let Some(out) = &mut self.outs[slot] else {
            return Ok(());
        };
        send_out(out, events, fates, slot)?;
        Ok(())
    }

    /// Sends counts of taken events back on a link into the node, each with the next fate of the link. It
    /// requires the link's ends, with as many slots known to be free as can be needed. After want of memory
    /// some of this was done.
    pub fn send_counts(
        &mut self,
        link: Link,
        counts: &[u32],
        fates: &mut Fates,
    ) -> Result<(), AllocError>
        requires link { IsLink link }
        requires can { CanSendCounts self.old link counts.now }
        ensures sent { OnOk result
            (HaveSentCounts self.old self.new link counts.now (fates_at fates.old Ack (slot_into link))) }
        ensures fates { OnOk result (fates.new
            ≡ with_fates fates.old Ack (slot_into link)
            (fates_left counts.now (fates_at fates.old Ack (slot_into link)))) }
    {
        let slot = slot_at_receiver(link);
        let Some(into) = &mut self.ins[slot] else {
            return Ok(());
        };
        send_back(into, counts, fates, slot)?;
        Ok(())
    }

    /// Takes all events that wait at the slot of a link into the node, oldest first: none where no link has
    /// the slot. After want of memory some of them are lost.
    pub fn take_events(&mut self, slot: usize, alloc: Global) -> Result<Vec<Event>, AllocError>
        requires { slot < SLOTS }
        ensures events { IfOk result (λ events. events.items ≡ events_waiting (in_at self.old slot)) }
        ensures taken { OnOk result (self.new ≡ with_events_taken self.old slot) }
    {
        match &mut self.ins[slot] {
            Some(into) => into.events.take_waiting(alloc),
            None => Ok(Vec::new(alloc)),
        }
    }

    /// Takes all counts that wait at the slot of a link out of the node, oldest first: none where no link has
    /// the slot. After want of memory some of them are lost.
    pub fn take_counts(&mut self, slot: usize, alloc: Global) -> Result<Vec<u32>, AllocError>
        requires { slot < SLOTS }
        ensures counts { IfOk result (λ counts. counts.items ≡ counts_waiting (out_at self.old slot)) }
        ensures taken { OnOk result (self.new ≡ with_counts_taken self.old slot) }
    {
        match &mut self.outs[slot] {
            Some(out) => out.counts.take_waiting(alloc),
            None => Ok(Vec::new(alloc)),
        }
    }
}

// Sends events out, with the fates of the slot.
fn send_out(
    out: &mut LinkOut,
    events: &[Event],
    fates: &mut Fates,
    slot: usize,
) -> Result<(), AllocError>
    requires slot { slot < SLOTS }
    requires room { most_pushed events.now out.old.events.held ≤ out.old.events.free }
    ensures sent { OnOk result (out.new
        ≡ record out.old { events = with_sent out.old.events events.now (fates_at fates.old Carry slot) }) }
    ensures fates { OnOk result (fates.new
        ≡ with_fates fates.old Carry slot (fates_left events.now (fates_at fates.old Carry slot))) }
{
    out.events.send(events, &mut fates.carry[slot])
}

// Sends counts back, with the fates of the slot.
fn send_back(
    into: &mut LinkIn,
    counts: &[u32],
    fates: &mut Fates,
    slot: usize,
) -> Result<(), AllocError>
    requires slot { slot < SLOTS }
    requires room { most_pushed counts.now into.old.counts.held ≤ into.old.counts.free }
    ensures sent { OnOk result (into.new
        ≡ record into.old { counts = with_sent into.old.counts counts.now (fates_at fates.old Ack slot) }) }
    ensures fates { OnOk result (fates.new
        ≡ with_fates fates.old Ack slot (fates_left counts.now (fates_at fates.old Ack slot))) }
{
    into.counts.send(counts, &mut fates.ack[slot])
}

/// Brings the ends of both rings of a link together. It requires the ends of the link's sender and of its
/// receiver, which are of the same two rings. Afterwards it is known what waits on each ring, and all else of
/// its slots is known to be free. It takes no memory.
pub fn meet(from: &mut Ends, to: &mut Ends, link: Link)
    requires link { IsLink link }
    requires joined { AreJoined from.old to.old link }
    ensures met { HaveMet from.old to.old from.new to.new link }
{
    let Some(out) = &mut from.outs[slot_at_sender(link)] else {
        return;
    };
    let Some(into) = &mut to.ins[slot_at_receiver(link)] else {
        return;
    };
    meet_link(out, into);
}
