//! The senders of the links out of a node, by slot.

ghost use Rattle.std.specs.Prelude.{◌≡◌, ℕ, ◌<◌, ◌≤◌, max, length, map, replicate, slice_set, IfOk, OnOk};
ghost use Rattle.market_events.specs.declared.links.Link.{Link};
ghost use Rattle.market_events.specs.Links.{IsLink, sender_of};
ghost use Rattle.market_links.specs.SenderStates.{SenderState, next_number, with_event, with_ack};
ghost use Rattle.market_links.specs.SenderStates.{with_release};
ghost use Rattle.market_links.specs.SenderStates.{window_of, IsSenderState};
ghost use Rattle.market_links.specs.Slots.{slot_from};
ghost use Rattle.market_links.specs.declared.slots.TheConstants.{SLOTS};
ghost use Rattle.market_node.specs.Sending.{acknowledged_of, sender_at, new_sender, AreRoomier};

use market_events::{Event, Node, PRODUCT_TO_CART};
use market_links::{SLOTS, Sender, link_from};
use std::alloc::{AllocError, Global};
use std::marker::Model;

// The senders of the links out of a node. Contracts see their states by slot, of which there are `SLOTS`.
#[derive(Drop)]
pub struct Senders {
    senders: Vec<Sender>,
}

impl Model for Senders {
    ghost use Rattle.std.specs.Prelude.{List, ◌≡◌, length};
    ghost use Rattle.market_links.specs.SenderStates.{SenderState};
    ghost use Rattle.market_links.specs.declared.slots.TheConstants.{SLOTS};

    ghost Value = { List SenderState };

    ghost view = { λ a. a.senders.items };

    ghost invariant = { λ a. length a.senders.items ≡ SLOTS };
}

impl Senders {
    // The senders of a node, none of which has an event.
    pub fn new(alloc: Global, node: Node) -> Result<Senders, AllocError>
        ensures many { IfOk result (λ senders. length senders ≡ SLOTS) }
        ensures each { IfOk result (λ senders. (link : Link) → IsLink link → sender_of link ≡ node
            → sender_at senders (slot_from link) ≡ new_sender link) }
        ensures acknowledged { IfOk result (λ senders. acknowledged_of senders ≡ replicate SLOTS 0) }
    {
        let mut senders = Vec::new(alloc);
        for slot in 0..SLOTS {
            // At a slot of no link the sender stays empty, so any link does there.
            let link = link_from(node, slot).unwrap_or(PRODUCT_TO_CART);
            senders.push(Sender::new(alloc, link))?;
        }
        Ok(Senders { senders })
    }

    // Makes room for at least so many more events on each link.
    pub fn reserve(&mut self, more: u32) -> Result<(), AllocError>
        ensures roomier { AreRoomier self.old self.new }
        ensures room { OnOk result ((slot : ℕ) → slot < SLOTS → more ≤ (sender_at self.new slot).spare) }
    {
        reserve_each(&mut self.senders, more)
    }

    // Appends the next event of the link with this slot, for which there is room. It takes no memory.
    pub fn append(&mut self, slot: usize, event: Event)
        requires slot { slot < SLOTS }
        requires link { event.link ≡ (sender_at self.old slot).link }
        requires next { event.number ≡ next_number (sender_at self.old slot) }
        requires room { 0 < (sender_at self.old slot).spare }
        ensures { self.new ≡ slice_set self.old slot (with_event (sender_at self.old slot) event) }
    {
        let _ = self.senders[slot].append(event);
    }

    // Notes a count of taken events that came back on the link with this slot.
    pub fn ack(&mut self, slot: usize, count: u32)
        requires { slot < SLOTS }
        ensures { self.new ≡ slice_set self.old slot (with_ack (sender_at self.old slot) count) }
    {
        self.senders[slot].ack(count);
    }

    // Releases every event.
    pub fn release(&mut self)
        ensures { self.new ≡ map with_release self.old }
    {
        release_each(&mut self.senders);
    }

    // The released events of the link with this slot that are to be sent.
    pub fn window(&self, slot: usize) -> &[Event]
        requires { slot < SLOTS }
        ensures { result.now ≡ window_of (sender_at self.now slot) }
    {
        self.senders[slot].window()
    }
}

// Makes room for at least so many more events at each of the senders.
fn reserve_each(senders: &mut [Sender], more: u32) -> Result<(), AllocError>
    ensures roomier { AreRoomier senders.old senders.new }
    ensures room { OnOk result ((slot : ℕ) → slot < length senders.new
        → more ≤ (sender_at senders.new slot).spare) }
{
    for sender in senders.iter_mut() {
        sender.reserve_more(more)?;
    }
    Ok(())
}

// Releases every event of each of the senders.
fn release_each(senders: &mut [Sender])
    ensures { senders.new ≡ map with_release senders.old }
{
    for sender in senders.iter_mut() {
        sender.release();
    }
}
