//! How many events a node took, on each link into it.

ghost use Rattle.std.specs.Prelude.{◌≡◌, ℕ, ◌+◌, ◌<◌, length, replicate, slice_index, slice_set};
ghost use Rattle.market_events.specs.declared.links.TheConstants.{SERVICE_LINKS};
ghost use Rattle.market_events.specs.Links.{IsLink};
ghost use Rattle.market_events.specs.Offers.{offer_by};
ghost use Rattle.market_links.specs.Slots.{slot_into};
ghost use Rattle.market_links.specs.declared.slots.TheConstants.{SLOTS};
ghost use Rattle.market_node.specs.Notes.{raised_on};

use crate::counting::raise;
use market_events::{Counts, Event, Link, Node, Offer};
use market_links::{Receiver, SLOTS, slot_at_receiver};

// How many events were taken on each service link, and on each link into the node, by slot.
#[derive(Drop)]
pub struct Received {
    pub services: Counts,
    pub receivers: [Receiver; SLOTS],
}

impl Received {
    // None was taken.
    pub fn new() -> Received
        ensures services { (k : ℕ) → slice_index result.services k ≡ 0 }
        ensures len { length result.services ≡ SERVICE_LINKS }
        ensures receivers { result.receivers ≡ replicate SLOTS 0 }
    {
        Received {
            services: Counts::zero(),
            receivers: [Receiver::new(); SLOTS],
        }
    }

    // What becomes of an event that is offered to the node.
    pub fn offer(&self, event: &Event, node: Node) -> Offer
        requires { IsLink event.now.link }
        ensures { result
            ≡ offer_by (slice_index self.now.receivers (slot_into event.now.link)) node self.now.services
            event.now }
    {
        self.receivers[slot_at_receiver(event.link)].offer(event, node, &self.services)
    }

    // How many events were taken on a link into the node.
    pub fn taken(&self, link: Link) -> u32
        requires { IsLink link }
        ensures { result ≡ slice_index self.now.receivers (slot_into link) }
    {
        self.receivers[slot_at_receiver(link)].count()
    }

    // Counts an event as taken, which requires that fewer than 4,294,967,295 were on its link.
    pub fn advance(&mut self, event: &Event)
        requires link { IsLink event.now.link }
        requires few { slice_index self.old.receivers (slot_into event.now.link) < 4_294_967_295 }
        ensures services { self.new.services ≡ raised_on self.old.services event.now.link event.now.number }
        ensures receivers { self.new.receivers ≡ slice_set self.old.receivers (slot_into event.now.link)
            (slice_index self.old.receivers (slot_into event.now.link) + 1) }
    {
        self.receivers[slot_at_receiver(event.link)].advance();
        raise(&mut self.services, event.link, event.number);
    }
}
