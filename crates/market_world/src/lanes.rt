//! The cores of the lanes.

ghost use Rattle.std.specs.Prelude.{◌≡◌, ◌<◌, [], IfOk, length, replicate, slice_index_or, slice_set};
ghost use Rattle.std.specs.Option.{option_copied};
ghost use Rattle.market_events.specs.Links.{IsLink, lane_node, sender_of, receiver_of};
ghost use Rattle.market_events.specs.Offers.{offer_of, taken_on};
ghost use Rattle.market_events.specs.declared.lanes.TheConstants.{LANES};
ghost use Rattle.market_history.specs.Causality.{events_taken};
ghost use Rattle.market_history.specs.Once.{give_of};
ghost use Rattle.market_node.specs.Notes.{event_with};
ghost use Rattle.market_world.specs.Arriving.{CanOffer, CanGive, after_offer_of, after_give_of};

use market_events::{Event, LANES, Link, Offer, Request};
use market_history::{Give, Journal};
use market_node::{Core, LaneCore};
use std::alloc::{AllocError, Global};
use std::marker::Model;

// The cores of the lanes. Contracts see the entries of each, from lane 0 on.
#[derive(Drop)]
pub struct Lanes {
    lanes: Vec<LaneCore>,
}

impl Model for Lanes {
    ghost use Rattle.std.specs.Prelude.{List};
    ghost use Rattle.market_events.specs.declared.events.Entry.{Entry};

    ghost Value = { List (List Entry) };

    ghost use Rattle.market_world.specs.LanesInside.{lane_entries, AreLanes};

    ghost view = { lane_entries };

    ghost invariant = { AreLanes };
}

impl Lanes {
    // The lanes, with nothing in their journals.
    pub fn new(alloc: Global) -> Result<Lanes, AllocError>
        ensures { IfOk result (λ lanes. lanes ≡ replicate LANES []) }
    {
        let mut lanes = Vec::new(alloc);
        for lane in 0..LANES as u8 {
            lanes.push(LaneCore::new(alloc, lane)?)?;
        }
        Ok(Lanes { lanes })
    }

    // The journal of a lane. It takes no memory.
    pub fn journal(&self, lane: usize) -> &Journal
        requires { lane < LANES }
        ensures node { result.now.node ≡ lane_node lane }
        ensures entries { result.now.entries ≡ slice_index_or self.now lane [] }
    {
        self.lanes[lane].journal()
    }

    // The event of a link out of a lane with this number, where one was made. It takes no memory.
    pub fn event(&self, lane: usize, link: Link, number: u32) -> Option<&Event>
        requires lane { lane < LANES }
        requires link { IsLink link }
        requires from { sender_of link ≡ lane_node lane }
        ensures { option_copied result ≡ event_with link number (slice_index_or self.now lane []) }
    {
        self.lanes[lane].event(link, number)
    }

    // How many events were taken on a link into a lane. It takes no memory.
    pub fn taken(&self, lane: usize, link: Link) -> u32
        requires lane { lane < LANES }
        requires link { IsLink link }
        requires into { receiver_of link ≡ lane_node lane }
        ensures { result ≡ taken_on (events_taken (slice_index_or self.now lane [])) link }
    {
        self.lanes[lane].taken(link)
    }

    // Offers an event to a lane.
    pub fn take(&mut self, lane: usize, event: &Event) -> Result<Offer, AllocError>
        requires lane { lane < LANES }
        requires can { CanOffer (lane_node lane) (slice_index_or self.old lane []) event.now }
        ensures offers { IfOk result (λ offer. offer
            ≡ offer_of (lane_node lane) (events_taken (slice_index_or self.old lane [])) event.now) }
        ensures after { self.new
            ≡ slice_set self.old lane
            (after_offer_of (lane_node lane) (slice_index_or self.old lane []) event.now result) }
    {
        take_at(&mut self.lanes[lane], event)
    }

    // Gives a lane a request.
    pub fn give(&mut self, lane: usize, request: &Request) -> Result<Give, AllocError>
        requires lane { lane < LANES }
        requires can { CanGive (lane_node lane) (slice_index_or self.old lane []) request.now }
        ensures gives { IfOk result (λ give. give ≡ give_of (slice_index_or self.old lane []) request.now) }
        ensures after { self.new
            ≡ slice_set self.old lane
            (after_give_of (lane_node lane) (slice_index_or self.old lane []) request.now result) }
    {
        give_at(&mut self.lanes[lane], request)
    }
}

// Offers an event to the core of a lane.
fn take_at(core: &mut LaneCore, event: &Event) -> Result<Offer, AllocError>
    requires { CanOffer core.old.node core.old.entries event.now }
    ensures offers { IfOk result (λ offer. offer
        ≡ offer_of core.old.node (events_taken core.old.entries) event.now) }
    ensures node { core.new.node ≡ core.old.node }
    ensures after { core.new.entries ≡ after_offer_of core.old.node core.old.entries event.now result }
{
    core.take(event)
}

// Gives the core of a lane a request.
fn give_at(core: &mut LaneCore, request: &Request) -> Result<Give, AllocError>
    requires { CanGive core.old.node core.old.entries request.now }
    ensures gives { IfOk result (λ give. give ≡ give_of core.old.entries request.now) }
    ensures node { core.new.node ≡ core.old.node }
    ensures after { core.new.entries ≡ after_give_of core.old.node core.old.entries request.now result }
{
    core.give(request)
}
