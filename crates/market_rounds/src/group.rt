//! A group: what takes its turns together, in one thread.

ghost use Rattle.std.specs.Prelude.{◌≡◌, ◌≢◌, ◌<◌, [], length, IfOk, OnOk};
ghost use Rattle.std.specs.Option.{option_copied};
ghost use Rattle.market_events.specs.Links.{IsLink, node_of, sender_of, receiver_of};
ghost use Rattle.market_events.specs.Offers.{taken_on};
ghost use Rattle.market_history.specs.Causality.{events_taken};
ghost use Rattle.market_history.specs.Once.{answer_by, reply_of, requests_given, with_id};
ghost use Rattle.market_links.specs.declared.slots.TheConstants.{SLOTS};
ghost use Rattle.market_node.specs.Notes.{event_with};
ghost use Rattle.market_rounds.specs.Groups.{CanTurnGroup, HasTurnedGroup, at_seat, with_seat, idle_group};
ghost use Rattle.market_rounds.specs.Nodes.{with_ends, with_committed, with_requests};
ghost use Rattle.market_rounds.specs.Nodes.{but_fates, with_fate};

use crate::fated::{FatedLane, FatedService};
use crate::gate::Gate;
use crate::seats::Seat;
use market_amounts::RequestId;
use market_events::{Event, Link, Reply, Request, Role, Service};
use market_history::Journal;
use market_rings::{Ends, Fate, Way};
use std::alloc::{AllocError, Global};
use std::marker::Model;

// A service's node and two lanes. Contracts see a `GroupState`.
#[derive(Drop)]
pub struct Group<S: Service> {
    role: Role,
    service: FatedService<S>,
    first: FatedLane,
    second: FatedLane,
}

impl<S: Service> Model for Group<S> {
    ghost use Rattle.market_rounds.specs.Groups.{GroupState};

    ghost Value = { GroupState };

    ghost view = { λ a. record { service = a.service; first = a.first; second = a.second } };
}

impl<S: Service> Group<S> {
    // The group of a service, whose nodes did nothing yet, without ends. It requires the service of the role,
    // which took nothing yet.
    pub fn new(alloc: Global, role: Role, service: S) -> Result<Group<S>, AllocError>
    where
        S: Drop,
        requires role { role ≡ S.role }
        requires service { S.holds service [] }
        ensures { IfOk result (λ group. group ≡ idle_group role) }
    {
        let lane = 2 * role.number();
        Ok(Group {
            role,
            service: FatedService::new(alloc, role, service)?,
            first: FatedLane::new(alloc, lane)?,
            second: FatedLane::new(alloc, lane + 1)?,
        })
    }

    // Passes the gate, and lets each node take a turn. On want of memory the group is given up.
    pub fn turn<G: Gate>(&mut self, gate: &G) -> Result<(), AllocError>
        requires { CanTurnGroup S.role self.old }
        ensures { OnOk result (HasTurnedGroup self.old self.new) }
    {
        gate.pass(self.role.number() as u32);
        self.service.turn()?;
        self.first.turn()?;
        self.second.turn()?;
        Ok(())
    }

    // Appends requests to the queue of the lane at a seat; the seat of the service has none. On want of
    // memory the group is given up.
    pub fn queue(&mut self, seat: Seat, requests: Vec<Request>) -> Result<(), AllocError>
        ensures { seat ≢ Seat.Service → OnOk result
            (self.new ≡ with_seat seat self.old (with_requests (at_seat seat self.old) requests.items)) }
    {
        match seat {
            Seat::Service => Ok(()),
            Seat::First => self.first.queue(requests),
            Seat::Second => self.second.queue(requests),
        }
    }

    // Appends a fate to those of a slot of the node at a seat. On want of memory the group is given up.
    pub fn add_fate(
        &mut self,
        seat: Seat,
        way: Way,
        slot: usize,
        fate: Fate,
    ) -> Result<(), AllocError>
        requires { slot < SLOTS }
        ensures { OnOk result
            (self.new ≡ with_seat seat self.old (with_fate (at_seat seat self.old) way slot fate)) }
    {
        match seat {
            Seat::Service => self.service.add_fate(way, slot, fate),
            Seat::First => self.first.add_fate(way, slot, fate),
            Seat::Second => self.second.add_fate(way, slot, fate),
        }
    }

    // Drops the fates that are left. On want of memory the group is given up.
    pub fn drop_fates(&mut self, alloc: Global) -> Result<(), AllocError>
        ensures service { OnOk result (self.new.service ≡ but_fates self.old.service) }
        ensures first { OnOk result (self.new.first ≡ but_fates self.old.first) }
        ensures second { OnOk result (self.new.second ≡ but_fates self.old.second) }
    {
        self.service.drop_fates(alloc)?;
        self.first.drop_fates(alloc)?;
        self.second.drop_fates(alloc)
    }

    // Gives the node at a seat these ends, and takes those that it has.
    pub fn swap_ends(&mut self, seat: Seat, ends: &mut Ends)
        ensures node { self.new ≡ with_seat seat self.old (with_ends (at_seat seat self.old) ends.old) }
        ensures ends { ends.new ≡ (at_seat seat self.old).node.ends }
    {
        match seat {
            Seat::Service => self.service.swap_ends(ends),
            Seat::First => self.first.swap_ends(ends),
            Seat::Second => self.second.swap_ends(ends),
        }
    }

    // The journal of the node at a seat.
    pub fn journal(&self, seat: Seat) -> &Journal
        ensures node { result.now.node ≡ (at_seat seat self.now).node.core.node }
        ensures entries { result.now.entries ≡ (at_seat seat self.now).node.core.entries }
    {
        match seat {
            Seat::Service => self.service.journal(),
            Seat::First => self.first.journal(),
            Seat::Second => self.second.journal(),
        }
    }

    // The event of a link out of the node at a seat with this number, where one was made.
    pub fn event(&self, seat: Seat, link: Link, number: u32) -> Option<&Event>
        requires link { IsLink link }
        requires from { sender_of link ≡ (at_seat seat self.now).node.core.node }
        ensures { option_copied result ≡ event_with link number (at_seat seat self.now).node.core.entries }
    {
        match seat {
            Seat::Service => self.service.event(link, number),
            Seat::First => self.first.event(link, number),
            Seat::Second => self.second.event(link, number),
        }
    }

    // How many events were taken on a link into the node at a seat.
    pub fn taken(&self, seat: Seat, link: Link) -> u32
        requires link { IsLink link }
        requires into { receiver_of link ≡ (at_seat seat self.now).node.core.node }
        ensures { result ≡ taken_on (events_taken (at_seat seat self.now).node.core.entries) link }
    {
        match seat {
            Seat::Service => self.service.taken(link),
            Seat::First => self.first.taken(link),
            Seat::Second => self.second.taken(link),
        }
    }

    // How many requests are in the queue of the lane at a seat; the seat of the service has none.
    pub fn queued(&self, seat: Seat) -> usize
        ensures { seat ≢ Seat.Service → result ≡ length (at_seat seat self.now).queue }
    {
        match seat {
            Seat::Service => 0,
            Seat::First => self.first.queued(),
            Seat::Second => self.second.queued(),
        }
    }

    // The answer to a request of the lane at a seat: none where it is kept and has no reply yet. The seat of
    // the service has none.
    pub fn answer(&self, seat: Seat, request: &Request) -> Result<Option<Reply>, AllocError>
        ensures { seat ≢ Seat.Service → IfOk result (λ answer. answer
            ≡ answer_by (with_id request.now.id (requests_given (at_seat seat self.now).node.core.entries))
            (reply_of (at_seat seat self.now).node.core.entries request.now.id) request.now) }
    {
        match seat {
            Seat::Service => Ok(None),
            Seat::First => self.first.answer(request),
            Seat::Second => self.second.answer(request),
        }
    }

    // The reply of the lane at a seat to the request with this id, where it is kept and was answered. The seat
    // of the service has none.
    pub fn kept(&self, seat: Seat, id: RequestId) -> Option<&Reply>
        ensures { seat ≢ Seat.Service
            → option_copied result ≡ reply_of (at_seat seat self.now).node.core.entries id }
    {
        match seat {
            Seat::Service => None,
            Seat::First => self.first.kept(id),
            Seat::Second => self.second.kept(id),
        }
    }

    // Counts all entries of the nodes as committed, and their events as released.
    pub fn release(&mut self)
        ensures service { self.new.service ≡ with_committed self.old.service }
        ensures first { self.new.first ≡ with_committed self.old.first }
        ensures second { self.new.second ≡ with_committed self.old.second }
    {
        self.service.release();
        self.first.release();
        self.second.release();
    }
}
