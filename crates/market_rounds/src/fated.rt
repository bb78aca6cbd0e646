//! Nodes with the fates of what they send.

ghost use Rattle.std.specs.Prelude.{◌≡◌, ◌<◌, ◌++◌, [], length, replicate, IfOk, OnOk};
ghost use Rattle.std.specs.Option.{option_copied};
ghost use Rattle.market_events.specs.declared.lanes.TheConstants.{LANES};
ghost use Rattle.market_events.specs.Links.{IsLink, node_of, lane_node, sender_of, receiver_of};
ghost use Rattle.market_events.specs.Offers.{taken_on};
ghost use Rattle.market_history.specs.Causality.{events_taken};
ghost use Rattle.market_history.specs.Once.{answer_by, reply_of, requests_given, with_id};
ghost use Rattle.market_links.specs.declared.slots.TheConstants.{SLOTS};
ghost use Rattle.market_node.specs.Notes.{event_with};
ghost use Rattle.market_node.specs.Offered.{FitsService};
ghost use Rattle.market_turns.specs.Queues.{CanTurnLane};
ghost use Rattle.market_turns.specs.Turns.{CanTurn};
ghost use Rattle.market_rounds.specs.Nodes.{HasTurnedWithQueue, idle_node, no_fates as no_fates_left};
ghost use Rattle.market_rounds.specs.Nodes.{with_ends, with_committed, with_requests, but_fates, with_fate};

use market_amounts::RequestId;
use market_events::{Event, Link, Reply, Request, Role, Service};
use market_history::Journal;
use market_links::SLOTS;
use market_node::{Core, LaneCore, NodeCore};
use market_rings::{Ends, Fate, FateList, Fates, Way};
use market_turns::{LaneNode, ServiceNode};
use std::alloc::{AllocError, Global};
use std::marker::Model;
use std::mem;

// A service's node with the fates of what it sends. Contracts see a `FatedNode` with an empty queue.
#[derive(Drop)]
pub struct FatedService<S: Service> {
    node: ServiceNode<S>,
    fates: Fates,
}

impl<S: Service> Model for FatedService<S> {
    ghost use Rattle.std.specs.Prelude.{[]};
    ghost use Rattle.market_rounds.specs.Nodes.{FatedNode};

    ghost Value = { FatedNode };

    ghost view = { λ a. record { node = a.node; queue = []; fates = a.fates } };
}

impl<S: Service> FatedService<S> {
    // A node with an empty journal, without ends. It requires the node's service, which took nothing yet.
    pub fn new(alloc: Global, role: Role, service: S) -> Result<FatedService<S>, AllocError>
    where
        S: Drop,
        requires role { role ≡ S.role }
        requires service { S.holds service [] }
        ensures { IfOk result (λ node. node ≡ idle_node (node_of role)) }
    {
        let core = NodeCore::new(alloc, role.node(), service)?;
        let ends = Ends::none(alloc)?;
        Ok(FatedService {
            node: ServiceNode::new(alloc, core, ends),
            fates: no_fates(alloc)?,
        })
    }

    // A turn, with the node's next fates. On want of memory the node is given up.
    pub fn turn(&mut self) -> Result<(), AllocError>
        requires { CanTurn (FitsService S.role) self.old.node }
        ensures { OnOk result (HasTurnedWithQueue self.old self.new) }
    {
        self.node.turn(&mut self.fates)
    }

    // Gives the node these ends, and takes those that it has.
    pub fn swap_ends(&mut self, ends: &mut Ends)
        ensures node { self.new ≡ with_ends self.old ends.old }
        ensures ends { ends.new ≡ self.old.node.ends }
    {
        mem::swap(self.node.ends(), ends);
    }

    // The journal.
    pub fn journal(&self) -> &Journal
        ensures node { result.now.node ≡ self.now.node.core.node }
        ensures entries { result.now.entries ≡ self.now.node.core.entries }
    {
        self.node.journal()
    }

    // The event of a link out of the node with this number, where one was made.
    pub fn event(&self, link: Link, number: u32) -> Option<&Event>
        requires link { IsLink link }
        requires from { sender_of link ≡ self.now.node.core.node }
        ensures { option_copied result ≡ event_with link number self.now.node.core.entries }
    {
        self.node.core().event(link, number)
    }

    // How many events were taken on a link into the node.
    pub fn taken(&self, link: Link) -> u32
        requires link { IsLink link }
        requires into { receiver_of link ≡ self.now.node.core.node }
        ensures { result ≡ taken_on (events_taken self.now.node.core.entries) link }
    {
        self.node.core().taken(link)
    }

    // Appends a fate to those of a slot. On want of memory the node is given up.
    pub fn add_fate(&mut self, way: Way, slot: usize, fate: Fate) -> Result<(), AllocError>
        requires { slot < SLOTS }
        ensures { OnOk result (self.new ≡ with_fate self.old way slot fate) }
    {
        self.fates.add(way, slot, fate)
    }

    // Drops the fates that are left. On want of memory the node is given up.
    pub fn drop_fates(&mut self, alloc: Global) -> Result<(), AllocError>
        ensures { OnOk result (self.new ≡ but_fates self.old) }
    {
        self.fates = no_fates(alloc)?;
        Ok(())
    }

    // Counts all entries as committed, and their events as released.
    pub fn release(&mut self)
        ensures { self.new ≡ with_committed self.old }
    {
        self.node.release();
    }
}

// A lane's node with the fates of what it sends. Contracts see a `FatedNode`.
#[derive(Drop)]
pub struct FatedLane {
    lane: LaneNode,
    fates: Fates,
}

impl Model for FatedLane {
    ghost use Rattle.market_rounds.specs.Nodes.{FatedNode};

    ghost Value = { FatedNode };

    ghost view = { λ a. record { node = a.lane.node; queue = a.lane.queue; fates = a.fates } };
}

impl FatedLane {
    // A lane, 0 to 15, with an empty journal and an empty queue, without ends.
    pub fn new(alloc: Global, lane: u8) -> Result<FatedLane, AllocError>
        requires { lane < LANES }
        ensures { IfOk result (λ node. node ≡ idle_node (lane_node lane)) }
    {
        let core = LaneCore::new(alloc, lane)?;
        let ends = Ends::none(alloc)?;
        Ok(FatedLane {
            lane: LaneNode::new(alloc, core, ends),
            fates: no_fates(alloc)?,
        })
    }

    // Appends requests to the queue. On want of memory the node is given up.
    pub fn queue(&mut self, requests: Vec<Request>) -> Result<(), AllocError>
        ensures { OnOk result (self.new ≡ with_requests self.old requests.items) }
    {
        self.lane.queue(requests)
    }

    // A turn, with the node's next fates. On want of memory the node is given up.
    pub fn turn(&mut self) -> Result<(), AllocError>
        requires { CanTurnLane (record { node = self.old.node; queue = self.old.queue }) }
        ensures { OnOk result (HasTurnedWithQueue self.old self.new) }
    {
        self.lane.turn(&mut self.fates)
    }

    // Gives the node these ends, and takes those that it has.
    pub fn swap_ends(&mut self, ends: &mut Ends)
        ensures node { self.new ≡ with_ends self.old ends.old }
        ensures ends { ends.new ≡ self.old.node.ends }
    {
        mem::swap(self.lane.ends(), ends);
    }

    // The journal.
    pub fn journal(&self) -> &Journal
        ensures node { result.now.node ≡ self.now.node.core.node }
        ensures entries { result.now.entries ≡ self.now.node.core.entries }
    {
        self.lane.journal()
    }

    // The event of a link out of the node with this number, where one was made.
    pub fn event(&self, link: Link, number: u32) -> Option<&Event>
        requires link { IsLink link }
        requires from { sender_of link ≡ self.now.node.core.node }
        ensures { option_copied result ≡ event_with link number self.now.node.core.entries }
    {
        self.lane.core().event(link, number)
    }

    // How many events were taken on a link into the node.
    pub fn taken(&self, link: Link) -> u32
        requires link { IsLink link }
        requires into { receiver_of link ≡ self.now.node.core.node }
        ensures { result ≡ taken_on (events_taken self.now.node.core.entries) link }
    {
        self.lane.core().taken(link)
    }

    // How many requests are in the queue.
    pub fn queued(&self) -> usize
        ensures { result ≡ length self.now.queue }
    {
        self.lane.queued()
    }

    // The lane's answer to a request: none where it is kept and has no reply yet.
    pub fn answer(&self, request: &Request) -> Result<Option<Reply>, AllocError>
        ensures { IfOk result (λ answer. answer
            ≡ answer_by (with_id request.now.id (requests_given self.now.node.core.entries))
            (reply_of self.now.node.core.entries request.now.id) request.now) }
    {
        self.lane.core().answer(request)
    }

    // The reply to the request with this id, where it is kept and was answered.
    pub fn kept(&self, id: RequestId) -> Option<&Reply>
        ensures { option_copied result ≡ reply_of self.now.node.core.entries id }
    {
        self.lane.kept(id)
    }

    // Appends a fate to those of a slot. On want of memory the node is given up.
    pub fn add_fate(&mut self, way: Way, slot: usize, fate: Fate) -> Result<(), AllocError>
        requires { slot < SLOTS }
        ensures { OnOk result (self.new ≡ with_fate self.old way slot fate) }
    {
        self.fates.add(way, slot, fate)
    }

    // Drops the fates that are left. On want of memory the node is given up.
    pub fn drop_fates(&mut self, alloc: Global) -> Result<(), AllocError>
        ensures { OnOk result (self.new ≡ but_fates self.old) }
    {
        self.fates = no_fates(alloc)?;
        Ok(())
    }

    // Counts all entries as committed, and their events as released.
    pub fn release(&mut self)
        ensures { self.new ≡ with_committed self.old }
    {
        self.lane.release();
    }
}

// No fates at any slot.
fn no_fates(alloc: Global) -> Result<Fates, AllocError>
    ensures { IfOk result (λ fates. fates ≡ no_fates_left) }
{
    Ok(Fates::new(empty_lists(alloc)?, empty_lists(alloc)?))
}

// An empty list of fates for each slot.
fn empty_lists(alloc: Global) -> Result<Vec<FateList>, AllocError>
    ensures { IfOk result (λ lists. lists.items ≡ replicate SLOTS []) }
{
    let mut lists = Vec::new(alloc);
    for _slot in 0..SLOTS {
        lists.push(FateList::new(Vec::new(alloc)))?;
    }
    Ok(lists)
}
