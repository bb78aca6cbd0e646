//! The nodes of the marketplace and their rounds.

ghost use Rattle.std.specs.Prelude.{◌≡◌, ℕ, ◌<◌, ◌↔◌, [], ◌++◌, map, take, length, slice_set};
ghost use Rattle.std.specs.Prelude.{IfOk, IsTrue, OnOk};
ghost use Rattle.std.specs.List.{AllByRecursion};
ghost use Rattle.std.specs.Option.{option_copied};
ghost use Rattle.market_events.specs.declared.lanes.TheConstants.{LANES};
ghost use Rattle.market_events.specs.declared.links.Link.{Link};
ghost use Rattle.market_events.specs.declared.nodes.TheConstants.{NODES};
ghost use Rattle.market_events.specs.Links.{IsLink, lane_node, sender_of, receiver_of};
ghost use Rattle.market_events.specs.WellFormed.{IsRequest};
ghost use Rattle.market_history.specs.Histories.{journal_at, no_histories};
ghost use Rattle.market_history.specs.Once.{answer_for, kept_by, most_kept, once_after, reply_at};
ghost use Rattle.market_history.specs.Schedule.{play};
ghost use Rattle.market_rings.specs.NodeEnds.{AreJoined};
ghost use Rattle.market_rounds.specs.Nodes.{AreReady, AreDone, HasTurnedWithQueue, at_node, node_by};
ghost use Rattle.market_rounds.specs.Nodes.{queue_by, fates_by, no_fates, histories_by, round_steps};
ghost use Rattle.market_rounds.specs.Nodes.{with_committed, with_requests, but_fates};
ghost use Rattle.market_turns.specs.Queues.{IsOwnRequest};
ghost use Rattle.market_rounds.specs.OneRound.{HaveAllMet, IsOneRound};
ghost use Rattle.market_rounds.specs.Plans.{HavePlan};
ghost use Rattle.market_rounds.specs.Settling.{AreGiven, HaveGoneOn, requests_of};
ghost use Rattle.market_world.specs.Waiting.{first_of};

use crate::gate::Gate;
use crate::groups::Groups;
use crate::meeting::meet_all;
use crate::plan::{Plan, sending_end};
use market_amounts::RequestId;
use market_events::{Event, LANES, LINKS, Link, Node, Reply, Request, lane_of, link_at};
use market_history::Journal;
use market_rings::{Ends, wire};
use std::alloc::{AllocError, Global};
use std::marker::Model;
use std::thread::Threads;

/// The nodes of the marketplace, the services and the lanes, each with its ends of rings, what is in its
/// queue and the fates of what it sends. Contracts see the list of them, by number, each a `FatedNode`.
#[derive(Drop)]
pub struct Nodes {
    groups: Groups,
    // Where the ends of all nodes are put while they are brought together.
    others: Vec<Ends>,
}

impl Model for Nodes {
    ghost use Rattle.std.specs.Prelude.{◌≡◌, List, length};
    ghost use Rattle.market_events.specs.declared.nodes.TheConstants.{NODES};
    ghost use Rattle.market_rounds.specs.Nodes.{FatedNode};

    ghost Value = { List FatedNode };

    ghost view = { λ a. a.groups };

    ghost invariant = { λ a. length a.others.items ≡ NODES };
}

impl Nodes {
    /// The nodes with nothing in their journals and queues, joined by new rings, on which each packet passes.
    pub fn new(alloc: Global) -> Result<Nodes, AllocError>
        ensures ready { IfOk result AreReady }
        ensures histories { IfOk result (λ nodes. histories_by nodes ≡ no_histories) }
        ensures queues { IfOk result (λ nodes. (n : ℕ) → n < NODES → queue_by nodes n ≡ []) }
        ensures fates { IfOk result (λ nodes. (n : ℕ) → n < NODES → fates_by nodes n ≡ no_fates) }
    {
        let mut others = wire(alloc)?;
        let mut groups = Groups::new(alloc)?;
        groups.swap_all_ends(&mut others);
        Ok(Nodes { groups, others })
    }

    /// The journal of a node. It takes no memory.
    pub fn journal(&self, node: Node) -> &Journal
        ensures node { result.now.node ≡ (node_by self.now node).core.node }
        ensures entries { result.now.entries ≡ (node_by self.now node).core.entries }
    {
        self.groups.journal(node)
    }

    /// Appends requests to the queue of a lane, 0 to 15. Nodes that are ready for a round stay so where these
    /// are well-formed requests of the lane. On want of memory the nodes are given up.
    pub fn queue(&mut self, lane: u8, requests: Vec<Request>) -> Result<(), AllocError>
        requires { lane < LANES }
        ensures queued { OnOk result (self.new ≡ slice_set self.old (lane_node lane)
            (with_requests (at_node self.old (lane_node lane)) requests.items)) }
        ensures ready { AreReady self.old → AllByRecursion (IsOwnRequest (lane_node lane)) requests.items
            → OnOk result (AreReady self.new) }
    {
        self.groups.queue(lane, requests)
    }

    /// Drops the fates that are left and takes those of a plan. Nodes that are ready for a round stay so. On
    /// want of memory the nodes are given up.
    pub fn plan(&mut self, alloc: Global, plan: &Plan) -> Result<(), AllocError>
        requires { length self.old ≡ NODES }
        ensures plan { OnOk result (HavePlan plan.now self.new) }
        ensures only { OnOk result (map but_fates self.new ≡ map but_fates self.old) }
        ensures ready { AreReady self.old → OnOk result (AreReady self.new) }
    {
        self.groups.drop_fates(alloc)?;
        for planned in plan.fates() {
            let (node, slot) = sending_end(planned.link, planned.way);
            self.groups.add_fate(node, planned.way, slot, planned.fate)?;
        }
        Ok(())
    }

    /// Appends to the queue of each lane its own of these requests, in their order. On want of memory the
    /// nodes are given up.
    pub fn give(&mut self, alloc: Global, given: &[Request]) -> Result<(), AllocError>
        requires ready { AreReady self.old }
        requires formed { AllByRecursion IsRequest given.now }
        ensures ready { OnOk result (AreReady self.new) }
        ensures given { OnOk result (AreGiven given.now self.old self.new) }
    {
        for lane in 0..LANES as u8 {
            let own = requests_of(alloc, lane, given)?;
            self.queue(lane, own)?;
        }
        Ok(())
    }

    /// A round: each node takes a turn, the ends of each link are brought together, and all entries are
    /// committed. It leaves what the schedule leaves with the steps of node 0, then those of node 1, and so
    /// on. On want of memory the nodes are given up.
    pub fn round<R: Threads + Sync, G: Gate + Sync>(
        &mut self,
        rt: &R,
        gate: &G,
    ) -> Result<(), AllocError>
        requires { AreReady self.old }
        ensures ready { OnOk result (AreReady self.new) }
        ensures played { OnOk result
            (histories_by self.new ≡ play (histories_by self.old) (round_steps self.old)) }
        ensures round { OnOk result (IsOneRound self.old self.new) }
    {
        self.turn(rt, gate)?;
        self.meet();
        self.release();
        Ok(())
    }

    /// Whether all requests that were queued are asked or passed over, and all events that were made are
    /// taken. It takes no memory.
    pub fn are_done(&self) -> bool
        requires { AreReady self.now }
        ensures { IsTrue result ↔ AreDone self.now }
    {
        for index in 0..LINKS {
            if self.waiting(link_at(index)).is_some() {
                return false;
            }
        }
        for lane in 0..LANES as u8 {
            if self.groups.queued(lane) > 0 {
                return false;
            }
        }
        true
    }

    /// Rounds until all requests that were queued are asked or passed over, and all events that were made are
    /// taken. On want of memory the nodes are given up.
    pub fn settle<R: Threads + Sync, G: Gate + Sync>(
        &mut self,
        rt: &R,
        gate: &G,
    ) -> Result<(), AllocError>
        requires { AreReady self.old }
        ensures ready { OnOk result (AreReady self.new) }
        ensures done { OnOk result (AreDone self.new) }
        ensures went_on { OnOk result (HaveGoneOn self.old self.new) }
        ensures kept { OnOk result ((lane : ℕ) → lane < LANES → kept_by (histories_by self.new) lane
            ≡ take most_kept (once_after []
            (kept_by (histories_by self.old) lane ++ queue_by self.old (lane_node lane)))) }
    {
        while !self.are_done() {
            self.round(rt, gate)?;
        }
        Ok(())
    }

    /// The answer to a request: none where it is kept and has no reply yet.
    pub fn answer(&self, request: &Request) -> Result<Option<Reply>, AllocError>
        ensures { IfOk result (λ answer. answer ≡ answer_for (histories_by self.now) request.now) }
    {
        self.groups.answer(request)
    }

    /// The reply to the request with this id, where it is kept and was answered. It takes no memory.
    pub fn kept(&self, id: RequestId) -> Option<&Reply>
        ensures { option_copied result ≡ reply_at (histories_by self.now) id }
    {
        self.groups.kept(id)
    }

    // The first event of a link that was made and not taken.
    fn waiting(&self, link: Link) -> Option<&Event>
        requires ready { AreReady self.now }
        requires link { IsLink link }
        ensures { option_copied result ≡ first_of (histories_by self.now) link }
    {
        let taken = self.groups.taken(link);
        self.groups.event(link, taken + 1)
    }

    // A turn of each node.
    fn turn<R: Threads + Sync, G: Gate + Sync>(
        &mut self,
        rt: &R,
        gate: &G,
    ) -> Result<(), AllocError>
        requires { AreReady self.old }
        ensures turned { OnOk result ((n : ℕ) → n < NODES
            → HasTurnedWithQueue (at_node self.old n) (at_node self.new n)) }
        ensures many { length self.new ≡ NODES }
    {
        self.groups.turn(rt, gate)
    }

    // Brings the ends of each link together.
    fn meet(&mut self)
        requires many { length self.old ≡ NODES }
        requires joined { (link : Link) → IsLink link → AreJoined (node_by self.old (sender_of link)).ends
            (node_by self.old (receiver_of link)).ends link }
        ensures { HaveAllMet self.old self.new }
    {
        let all: &mut [Ends] = &mut self.others;
        self.groups.swap_all_ends(all);
        meet_all(all);
        self.groups.swap_all_ends(all);
    }

    // Counts all entries of all nodes as committed, and their events as released.
    fn release(&mut self)
        ensures { self.new ≡ map with_committed self.old }
    {
        self.groups.release();
    }
}

// The requests of a lane, in their order.
fn requests_of(alloc: Global, lane: u8, given: &[Request]) -> Result<Vec<Request>, AllocError>
    ensures { IfOk result (λ requests. requests.items ≡ requests_of lane given.now) }
{
    let mut requests = Vec::new(alloc);
    for request in given {
        if lane_of(request.id) == lane {
            requests.push(*request)?;
        }
    }
    Ok(requests)
}
