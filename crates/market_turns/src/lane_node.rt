//! The node of a lane.

ghost use Rattle.std.specs.Prelude.{◌≡◌, [], ◌++◌, drop, length, OnOk};
ghost use Rattle.std.specs.Option.{option_copied};
ghost use Rattle.market_history.specs.Once.{reply_of};
ghost use Rattle.market_turns.specs.Queues.{CanTurnLane, HasTurnedLane};
ghost use Rattle.market_turns.specs.Turns.{with_node_committed};

use crate::asking::ask_next;
use crate::ring_node::RingNode;
use market_amounts::RequestId;
use market_events::{Entry, Reply, Request};
use market_history::Journal;
use market_node::LaneCore;
use market_rings::{Ends, Fates};
use std::alloc::{AllocError, Global};
use std::collections::VecDeque;
use std::marker::Model;

/// A lane's core with its ends of rings and its queue of given requests. Contracts see a `LaneState`.
#[derive(Drop)]
pub struct LaneNode {
    node: RingNode<LaneCore>,
    queue: VecDeque<Request>,
}

impl Model for LaneNode {
    ghost use Rattle.market_turns.specs.Queues.{LaneState};

    ghost Value = { LaneState };

    ghost view = { λ a. record { node = a.node; queue = a.queue.items } };
}

impl LaneNode {
    ghost use Rattle.std.specs.Borrow.{Lends, sem};
    ghost use Rattle.market_rings.specs.contracts.ends.Ends as ends;
    ghost use Rattle.market_turns.specs.contracts.lane_node.LaneNode as lane;

    /// A lane's core and its ends, with an empty queue.
    pub fn new(alloc: Global, core: LaneCore, ends: Ends) -> LaneNode
        ensures { result ≡ record { node = record { core = core; ends = ends }; queue = [] } }
    {
        LaneNode {
            node: RingNode::new(alloc, core, ends),
            queue: VecDeque::new(alloc),
        }
    }

    /// Appends requests to the queue. On want of memory the
    /// node is given up.
    pub fn queue(&mut self, requests: Vec<Request>) -> Result<(), AllocError>
        ensures { OnOk result (self.new ≡ record self.old { queue = self.old.queue ++ requests.items }) }
    {
        for request in requests.iter() {
            self.queue.push_back(*request)?;
        }
        Ok(())
    }

    /// How many requests are in the queue.
    pub fn queued(&self) -> usize
        ensures { result ≡ length self.now.queue }
    {
        self.queue.len()
    }

    /// The core.
    pub fn core(&self) -> &LaneCore
        ensures { result.now ≡ self.now.node.core }
    {
        self.node.core()
    }

    /// The journal. It takes no memory.
    pub fn journal(&self) -> &Journal
        ensures node { result.now.node ≡ self.now.node.core.node }
        ensures entries { result.now.entries ≡ self.now.node.core.entries }
    {
        self.node.journal()
    }

    /// The entries that are not committed. It takes no memory.
    pub fn uncommitted(&self) -> &[Entry]
        ensures { result.now ≡ drop self.now.node.core.committed self.now.node.core.entries }
    {
        self.node.uncommitted()
    }

    /// Counts all entries as committed, and their events as released. It takes no memory.
    pub fn release(&mut self)
        ensures { self.new ≡ record self.old { node = with_node_committed self.old.node } }
    {
        self.node.release();
    }

    /// The reply to the request with this id, where it is kept and was answered. It takes no memory.
    pub fn kept(&self, id: RequestId) -> Option<&Reply>
        ensures { option_copied result ≡ reply_of self.now.node.core.entries id }
    {
        self.node.core().kept(id)
    }

    /// The ends of its rings.
    pub fn ends(&mut self) -> &mut Ends
        ensures* written { sem 𝓛 (Lends lane.the_row ends.the_row self.entry result
            (λ w. record self.entry.now { node = record self.entry.now.node { ends = w } })) }
        ensures lent { result.now ≡ self.old.node.ends }
    {
        let node = &mut self.node;
        &mut node.ends
    }

    /// A turn: that of the links, and then the lane goes through its queue. It passes over requests that are
    /// kept, differ or find the lane full, stops after one that it asks, and stops before one that has to
    /// wait. It requires what a turn of a service's node requires, and well-formed requests of this lane in
    /// the queue. On want of memory the node is given up.
    pub fn turn(&mut self, fates: &mut Fates) -> Result<(), AllocError>
        requires { CanTurnLane self.old }
        ensures { OnOk result (HasTurnedLane self.old self.new fates.old fates.new) }
    {
        self.node.turn(fates)?;
        ask_next(&mut self.node.core, &mut self.queue)?;
        Ok(())
    }
}
