//! The marketplace: nodes that settle what they are given, and answer it.

ghost use Rattle.std.specs.Prelude.{◌≡◌, ◌<◌, true, false, is_some, IfOk, OnErr, OnOk};
ghost use Rattle.std.specs.List.{AllByRecursion};
ghost use Rattle.std.specs.Option.{option_copied};
ghost use Rattle.market_events.specs.declared.nodes.TheConstants.{NODES};
ghost use Rattle.market_events.specs.declared.requests.Request.{Request};
ghost use Rattle.market_events.specs.WellFormed.{IsRequest};
ghost use Rattle.market_history.specs.Histories.{journal_at, no_histories};
ghost use Rattle.market_history.specs.Lawful.{IsLawful};
ghost use Rattle.market_history.specs.Once.{answer_for, reply_at};
ghost use Rattle.market_rounds.specs.Markets.{AreAnswers, HaveSettled};
ghost use Rattle.market_rounds.specs.Nodes.{histories_by};

use crate::gate::{Gate, OpenGate};
use crate::nodes::Nodes;
use crate::plan::Plan;
use market_amounts::RequestId;
use market_events::{NODES, Node, Reply, Request};
use market_history::{Histories, Journal};
use market_world::copy_of;
use std::alloc::{AllocError, Global};
use std::marker::Model;
use std::thread::Threads;

/// The marketplace: eight services and sixteen lanes, joined by rings. Contracts see its `MarketState`: the
/// histories, and whether it can be used. While it can, its histories are lawful and no event is outstanding.
#[derive(Drop)]
pub struct Marketplace {
    alloc: Global,
    nodes: Nodes,
    usable: bool,
}

impl Model for Marketplace {
    ghost use Rattle.std.specs.Prelude.{◌≡◌, true};
    ghost use Rattle.market_rounds.specs.Markets.{MarketState};
    ghost use Rattle.market_rounds.specs.Nodes.{AreDone, AreReady, histories_by};

    ghost Value = { MarketState };

    ghost view = { λ a. record { histories = histories_by a.nodes; usable = a.usable } };

    ghost invariant = { λ a. a.usable ≡ true → AreReady a.nodes × AreDone a.nodes };
}

impl Marketplace {
    /// The marketplace in which nothing happened.
    pub fn start(alloc: Global) -> Result<Marketplace, AllocError>
        ensures usable { IfOk result (λ market. market.usable ≡ true) }
        ensures histories { IfOk result (λ market. market.histories ≡ no_histories) }
    {
        let nodes = Nodes::new(alloc)?;
        Ok(Marketplace {
            alloc,
            nodes,
            usable: true,
        })
    }

    /// Whether it can be used: no memory was wanting. It takes no memory.
    pub fn usable(&self) -> bool
        ensures { result ≡ self.now.usable }
    {
        self.usable
    }

    /// The reply to the request with this id, where it is kept and was answered. It takes no memory.
    pub fn kept(&self, id: RequestId) -> Option<&Reply>
        ensures { option_copied result ≡ reply_at self.now.histories id }
    {
        self.nodes.kept(id)
    }

    /// The journal of a node, 0 to 23. It takes no memory.
    pub fn journal(&self, node: Node) -> &Journal
        requires { self.now.usable ≡ true }
        ensures node { result.now.node ≡ node }
        ensures entries { result.now.entries ≡ journal_at self.now.histories node }
    {
        self.nodes.journal(node)
    }

    /// The histories: the journals of all nodes, from node 0 on. They are lawful.
    pub fn histories(&self) -> Result<Histories, AllocError>
        requires { self.now.usable ≡ true }
        ensures value { IfOk result (λ histories. histories ≡ self.now.histories) }
        ensures lawful { IsLawful self.now.histories }
    {
        let mut journals = Vec::new(self.alloc);
        for number in 0..NODES {
            let node = node_with(number);
            journals.push(copy_of(self.alloc, self.nodes.journal(node))?)?;
        }
        Ok(Histories::new(journals))
    }

    /// Gives each of these requests to its lane, in their order, and runs rounds until all is settled; the
    /// packets of these rounds meet the fates of the plan. There is one answer for each request. It requires
    /// well-formed requests and a marketplace that can be used. After want of memory it can't be used any
    /// more.
    pub fn settle<R: Threads + Sync>(
        &mut self,
        rt: &R,
        given: &[Request],
        plan: &Plan,
    ) -> Result<Vec<Reply>, AllocError>
        requires usable { self.old.usable ≡ true }
        requires formed { AllByRecursion IsRequest given.now }
        ensures usable { OnOk result (self.new.usable ≡ true) }
        ensures settled { OnOk result (HaveSettled self.old.histories self.new.histories given.now) }
        ensures answers { IfOk result (λ replies. AreAnswers self.new.histories given.now replies.items) }
        ensures given_up { OnErr result (self.new.usable ≡ false) }
    {
        self.settle_gated(rt, given, plan, &OpenGate)
    }

    /// Settles in the same way; in each round each group passes the gate before its turns. It returns where
    /// the gate lets all groups pass.
    pub fn settle_gated<R: Threads + Sync, G: Gate + Sync>(
        &mut self,
        rt: &R,
        given: &[Request],
        plan: &Plan,
        gate: &G,
    ) -> Result<Vec<Reply>, AllocError>
        requires usable { self.old.usable ≡ true }
        requires formed { AllByRecursion IsRequest given.now }
        ensures usable { OnOk result (self.new.usable ≡ true) }
        ensures settled { OnOk result (HaveSettled self.old.histories self.new.histories given.now) }
        ensures answers { IfOk result (λ replies. AreAnswers self.new.histories given.now replies.items) }
        ensures given_up { OnErr result (self.new.usable ≡ false) }
    {
        self.usable = false;
        self.nodes.plan(self.alloc, plan)?;
        self.nodes.give(self.alloc, given)?;
        self.nodes.settle(rt, gate)?;
        let replies = answers(self.alloc, &self.nodes, given)?;
        self.usable = true;
        Ok(replies)
    }
}

// The answers to requests that each have one.
fn answers(alloc: Global, nodes: &Nodes, given: &[Request]) -> Result<Vec<Reply>, AllocError>
    requires { AllByRecursion
        (λ (r : Request). is_some (answer_for (histories_by nodes.now) r) ≡ true) given.now }
    ensures { IfOk result (λ replies. AreAnswers (histories_by nodes.now) given.now replies.items) }
{
    let mut replies = Vec::new(alloc);
    for request in given {
        let reply = nodes.answer(request)?.unwrap();
        replies.push(reply)?;
    }
    Ok(replies)
}

// The node with this number.
fn node_with(number: u32) -> Node
    requires { number < NODES }
    ensures { result ≡ number }
{
    Node::try_new(number).unwrap()
}
