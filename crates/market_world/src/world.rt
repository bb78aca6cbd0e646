//! The world: the cores of all nodes.

ghost use Rattle.std.specs.Prelude.{◌≡◌, ◌<◌, IfOk, OnErr};
ghost use Rattle.std.specs.Option.{option_copied};
ghost use Rattle.market_events.specs.Links.{IsLink};
ghost use Rattle.market_events.specs.WellFormed.{IsRequest};
ghost use Rattle.market_events.specs.declared.nodes.TheConstants.{NODES};
ghost use Rattle.market_history.specs.declared.schedule.Step.TheVariants as step;
ghost use Rattle.market_history.specs.Histories.{journal_at, no_histories};
ghost use Rattle.market_history.specs.Lawful.{IsLawful};
ghost use Rattle.market_history.specs.Schedule.{IsPlayable, outcome_of, play_step};
ghost use Rattle.market_world.specs.Cells.{cells_at};
ghost use Rattle.market_world.specs.Waiting.{first_of};

use crate::copies::copy_of;
use crate::cores::Cores;
use market_events::{Cell, Event, Link, NODES, Node, Request};
use market_history::{Histories, Journal, Outcome, Step};
use std::alloc::{AllocError, Global};
use std::marker::Model;

/// The cores of all nodes, without rings. Every event that was made can be offered at once, again and in any
/// order. Contracts see the histories: the entries of each node's journal, from node 0 on. They are lawful at
/// every moment.
#[derive(Drop)]
pub struct World {
    alloc: Global,
    cores: Cores,
}

impl Model for World {
    ghost use Rattle.market_history.specs.Histories.{Histories};
    ghost use Rattle.market_history.specs.Lawful.{IsLawful};

    ghost Value = { Histories };

    ghost view = { λ a. a.cores };

    ghost invariant = { λ a. IsLawful a.cores };
}

impl World {
    /// A world in which nothing happened.
    pub fn new(alloc: Global) -> Result<World, AllocError>
        ensures { IfOk result (λ world. world ≡ no_histories) }
    {
        let cores = Cores::new(alloc)?;
        Ok(World { alloc, cores })
    }

    /// The allocator. It takes no memory.
    pub fn alloc(&self) -> Global
        ensures { IsLawful self.now }
    {
        let _ = &self.cores;
        self.alloc
    }

    /// The journal of a node. It takes no memory.
    pub fn journal(&self, node: Node) -> &Journal
        ensures node { result.now.node ≡ node }
        ensures entries { result.now.entries ≡ journal_at self.now node }
        ensures lawful { IsLawful self.now }
    {
        self.cores.journal(node)
    }

    /// The histories, which are lawful.
    pub fn histories(&self) -> Result<Histories, AllocError>
        ensures value { IfOk result (λ histories. histories ≡ self.now) }
        ensures lawful { IsLawful self.now }
    {
        let mut journals = Vec::new(self.alloc);
        for number in 0..NODES {
            let node = node_with(number);
            journals.push(copy_of(self.alloc, self.cores.journal(node))?)?;
        }
        Ok(Histories::new(journals))
    }

    /// The cells of a service's node, by rising name: its tables. A lane has none.
    pub fn cells(&self, node: Node) -> Result<Vec<Cell>, AllocError>
        ensures { IfOk result (λ cells. cells.items ≡ cells_at self.now node) }
    {
        self.cores.cells(node)
    }

    // The first event of a link that its receiver did not take. It takes no memory.
    pub fn waiting(&self, link: Link) -> Option<&Event>
        requires { IsLink link }
        ensures first { option_copied result ≡ first_of self.now link }
        ensures lawful { IsLawful self.now }
    {
        let taken = self.cores.taken(link);
        self.cores.event(link, taken + 1)
    }

    // Plays a step. On want of memory nothing changes.
    pub fn play(&mut self, step: &Step) -> Result<Outcome, AllocError>
        requires { IsPlayable step.now }
        ensures outcome { IfOk result (λ outcome. outcome ≡ outcome_of self.old step.now) }
        ensures histories { IfOk result (λ outcome. self.new ≡ play_step self.old step.now) }
        ensures err { OnErr result (self.new ≡ self.old) }
        ensures lawful { IsLawful self.new }
    {
        match step {
            Step::Give(request) => self.give(request),
            Step::Offer(link, number) => self.offer(*link, *number),
            Step::Ack(..) => {
                let _ = &self.cores;
                Ok(Outcome::Acked)
            }
        }
    }

    // Gives a request to its lane.
    fn give(&mut self, request: &Request) -> Result<Outcome, AllocError>
        requires { IsRequest request.now }
        ensures outcome { IfOk result (λ outcome. outcome ≡ outcome_of self.old (step.Give request.now)) }
        ensures histories { IfOk result (λ outcome. self.new ≡ play_step self.old (step.Give request.now)) }
        ensures err { OnErr result (self.new ≡ self.old) }
        ensures lawful { IsLawful self.new }
    {
        let give = self.cores.give(request)?;
        Ok(Outcome::Gave(give))
    }

    // Offers the event of a link with this number to its receiver.
    fn offer(&mut self, link: Link, number: u32) -> Result<Outcome, AllocError>
        requires { IsLink link }
        ensures outcome { IfOk result (λ outcome. outcome ≡ outcome_of self.old (step.Offer link number)) }
        ensures histories { IfOk result (λ outcome. self.new ≡ play_step self.old (step.Offer link number)) }
        ensures err { OnErr result (self.new ≡ self.old) }
        ensures lawful { IsLawful self.new }
    {
        let Some(event) = self.cores.event(link, number) else {
            return Ok(Outcome::NeverMade);
        };
        let event = event.try_copy()?;
        let offer = self.cores.take(&event)?;
        Ok(Outcome::Offered(offer))
    }
}

// The node with this number.
fn node_with(number: u32) -> Node
    requires { number < NODES }
    ensures { result ≡ number }
{
    Node::try_new(number).unwrap()
}
