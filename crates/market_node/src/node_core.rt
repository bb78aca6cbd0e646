//! The core of a service's node.

ghost use Rattle.std.specs.Prelude.{◌≡◌, ◌≢◌, true, [], IfOk, OnErr};
ghost use Rattle.market_events.specs.Cells.{cells_of};
ghost use Rattle.market_events.specs.Offers.{offer_of};
ghost use Rattle.market_events.specs.Services.{fits, node_of};
ghost use Rattle.market_history.specs.Blocks.{grow, inputs_of, steps_of, Arrival};
ghost use Rattle.market_history.specs.Causality.{events_taken};
ghost use Rattle.market_history.specs.Journals.{AsksOwn};
ghost use Rattle.market_node.specs.Arriving.{CanArrive};
ghost use Rattle.market_node.specs.Cores.{new_core, with_entries};

use crate::making::make_all;
use crate::recorder::Recorder;
use market_events::{Cell, Event, MOST_OUTS, Node, Offer, Outs, Service, Tabled};
use market_history::Journal;
use std::alloc::{AllocError, Global};
use std::marker::Model;

// How many entries one step adds at most.
const MOST_ENTRIES: u32 = MOST_OUTS as u32 + 1;

/// The core of a service's node: the service, and its journal. Contracts see a `CoreState`: the node, the
/// entries of its journal, how many of them are committed, and how many events were acknowledged on each link
/// out of it, by slot. The service stands for the steps that the journal tells of.
#[derive(Drop)]
pub struct NodeCore<S: Service> {
    alloc: Global,
    pub(crate) recorder: Recorder,
    service: S,
}

impl<S: Service> Model for NodeCore<S> {
    ghost use Rattle.market_node.specs.Cores.{CoreState, core_of};
    ghost use Rattle.market_node.specs.ServiceCores.{IsServiceCore};

    ghost Value = { CoreState };

    ghost view = { λ a. core_of a.recorder };

    ghost invariant = { λ a. IsServiceCore S.role S.holds a.recorder a.service };
}

impl<S: Service> NodeCore<S> {
    /// The core of this service's node, with an empty journal. It requires the node's service, which took
    /// nothing yet.
    pub fn new(alloc: Global, node: Node, service: S) -> Result<NodeCore<S>, AllocError>
    where
        S: Drop,
        requires node { node ≡ node_of S.role }
        requires service { S.holds service [] }
        ensures { IfOk result (λ core. core ≡ new_core node) }
    {
        let recorder = Recorder::new(alloc, node)?;
        Ok(NodeCore {
            alloc,
            recorder,
            service,
        })
    }

    /// Takes an event that is offered to the node. It requires a well-formed event of a link into the node
    /// that can carry its body, fewer than 2^31 entries, clocks of at most 2^62 - 8, and, where the event is
    /// taken, a body that fits the steps before it, and a request of the lane that asks it. Where it is
    /// taken, the journal grows by it and by what the service makes of it. Where it is not taken, and on want
    /// of memory, the core is as before. Memory is taken, and can be wanting, only where the event is taken.
    pub fn take(&mut self, event: &Event) -> Result<Offer, AllocError>
        requires arrives { CanArrive self.old.node self.old.entries event.now }
        requires own { offer_of self.old.node (events_taken self.old.entries) event.now ≡ Offer.Take
            → AsksOwn event.now.link event.now.body }
        requires fits { offer_of self.old.node (events_taken self.old.entries) event.now ≡ Offer.Take
            → fits S.role (steps_of S.role (inputs_of self.old.entries)) event.now.link event.now.body
            ≡ true }
        ensures offers { IfOk result (λ offer. offer
            ≡ offer_of self.old.node (events_taken self.old.entries) event.now) }
        ensures taken { IfOk result (λ offer. offer ≡ Offer.Take
            → self.new
            ≡ with_entries self.old (grow self.old.node self.old.entries (Arrival.Takes event.now))) }
        ensures other { IfOk result (λ offer. offer ≢ Offer.Take → self.new ≡ self.old) }
        ensures err { OnErr result (self.new ≡ self.old) }
        ensures fails_at_take { OnErr result (offer_of self.old.node (events_taken self.old.entries) event.now
            ≡ Offer.Take) }
    {
        let offer = self.recorder.offer(event);
        if offer != Offer::Take {
            return Ok(offer);
        }
        let taken = event.try_copy()?;
        self.recorder.reserve(MOST_ENTRIES)?;
        let mut outs = Outs::new(self.alloc);
        self.service.accept(event.link, &event.body, &mut outs)?;
        self.recorder.take(taken);
        make_all(&mut self.recorder, outs);
        Ok(offer)
    }
}

impl<S: Tabled> NodeCore<S> {
    /// The service's cells, by rising name.
    pub fn cells(&self) -> Result<Vec<Cell>, AllocError>
        ensures { IfOk result (λ cells. cells.items
            ≡ cells_of S.role (steps_of S.role (inputs_of self.now.entries))) }
    {
        self.service.cells()
    }
}
