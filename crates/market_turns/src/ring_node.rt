//! A core with its ends of rings.

ghost use Rattle.std.specs.Prelude.{◌≡◌, drop, length, OnOk};
ghost use Rattle.market_turns.specs.Turns.{CanTurn, HasTurned, with_node_committed};

use crate::counting::note_counts;
use crate::sending::{send_counts, send_windows};
use crate::taking::take_events;
use market_events::Entry;
use market_history::Journal;
use market_node::{Core, NodeCore};
use market_rings::{Ends, Fates};
use std::alloc::{AllocError, Global};
use std::marker::Model;

/// A core with its ends of rings. Contracts see a `NodeState`.
#[derive(Drop)]
pub struct RingNode<C: Core> {
    alloc: Global,
    pub(crate) core: C,
    pub(crate) ends: Ends,
}

/// The node of a service.
pub type ServiceNode<S> = RingNode<NodeCore<S>>;

impl<C: Core> Model for RingNode<C> {
    ghost use Rattle.market_turns.specs.Turns.{NodeState};

    ghost Value = { NodeState };

    ghost view = { λ a. record { core = C.state a.core; ends = a.ends } };
}

impl<C: Core> RingNode<C> {
    ghost use Rattle.std.specs.Borrow.{Lends, sem};
    ghost use Rattle.market_rings.specs.contracts.ends.Ends as ends;
    ghost use Rattle.market_turns.specs.contracts.ring_node.RingNode as ring;

    /// A core and its ends.
    pub fn new(alloc: Global, core: C, ends: Ends) -> RingNode<C>
    where
        C: Drop,
        ensures { result ≡ record { core = C.state core; ends = ends } }
    {
        RingNode { alloc, core, ends }
    }

    /// The core.
    pub fn core(&self) -> &C
        ensures { C.state result.now ≡ self.now.core }
    {
        &self.core
    }

    /// The journal. It takes no memory.
    pub fn journal(&self) -> &Journal
        ensures node { result.now.node ≡ self.now.core.node }
        ensures entries { result.now.entries ≡ self.now.core.entries }
    {
        self.core.journal()
    }

    /// The entries that are not committed. It takes no memory.
    pub fn uncommitted(&self) -> &[Entry]
        ensures { result.now ≡ drop self.now.core.committed self.now.core.entries }
    {
        self.core.uncommitted()
    }

    /// Counts all entries as committed, and their events as released. It takes no memory.
    pub fn release(&mut self)
        ensures { self.new ≡ with_node_committed self.old }
    {
        self.core.release();
    }

    /// The ends of its rings.
    pub fn ends(&mut self) -> &mut Ends
        ensures* written { sem 𝓛 (Lends (ring.the_row C.row ⟦<C as Core>⟧) ends.the_row self.entry result
            (λ w. record self.entry.now { ends = w })) }
        ensures lent { result.now ≡ self.old.ends }
    {
        &mut self.ends
    }

    /// A turn: sends the window of each link out of the node and a count back on each link into it, each
    /// packet with the next of these fates; notes the counts that came back; and offers the events that
    /// waited, link by link. It requires room on the node's rings and that what waits may be offered. On want
    /// of memory the node is given up.
    pub fn turn(&mut self, fates: &mut Fates) -> Result<(), AllocError>
        requires { CanTurn C.can_take self.old }
        ensures { OnOk result (HasTurned self.old self.new fates.old fates.new) }
    {
        send_windows(&self.core, &mut self.ends, fates)?;
        send_counts(&self.core, &mut self.ends, fates)?;
        note_counts(&mut self.core, &mut self.ends, self.alloc)?;
        take_events(&mut self.core, &mut self.ends, self.alloc)?;
        Ok(())
    }
}
