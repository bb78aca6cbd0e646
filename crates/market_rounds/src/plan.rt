//! Plans: what becomes of the packets that nodes send.

ghost use Rattle.std.specs.Prelude.{◌≡◌, [], ◌∷◌, ◌++◌, OnErr, OnOk};
ghost use Rattle.std.specs.List.{AllByRecursion};
ghost use Rattle.market_events.specs.Links.{IsLink};
ghost use Rattle.market_rounds.specs.declared.plan.Planned.{Planned};
ghost use Rattle.market_rounds.specs.Plans.{end_of, slot_at_end};

use market_events::{Link, Node, receiver_of, sender_of};
use market_links::{slot_at_receiver, slot_at_sender};
use market_rings::{Fate, Way};
use std::alloc::{AllocError, Global};
use std::marker::Model;

/// The fate of one packet more that is sent on a link, on its way.
#[derive(Clone, Copy, Debug, PartialEq, Eq)]
pub struct Planned {
    /// The link, one of all links.
    pub link: Link,
    /// Whether it is the fate of an event, or of a count.
    pub way: Way,
    /// What becomes of it.
    pub fate: Fate,
}

/// What becomes of the packets that are sent: for each link and way a list of fates, which meet the packets
/// in order; past its end all packets pass. Contracts see the fates of all links, in the order in which they
/// were added.
#[derive(Debug, Drop)]
pub struct Plan {
    fates: Vec<Planned>,
}

impl Model for Plan {
    ghost use Rattle.std.specs.Prelude.{List};
    ghost use Rattle.std.specs.List.{AllByRecursion};
    ghost use Rattle.market_events.specs.Links.{IsLink};
    ghost use Rattle.market_rounds.specs.declared.plan.Planned.{Planned};

    ghost Value = { List Planned };

    ghost view = { λ plan. plan.fates.items };

    ghost invariant = { λ plan. AllByRecursion (λ (p : Planned). IsLink p.link) plan.fates.items };
}

impl Plan {
    /// The plan without fates: every packet passes. It takes no memory.
    pub fn none(alloc: Global) -> Plan
        ensures { result ≡ [] }
    {
        Plan {
            fates: Vec::new(alloc),
        }
    }

    /// Appends a fate to the list of a link and a way. On want of memory the plan is as before.
    pub fn add(&mut self, link: Link, way: Way, fate: Fate) -> Result<(), AllocError>
        requires { IsLink link }
        ensures ok { OnOk result
            (self.new ≡ self.old ++ record { link = link; way = way; fate = fate } ∷ []) }
        ensures err { OnErr result (self.new ≡ self.old) }
    {
        self.fates.push(Planned { link, way, fate })?;
        Ok(())
    }

    /// The fates, in the order in which they were added. It takes no memory.
    pub fn fates(&self) -> &[Planned]
        ensures fates { result.now ≡ self.now }
        ensures links { AllByRecursion (λ (p : Planned). IsLink p.link) result.now }
    {
        &self.fates
    }
}

// The node that sends packets on the link this way, and the link's slot there.
pub(crate) fn sending_end(link: Link, way: Way) -> (Node, usize)
    requires { IsLink link }
    ensures node { result.0 ≡ end_of way link }
    ensures slot { result.1 ≡ slot_at_end way link }
{
    match way {
        Way::Carry => (sender_of(link), slot_at_sender(link)),
        Way::Ack => (receiver_of(link), slot_at_receiver(link)),
    }
}
