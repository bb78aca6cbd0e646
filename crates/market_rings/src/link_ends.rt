//! The ends of the two rings of a link, at its sender and at its receiver.

ghost use Rattle.std.specs.Prelude.{IfOk};
ghost use Rattle.market_rings.specs.LinkEnds.{AreOfOneLink, IsNewLink, HasMet};

use crate::inlets::Inlet;
use crate::outlets::Outlet;
use crate::rings::{look, ring};
use market_events::Event;
use std::alloc::{AllocError, Global};

/// The ends at a link's sender: events go out, and counts of those that were taken come back.
#[derive(Drop)]
pub struct LinkOut {
    pub events: Outlet<Event>,
    pub counts: Inlet<u32>,
}

/// The ends at a link's receiver: events come in, and counts of those that were taken go back.
#[derive(Drop)]
pub struct LinkIn {
    pub events: Inlet<Event>,
    pub counts: Outlet<u32>,
}

// The ends of the two rings of a link, which are new.
pub(crate) fn link_ends(alloc: Global) -> Result<(LinkOut, LinkIn), AllocError>
    ensures { IfOk result (λ ends. IsNewLink ends.0 ends.1) }
{
    let (outlet, inlet) = ring(alloc)?;
    let (back, returned) = ring(alloc)?;
    let out = LinkOut {
        events: outlet,
        counts: returned,
    };
    let into = LinkIn {
        events: inlet,
        counts: back,
    };
    Ok((out, into))
}

// Brings the ends of both rings of a link together.
pub(crate) fn meet_link(out: &mut LinkOut, into: &mut LinkIn)
    requires { AreOfOneLink out.old into.old }
    ensures { HasMet out.old into.old out.new into.new }
{
    look(&mut out.events, &mut into.events);
    look(&mut into.counts, &mut out.counts);
}
