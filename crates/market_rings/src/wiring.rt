//! The rings of all links, with their ends at the nodes.

ghost use Rattle.std.specs.Prelude.{◌≡◌, ℕ, ◌+◌, ◌<◌, List, Some, length, replicate, IfOk, OnOk};
ghost use Rattle.market_events.specs.declared.links.Link.{Link};
ghost use Rattle.market_events.specs.Links.{IsLink, index_of, sender_of as sender_by_link};
ghost use Rattle.market_events.specs.Links.{receiver_of as receiver_by_link};
ghost use Rattle.market_events.specs.declared.links.TheConstants.{LINKS};
ghost use Rattle.market_events.specs.declared.nodes.TheConstants.{NODES};
ghost use Rattle.market_rings.specs.declared.link_ends.LinkOut.{LinkOut};
ghost use Rattle.market_rings.specs.declared.link_ends.LinkIn.{LinkIn};
ghost use Rattle.market_rings.specs.NodeEnds.{no_ends, out_at, in_at};
ghost use Rattle.market_rings.specs.Wiring.{ends_of, IsWired, HasLinkOut, HasLinkIn, AreWired, with_sender};
ghost use Rattle.market_rings.specs.Wiring.{with_receiver};

use crate::ends::Ends;
use crate::link_ends::{LinkIn, LinkOut, link_ends};
use market_events::{LINKS, Link, NODES, link_at, receiver_of, sender_of};
use market_links::{slot_at_receiver, slot_at_sender};
use std::alloc::{AllocError, Global};

/// Makes the rings of all links, and answers the ends of the nodes 0 to 23 in order.
pub fn wire(alloc: Global) -> Result<Vec<Ends>, AllocError>
    ensures many { IfOk result (λ all. length all.items ≡ NODES) }
    ensures wired { IfOk result (λ all. (link : Link) → IsLink link → IsWired all.items link) }

    // No node has ends of other links.
    ensures outs { IfOk result (λ all. (node slot : ℕ) (out : LinkOut)
        → out_at (ends_of all.items node) slot ≡ Some out → HasLinkOut node slot) }
    ensures ins { IfOk result (λ all. (node slot : ℕ) (into : LinkIn)
        → in_at (ends_of all.items node) slot ≡ Some into → HasLinkIn node slot) }
{
    let mut all = without_ends(alloc)?;
    for index in 0..LINKS {
        wire_link(&mut all, link_at(index), alloc)?;
    }
    Ok(all)
}

// The nodes, each without ends.
fn without_ends(alloc: Global) -> Result<Vec<Ends>, AllocError>
    ensures { IfOk result (λ all. all.items ≡ replicate NODES no_ends) }
{
    let mut all = Vec::new(alloc);
    for _node in 0..NODES {
        all.push(Ends::none(alloc)?)?;
    }
    Ok(all)
}

// Makes the rings of a link.
fn wire_link(all: &mut [Ends], link: Link, alloc: Global) -> Result<(), AllocError>
    requires link { IsLink link }
    requires before { AreWired all.old (index_of link) }
    ensures { OnOk result (AreWired all.new (index_of link + 1)) }
{
    let (out, into) = link_ends(alloc)?;
    put_at_sender(all, link, out);
    put_at_receiver(all, link, into);
    Ok(())
}

// Puts the ends at a link's sender.
fn put_at_sender(all: &mut [Ends], link: Link, out: LinkOut)
    requires link { IsLink link }
    requires many { length all.old ≡ NODES }
    ensures within { sender_by_link link < NODES }
    ensures put { all.new ≡ with_sender all.old link out }
{
    all[sender_of(link).get() as usize].put_out(slot_at_sender(link), out);
}

// Puts the ends at a link's receiver.
fn put_at_receiver(all: &mut [Ends], link: Link, into: LinkIn)
    requires link { IsLink link }
    requires many { length all.old ≡ NODES }
    ensures within { receiver_by_link link < NODES }
    ensures put { all.new ≡ with_receiver all.old link into }
{
    all[receiver_of(link).get() as usize].put_in(slot_at_receiver(link), into);
}
