//! The counts that come back to a node.

ghost use Rattle.std.specs.Prelude.{◌≡◌, length, map, OnOk};
ghost use Rattle.market_events.specs.declared.links.Link.{Link};
ghost use Rattle.market_events.specs.Links.{IsLink, sender_of};
ghost use Rattle.market_links.specs.Slots.{slot_from};
ghost use Rattle.market_node.specs.Cores.{acknowledged_on};
ghost use Rattle.market_rings.specs.NodeEnds.{out_at, counts_waiting, counts_taken};
ghost use Rattle.market_turns.specs.Turns.{with_counts, with_counts_back};

use market_events::Link;
use market_links::link_from;
use market_node::Core;
use market_rings::Ends;
use std::alloc::{AllocError, Global};

// Pops all counts that wait at the node, and notes them.
pub fn note_counts<C: Core>(core: &mut C, ends: &mut Ends, alloc: Global) -> Result<(), AllocError>
    ensures popped { OnOk result (ends.new ≡ record ends.old { outs = map counts_taken ends.old.outs }) }
    ensures same { OnOk result (C.state core.new
        ≡ record (C.state core.old) { acknowledged = (C.state core.new).acknowledged }) }
    ensures slots { OnOk result
        (length (C.state core.new).acknowledged ≡ length (C.state core.old).acknowledged) }
    ensures noted { OnOk result ((link : Link) → IsLink link → sender_of link ≡ (C.state core.old).node
        → acknowledged_on (C.state core.new) link
        ≡ with_counts link (C.state core.old).entries (C.state core.old).committed
        (acknowledged_on (C.state core.old) link) (counts_waiting (out_at ends.old (slot_from link)))) }
{
    let node = core.journal().node();
    for slot in 0..ends.slots() {
        let counts = ends.take_counts(slot, alloc)?;
        let Some(link) = link_from(node, slot) else {
            continue;
        };
        note_all(core, link, &counts);
    }
    Ok(())
}

// Notes counts of a link, one after the other.
fn note_all<C: Core>(core: &mut C, link: Link, counts: &[u32])
    requires link { IsLink link }
    requires from { sender_of link ≡ (C.state core.old).node }
    ensures { C.state core.new ≡ with_counts_back (C.state core.old) link counts.now }
{
    for count in counts {
        core.ack(link, *count);
    }
}
