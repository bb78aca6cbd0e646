//! What a node sends in a turn.

ghost use Rattle.std.specs.Prelude.{◌≡◌, map, OnOk};
ghost use Rattle.market_events.specs.declared.links.Link.{Link};
ghost use Rattle.market_events.specs.Links.{IsLink, sender_of, receiver_of};
ghost use Rattle.market_links.specs.Slots.{slot_into};
ghost use Rattle.market_rings.specs.declared.fates.Way.TheVariants.{Ack};
ghost use Rattle.market_rings.specs.Fates.{fates_at, with_fates};
ghost use Rattle.market_rings.specs.NodeEnds.{HaveSentCounts};
ghost use Rattle.market_rings.specs.Pushes.{fates_left};
ghost use Rattle.market_turns.specs.Turns.{IsReadyOut, IsReadyIn, counts_sent};
ghost use Rattle.market_turns.specs.Sent.{HasSentWindow, HasSentBack, events_in};

use market_events::Link;
use market_links::{link_from, link_into};
use market_node::Core;
use market_rings::{Ends, Fates};
use std::alloc::AllocError;

// Sends the window of each link out of the node.
pub fn send_windows<C: Core>(core: &C, ends: &mut Ends, fates: &mut Fates) -> Result<(), AllocError>
    requires { (link : Link) → IsLink link → sender_of link ≡ (C.state core.now).node
        → IsReadyOut ends.old link }
    ensures sent { OnOk result ((link : Link) → IsLink link → sender_of link ≡ (C.state core.now).node
        → HasSentWindow (C.state core.now) ends.old ends.new fates.old fates.new link) }
    ensures ins { OnOk result (ends.new.ins ≡ ends.old.ins) }
    ensures ack { OnOk result (fates.new.ack ≡ fates.old.ack) }
{
    let node = core.journal().node();
    for slot in 0..ends.slots() {
        let Some(link) = link_from(node, slot) else {
            continue;
        };
        ends.send_events(link, core.window(link), fates)?;
    }
    Ok(())
}

// Sends a count back on each link into the node on which an event was taken.
pub fn send_counts<C: Core>(core: &C, ends: &mut Ends, fates: &mut Fates) -> Result<(), AllocError>
    requires { (link : Link) → IsLink link → receiver_of link ≡ (C.state core.now).node
        → IsReadyIn ends.old link }
    ensures sent { OnOk result ((link : Link) → IsLink link → receiver_of link ≡ (C.state core.now).node
        → HasSentBack (C.state core.now) ends.old ends.new fates.old fates.new link) }
    ensures outs { OnOk result (ends.new.outs ≡ ends.old.outs) }
    ensures waiting { OnOk result (map events_in ends.new.ins ≡ map events_in ends.old.ins) }
    ensures carry { OnOk result (fates.new.carry ≡ fates.old.carry) }
{
    let node = core.journal().node();
    for slot in 0..ends.slots() {
        let Some(link) = link_into(node, slot) else {
            continue;
        };
        send_count(core, link, ends, fates)?;
    }
    Ok(())
}

// Sends the count of committed events taken on a link, where an event was taken on it.
fn send_count<C: Core>(
    core: &C,
    link: Link,
    ends: &mut Ends,
    fates: &mut Fates,
) -> Result<(), AllocError>
    requires link { IsLink link }
    requires into { receiver_of link ≡ (C.state core.now).node }
    requires ready { IsReadyIn ends.old link }
    ensures sent { OnOk result
        (HaveSentCounts ends.old ends.new link (counts_sent (C.state core.now) link)
        (fates_at fates.old Ack (slot_into link))) }
    ensures fates { OnOk result (fates.new
        ≡ with_fates fates.old Ack (slot_into link)
        (fates_left (counts_sent (C.state core.now) link) (fates_at fates.old Ack (slot_into link)))) }
{
    if core.taken(link) > 0 {
        ends.send_counts(link, &[core.settled(link)], fates)
    } else {
        ends.send_counts(link, &[], fates)
    }
}
