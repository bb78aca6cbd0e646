//! The events that wait at a node.

ghost use Rattle.std.specs.Prelude.{◌≡◌, map, OnOk};
ghost use Rattle.market_node.specs.Cores.{with_entries};
ghost use Rattle.market_node.specs.Offered.{CanTakeAll, with_all_offered};
ghost use Rattle.market_rings.specs.NodeEnds.{events_taken};
ghost use Rattle.market_turns.specs.Turns.{arrivals};

use market_events::Event;
use market_node::Core;
use market_rings::Ends;
use std::alloc::{AllocError, Global};

// Pops all events that wait at the node, and offers them, link by link.
pub fn take_events<C: Core>(core: &mut C, ends: &mut Ends, alloc: Global) -> Result<(), AllocError>
    requires { CanTakeAll C.can_take (C.state core.old).node (C.state core.old).entries (arrivals ends.old) }
    ensures popped { OnOk result (ends.new ≡ record ends.old { ins = map events_taken ends.old.ins }) }
    ensures taken { OnOk result (C.state core.new
        ≡ with_entries (C.state core.old)
        (with_all_offered (C.state core.old).node (C.state core.old).entries (arrivals ends.old))) }
{
    for slot in 0..ends.slots() {
        let events = ends.take_events(slot, alloc)?;
        offer_all(core, &events)?;
    }
    Ok(())
}

// Offers events to the core, one after the other.
fn offer_all<C: Core>(core: &mut C, events: &[Event]) -> Result<(), AllocError>
    requires { CanTakeAll C.can_take (C.state core.old).node (C.state core.old).entries events.now }
    ensures { OnOk result (C.state core.new
        ≡ with_entries (C.state core.old)
        (with_all_offered (C.state core.old).node (C.state core.old).entries events.now)) }
{
    for event in events {
        core.offer(event)?;
    }
    Ok(())
}
