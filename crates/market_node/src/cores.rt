//! What the cores of services and of lanes have in common.

ghost use Rattle.std.specs.Prelude.{◌≡◌, ℕ, List, drop, length, OnOk, OnErr};
ghost use Rattle.std.specs.Option.{option_copied};
ghost use Rattle.market_events.specs.declared.events.Entry.{Entry};
ghost use Rattle.market_events.specs.declared.events.Event.{Event};
ghost use Rattle.market_events.specs.Links.{IsLink, sender_of, receiver_of};
ghost use Rattle.market_events.specs.Offers.{taken_on};
ghost use Rattle.market_history.specs.Causality.{events_taken};
ghost use Rattle.market_links.specs.declared.slots.TheConstants.{SLOTS};
ghost use Rattle.market_node.specs.Cores.{CoreState, core_of, with_entries, window_of, with_count_back};
ghost use Rattle.market_node.specs.Cores.{committed_on, with_all_committed};
ghost use Rattle.market_node.specs.Notes.{event_with};
ghost use Rattle.market_node.specs.Offered.{with_offered, FitsService, FitsLane};

use crate::lane_core::LaneCore;
use crate::node_core::NodeCore;
use crate::recorder::Recorder;
use market_events::{Entry, Event, Link, Offer, Service};
use market_history::Journal;
use std::alloc::AllocError;

/// A core: of a service's node, or of a lane. `state` is what contracts see of it, and `can_take` says which
/// events may be offered to a node with these entries.
pub trait Core {
    ghost state: { Self → CoreState };

    ghost can_take: { ℕ → List Entry → Event → Type 0 };

    /// The record of the node, which the calls below read.
    fn recorder(&self) -> &Recorder
        ensures { core_of result.now ≡ state self.now };

    /// The journal. It takes no memory.
    fn journal(&self) -> &Journal
        ensures node { result.now.node ≡ (state self.now).node }
        ensures entries { result.now.entries ≡ (state self.now).entries }
        ensures slots { length (state self.now).acknowledged ≡ SLOTS }
    {
        self.recorder().journal()
    }

    /// The entries that are not committed. It takes no memory.
    fn uncommitted(&self) -> &[Entry]
        ensures { result.now ≡ drop (state self.now).committed (state self.now).entries }
    {
        self.recorder().uncommitted()
    }

    /// Counts all entries as committed, and their events as released. It takes no memory.
    fn release(&mut self)
        ensures { state self.new ≡ with_all_committed (state self.old) };

    /// The events of a link out of the node that may be sent: the first seven, or fewer, that are released
    /// and not acknowledged. It takes no memory.
    fn window(&self, link: Link) -> &[Event]
        requires link { IsLink link }
        requires from { sender_of link ≡ (state self.now).node }
        ensures { result.now ≡ window_of (state self.now) link }
    {
        self.recorder().window(link)
    }

    /// Notes a count of taken events that came back on a link out of the node. Where it is greater than the
    /// acknowledged count, and not above the released events, it is the acknowledged count from then on, and
    /// the events up to it are not sent again. It takes no memory.
    fn ack(&mut self, link: Link, count: u32)
        requires link { IsLink link }
        requires from { sender_of link ≡ (state self.old).node }
        ensures { state self.new ≡ with_count_back (state self.old) link count };

    /// The event of a link out of the node with this number, where one was made. It takes no memory.
    fn event(&self, link: Link, number: u32) -> Option<&Event>
        requires link { IsLink link }
        requires from { sender_of link ≡ (state self.now).node }
        ensures { option_copied result ≡ event_with link number (state self.now).entries }
    {
        self.recorder().event(link, number)
    }

    /// How many events were taken on a link into the node. It takes no memory.
    fn taken(&self, link: Link) -> u32
        requires link { IsLink link }
        requires into { receiver_of link ≡ (state self.now).node }
        ensures { result ≡ taken_on (events_taken (state self.now).entries) link }
    {
        self.recorder().taken(link)
    }

    /// How many of them are committed. It takes no memory.
    fn settled(&self, link: Link) -> u32
        requires link { IsLink link }
        requires into { receiver_of link ≡ (state self.now).node }
        ensures { result ≡ committed_on (state self.now) link }
    {
        self.recorder().settled(link)
    }

    /// Offers an event to the node. Where it is taken, the journal grows by one block; otherwise, and on want
    /// of memory, nothing changes.
    fn offer(&mut self, event: &Event) -> Result<Offer, AllocError>
        requires { can_take (state self.old).node (state self.old).entries event.now }
        ensures offered { OnOk result (state self.new
            ≡ with_entries (state self.old)
            (with_offered (state self.old).node (state self.old).entries event.now)) }
        ensures err { OnErr result (state self.new ≡ state self.old) };
}

impl<S: Service> Core for NodeCore<S> {
    ghost state = { λ core. core };

    ghost can_take = { FitsService S.role };

    fn recorder(&self) -> &Recorder {
        &self.recorder
    }

    fn release(&mut self) {
        self.recorder.release();
    }

    fn ack(&mut self, link: Link, count: u32) {
        self.recorder.ack(link, count);
    }

    fn offer(&mut self, event: &Event) -> Result<Offer, AllocError> {
        self.take(event)
    }
}

impl Core for LaneCore {
    ghost state = { λ core. core };

    ghost can_take = { FitsLane };

    fn recorder(&self) -> &Recorder {
        &self.recorder
    }

    fn release(&mut self) {
        self.recorder.release();
    }

    fn ack(&mut self, link: Link, count: u32) {
        self.recorder.ack(link, count);
    }

    fn offer(&mut self, event: &Event) -> Result<Offer, AllocError> {
        self.take(event)
    }
}
