//! The record of a node: its journal, and what is noted beside it, so that an entry is added without a walk.

ghost use Rattle.std.specs.Prelude.{◌≡◌, ◌+◌, ◌-◌, ◌^◌, ◌<◌, max, drop, take, true, [], length, IfOk, OnOk};
ghost use Rattle.std.specs.Prelude.{OnErr, slice_index, slice_set};
ghost use Rattle.std.specs.Option.{option_copied};
ghost use Rattle.market_amounts.specs.declared.keys.RequestId.{RequestId};
ghost use Rattle.market_events.specs.Carried.{carries};
ghost use Rattle.market_events.specs.Links.{IsLink, lane_node, sender_of, receiver_of};
ghost use Rattle.market_events.specs.Offers.{offer_of, taken_on};
ghost use Rattle.market_events.specs.Requests.{lane_of};
ghost use Rattle.market_events.specs.WellFormed.{IsBody, IsReply, IsRequest, IsRequestId, IsWellFormedEvent};
ghost use Rattle.market_history.specs.Blocks.{with_what, with_out, Out};
ghost use Rattle.market_history.specs.Causality.{events_taken};
ghost use Rattle.market_history.specs.Journals.{AsksOwn, CanBeKept, IsLane};
ghost use Rattle.market_history.specs.Stamps.{clock_before};
ghost use Rattle.market_links.specs.Slots.{slot_from};
ghost use Rattle.market_links.specs.declared.slots.TheConstants.{SLOTS};
ghost use Rattle.market_node.specs.Notes.{event_with};
ghost use Rattle.market_node.specs.Records.{new_record};
ghost use Rattle.market_node.specs.Sending.{window_on, with_count};

use crate::counting::raise;
use crate::lists::Lists;
use crate::reading::made_on;
use crate::received::Received;
use crate::senders::Senders;
use crate::writing::write;
use market_amounts::RequestId;
use market_events::{Body, Counts, Entry, Event, Link, Node, Offer, Reply, Request, What};
use market_history::Journal;
use market_links::{Receiver, SLOTS, slot_at_receiver, slot_at_sender};
use std::alloc::{AllocError, Global};
use std::marker::Model;

// The record of a node. Contracts see the node, the entries of its journal, how many of them are committed,
// how many events were acknowledged on each link out of it, and for how many more entries there is room for
// sure.
#[derive(Drop)]
pub struct Recorder {
    journal: Journal,
    // The last clock.
    clock: u64,
    // The past of the next event.
    known: Counts,
    received: Received,
    // Where in the journal the events of each link out of the node stand.
    lists: Lists,
    senders: Senders,
    committed: usize,
    // How many of the events taken are committed, by the slot of their link.
    settled: [Receiver; SLOTS],
    room: u32,
}

impl Model for Recorder {
    ghost use Rattle.market_node.specs.Records.{RecordState};

    ghost Value = { RecordState };

    ghost use Rattle.market_node.specs.Recorders.{record_of, IsRecorder};

    ghost view = { record_of };

    ghost invariant = { IsRecorder };
}

impl Recorder {
    // The record of this node, with no entry and no room.
    pub fn new(alloc: Global, node: Node) -> Result<Recorder, AllocError>
        ensures { IfOk result (λ recorder. recorder ≡ new_record node) }
    {
        let _number = node.get();
        let lists = Lists::new(alloc)?;
        let senders = Senders::new(alloc, node)?;
        let received = Received::new();
        let settled = received.receivers;
        Ok(Recorder {
            journal: Journal::new(alloc, node),
            clock: 0,
            known: Counts::zero(),
            received,
            lists,
            senders,
            committed: 0,
            settled,
            room: 0,
        })
    }

    // The journal. It takes no memory.
    pub fn journal(&self) -> &Journal
        ensures node { result.now.node ≡ self.now.node }
        ensures entries { result.now.entries ≡ self.now.entries }
        ensures slots { length self.now.acknowledged ≡ SLOTS }
    {
        &self.journal
    }

    // The entries that are not committed. It takes no memory.
    pub fn uncommitted(&self) -> &[Entry]
        ensures { result.now ≡ drop self.now.committed self.now.entries }
    {
        &self.journal.entries()[self.committed..]
    }

    // Counts all entries as committed, and their events as released.
    pub fn release(&mut self)
        ensures { self.new ≡ record self.old { committed = length self.old.entries } }
    {
        self.committed = self.journal.entries().len();
        self.settled = self.received.receivers;
        self.senders.release();
    }

    // The events of a link out of the node that may be sent. It takes no memory.
    pub fn window(&self, link: Link) -> &[Event]
        requires link { IsLink link }
        requires from { sender_of link ≡ self.now.node }
        ensures { result.now ≡ window_on link self.now.entries self.now.committed
            (slice_index self.now.acknowledged (slot_from link)) }
    {
        self.senders.window(slot_at_sender(link))
    }

    // Notes a count of taken events that came back on a link out of the node. It takes no memory.
    pub fn ack(&mut self, link: Link, count: u32)
        requires link { IsLink link }
        requires from { sender_of link ≡ self.old.node }
        ensures { self.new ≡ record self.old {
          acknowledged = slice_set self.old.acknowledged (slot_from link)
              (with_count link self.old.entries self.old.committed
              (slice_index self.old.acknowledged (slot_from link)) count);
        } }
    {
        self.senders.ack(slot_at_sender(link), count);
    }

    // How many events that were taken on a link into the node are committed. It takes no memory.
    pub fn settled(&self, link: Link) -> u32
        requires link { IsLink link }
        requires into { receiver_of link ≡ self.now.node }
        ensures { result ≡ taken_on (events_taken (take self.now.committed self.now.entries)) link }
    {
        self.settled[slot_at_receiver(link)].count()
    }

    // How many events were taken on a link into the node. It takes no memory.
    pub fn taken(&self, link: Link) -> u32
        requires link { IsLink link }
        requires into { receiver_of link ≡ self.now.node }
        ensures { result ≡ taken_on (events_taken self.now.entries) link }
    {
        self.received.taken(link)
    }

    // What becomes of an event that is offered to the node, into which its link leads.
    pub fn offer(&self, event: &Event) -> Offer
        requires link { IsLink event.now.link }
        requires into { receiver_of event.now.link ≡ self.now.node }
        ensures { result ≡ offer_of self.now.node (events_taken self.now.entries) event.now }
    {
        self.received.offer(event, self.journal.node())
    }

    // Makes room for at least this many entries more. On want of memory the record is as before.
    pub fn reserve(&mut self, more: u32) -> Result<(), AllocError>
        ensures ok { OnOk result (self.new ≡ record self.old { room = max self.old.room more }) }
        ensures err { OnErr result (self.new ≡ self.old) }
    {
        self.journal.reserve(more)?;
        self.lists.reserve(more)?;
        self.senders.reserve(more)?;
        self.room = self.room.max(more);
        Ok(())
    }

    // Adds that the node took an event that was due there. It requires room, and takes no memory.
    pub fn take(&mut self, event: Event)
        requires link { IsLink event.link }
        requires carried { carries event.link event.body ≡ true }
        requires own { AsksOwn event.link event.body }
        requires formed { IsWellFormedEvent event }
        requires into { receiver_of event.link ≡ self.old.node }
        requires due { offer_of self.old.node (events_taken self.old.entries) event ≡ Offer.Take }
        requires room { 0 < self.old.room }
        requires few { length self.old.entries < 4_294_967_295 }
        requires clock { max (clock_before self.old.entries) event.clock < 2 ^ 62 }
        ensures { self.new
            ≡ record self.old
            { entries = with_what self.old.entries (What.Taken event); room = self.old.room - 1 } }
    {
        self.received.advance(&event);
        self.known.merge(&event.past);
        raise(&mut self.known, event.link, event.number);
        self.clock = self.clock.max(event.clock) + 1;
        self.room -= 1;
        let entry = Entry {
            clock: self.clock,
            what: What::Taken(event),
        };
        write(&mut self.journal, entry);
    }

    // Adds that the node made an event of this body on a link that leads out of it, with the next number; the
    // copy of the body is for the event that is sent. It requires room, and takes no memory.
    pub fn make(&mut self, link: Link, body: Body, copy: Body)
        requires copy { copy ≡ body }
        requires link { IsLink link }
        requires from { sender_of link ≡ self.old.node }
        requires carried { carries link body ≡ true }
        requires formed { IsBody body }
        requires own { AsksOwn link body }
        requires room { 0 < self.old.room }
        requires few { length self.old.entries < 4_294_967_295 }
        requires clock { clock_before self.old.entries < 2 ^ 62 }
        ensures { self.new
            ≡ record self.old
            { entries = with_out self.old.entries (Out.Makes link body); room = self.old.room - 1 } }
    {
        let slot = slot_at_sender(link);
        let number = self.lists.len(slot) as u32 + 1;
        let place = self.journal.entries().len() as u32;
        self.lists.push(slot, place);
        self.clock += 1;
        self.room -= 1;
        let event = Event {
            link,
            number,
            clock: self.clock,
            past: self.known,
            body,
        };
        let to_send = Event {
            link,
            number,
            clock: self.clock,
            past: self.known,
            body: copy,
        };
        self.senders.append(slot, to_send);
        raise(&mut self.known, link, number);
        let entry = Entry {
            clock: self.clock,
            what: What::Made(event),
        };
        write(&mut self.journal, entry);
    }

    // Adds that the node, a lane, was given a request of its own. It requires room, and takes no memory.
    pub fn give(&mut self, request: Request)
        requires formed { IsRequest request }
        requires own { lane_node (lane_of request.id) ≡ self.old.node }
        requires room { 0 < self.old.room }
        requires few { length self.old.entries < 4_294_967_295 }
        requires clock { clock_before self.old.entries < 2 ^ 62 }
        ensures { self.new
            ≡ record self.old
            { entries = with_what self.old.entries (What.Given request); room = self.old.room - 1 } }
    {
        self.clock += 1;
        self.room -= 1;
        let entry = Entry {
            clock: self.clock,
            what: What::Given(request),
        };
        write(&mut self.journal, entry);
    }

    // Adds that the node, a lane, answered a request. It requires room, and takes no memory.
    pub fn answer(&mut self, id: RequestId, reply: Reply)
        requires id { IsRequestId id }
        requires reply { IsReply reply }
        requires kept { CanBeKept reply }
        requires lane { IsLane self.old.node }
        requires room { 0 < self.old.room }
        requires few { length self.old.entries < 4_294_967_295 }
        requires clock { clock_before self.old.entries < 2 ^ 62 }
        ensures { self.new
            ≡ record self.old
            { entries = with_what self.old.entries (What.Answered id reply); room = self.old.room - 1 } }
    {
        self.clock += 1;
        self.room -= 1;
        let entry = Entry {
            clock: self.clock,
            what: What::Answered(id, reply),
        };
        write(&mut self.journal, entry);
    }

    // The event of a link out of the node with this number, where one was made. It takes no memory.
    pub fn event(&self, link: Link, number: u32) -> Option<&Event>
        requires link { IsLink link }
        requires from { sender_of link ≡ self.now.node }
        ensures { option_copied result ≡ event_with link number self.now.entries }
    {
        let entries = self.journal.entries();
        if number == 0 {
            return None;
        }
        let index = number as usize - 1;
        let place = self.lists.get(slot_at_sender(link), index)?;
        made_on(entries.get(place as usize)?, link)
    }
}
