//! The core of a lane.

ghost use Rattle.std.specs.Prelude.{◌≡◌, ◌≢◌, ◌+◌, ◌-◌, ◌^◌, ◌<◌, ◌≤◌, length};
ghost use Rattle.std.specs.Prelude.{is_some, IfOk, OnErr};
ghost use Rattle.std.specs.Option.{option_copied};
ghost use Rattle.market_events.specs.declared.lanes.TheConstants.{LANES};
ghost use Rattle.market_events.specs.Links.{lane_node};
ghost use Rattle.market_events.specs.Offers.{offer_of};
ghost use Rattle.market_events.specs.Requests.{lane_of};
ghost use Rattle.market_events.specs.WellFormed.{IsRequest};
ghost use Rattle.market_history.specs.Blocks.{grow, Arrival};
ghost use Rattle.market_history.specs.Causality.{events_taken};
ghost use Rattle.market_history.specs.Once.{answer_by, give_of, give_by, reply_of, requests_given, with_id};
ghost use Rattle.market_history.specs.Stamps.{clock_before};
ghost use Rattle.market_node.specs.Arriving.{CanArrive};
ghost use Rattle.market_node.specs.Cores.{new_core, with_entries};
ghost use Rattle.market_node.specs.Keeping.{IsAwaitedBy};

use crate::reading::{given_in, reply_in, told};
use crate::recorder::Recorder;
use crate::table::{Kept, keep, note_answer};
use market_amounts::RequestId;
use market_events::{Body, Event, Offer, Reply, Request, Rule, asking_link, lane_node};
use market_history::Give;
use std::alloc::{AllocError, Global};
use std::collections::BTreeMap;
use std::marker::Model;

/// How many requests a lane keeps at most.
pub const MOST_KEPT: u32 = 16_384;

/// The core of a lane. It keeps each request that it asks, and its answer, for good. Contracts see a
/// `CoreState`: the node, the entries of its journal, how many of them are committed, and how many events
/// were acknowledged on each link out of it, by slot.
#[derive(Drop)]
pub struct LaneCore {
    pub(crate) recorder: Recorder,
    table: BTreeMap<RequestId, Kept>,
    count: u32,
    // The request that has no answer yet.
    waiting: Option<RequestId>,
}

impl Model for LaneCore {
    ghost use Rattle.market_node.specs.Cores.{CoreState};

    ghost Value = { CoreState };

    ghost use Rattle.market_node.specs.LaneCores.{lane_state, IsLaneCore};

    ghost view = { lane_state };

    ghost invariant = { IsLaneCore };
}

impl LaneCore {
    /// The core of this lane, below `LANES`, with an empty journal.
    pub fn new(alloc: Global, lane: u8) -> Result<LaneCore, AllocError>
        requires { lane < LANES }
        ensures { IfOk result (λ core. core ≡ new_core (lane_node lane)) }
    {
        let recorder = Recorder::new(alloc, lane_node(lane))?;
        Ok(LaneCore {
            recorder,
            table: BTreeMap::new(alloc),
            count: 0,
            waiting: None,
        })
    }

    /// The reply to the request with this id, where it is kept and was answered. It takes no memory.
    pub fn kept(&self, id: RequestId) -> Option<&Reply>
        ensures { option_copied result ≡ reply_of self.now.entries id }
    {
        let place = self.table.get(&id)?.answered?;
        reply_in(self.recorder.journal().entries().get(place as usize)?, id)
    }

    /// The answer to a request: the kept reply, where its id is kept with its content and was answered, and none
    /// where it has no reply yet; `request_differs`, where its id is kept with other content; and `lane_full`,
    /// where its id is not kept.
    pub fn answer(&self, request: &Request) -> Result<Option<Reply>, AllocError>
        ensures { IfOk result (λ answer. answer
            ≡ answer_by (with_id request.now.id (requests_given self.now.entries))
            (reply_of self.now.entries request.now.id) request.now) }
    {
        let Some(kept) = self.request(request.id) else {
            return Ok(Some(Reply::Refused(Rule::LaneFull)));
        };
        if kept.ask != request.ask {
            return Ok(Some(Reply::Refused(Rule::RequestDiffers)));
        }
        let Some(reply) = self.kept(request.id) else {
            return Ok(None);
        };
        Ok(Some(reply.try_copy()?))
    }

    // The request that is kept with this id.
    fn request(&self, id: RequestId) -> Option<&Request>
        ensures { option_copied result ≡ with_id id (requests_given self.now.entries) }
    {
        let place = self.table.get(&id)?.given;
        given_in(self.recorder.journal().entries().get(place as usize)?, id)
    }

    // What the lane does with a request.
    fn judge(&self, request: &Request) -> Give
        ensures { result ≡ give_of self.now.entries request.now }
    {
        decide(
            self.request(request.id),
            self.kept(request.id).is_some(),
            self.waiting.is_some(),
            self.count < MOST_KEPT,
            request,
        )
    }

    /// Gives the lane a request. It requires a well-formed request of this lane, fewer than 2^31 entries, and
    /// a last clock of at most 2^62 - 8. Where it is `Asked`, the lane keeps the request and asks its
    /// service; in every other case, and on want of memory, the lane is as before. Memory is taken, and can
    /// be wanting, only where it is `Asked`.
    pub fn give(&mut self, request: &Request) -> Result<Give, AllocError>
        requires formed { IsRequest request.now }
        requires own { lane_node (lane_of request.now.id) ≡ self.old.node }
        requires few { length self.old.entries < 2 ^ 31 }
        requires clock { clock_before self.old.entries ≤ 2 ^ 62 - 8 }
        ensures gives { IfOk result (λ give. give ≡ give_of self.old.entries request.now) }
        ensures asked { IfOk result (λ give. give ≡ Give.Asked
            → self.new
            ≡ with_entries self.old (grow self.old.node self.old.entries (Arrival.Gives request.now))) }
        ensures other { IfOk result (λ give. give ≢ Give.Asked → self.new ≡ self.old) }
        ensures err { OnErr result (self.new ≡ self.old) }
        ensures fails_at_asked { OnErr result (give_of self.old.entries request.now ≡ Give.Asked) }
    {
        let give = self.judge(request);
        if give != Give::Asked {
            return Ok(give);
        }
        self.recorder.reserve(2)?;
        let place = self.recorder.journal().entries().len() as u32;
        keep(&mut self.table, request.id, place)?;
        self.count += 1;
        self.waiting = Some(request.id);
        self.recorder.give(*request);
        let asked = Body::Asked(*request);
        let copy = Body::Asked(*request);
        self.recorder.make(asking_link(request), asked, copy);
        Ok(give)
    }

    /// Takes an event that is offered to the lane. It requires a well-formed event of a link into the lane
    /// that can carry its body, fewer than 2^31 entries, clocks of at most 2^62 - 8, and, where the event is
    /// taken, the reply to a request that the lane keeps and that has none yet. Where it is not taken, and on
    /// want of memory, the lane is as before. Memory is taken, and can be wanting, only where the event is
    /// taken.
    pub fn take(&mut self, event: &Event) -> Result<Offer, AllocError>
        requires arrives { CanArrive self.old.node self.old.entries event.now }
        requires awaited { offer_of self.old.node (events_taken self.old.entries) event.now ≡ Offer.Take
            → IsAwaitedBy self.old.entries event.now.body }
        ensures offers { IfOk result (λ offer. offer
            ≡ offer_of self.old.node (events_taken self.old.entries) event.now) }
        ensures taken { IfOk result (λ offer. offer ≡ Offer.Take
            → self.new
            ≡ with_entries self.old (grow self.old.node self.old.entries (Arrival.Takes event.now))) }
        ensures other { IfOk result (λ offer. offer ≢ Offer.Take → self.new ≡ self.old) }
        ensures err { OnErr result (self.new ≡ self.old) }
        ensures fails_at_take { OnErr result (offer_of self.old.node (events_taken self.old.entries) event.now
            ≡ Offer.Take) }
    {
        let offer = self.recorder.offer(event);
        if offer != Offer::Take {
            return Ok(offer);
        }
        let Some((id, reply)) = told(&event.body) else {
            return Ok(offer);
        };
        let taken = event.try_copy()?;
        let reply = reply.try_copy()?;
        self.recorder.reserve(2)?;
        let place = self.recorder.journal().entries().len() as u32 + 1;
        note_answer(&mut self.table, id, place);
        self.waiting = None;
        self.recorder.take(taken);
        self.recorder.answer(id, reply);
        Ok(offer)
    }
}

// What a lane does with a request, by the request that is kept with its id, whether that is answered, whether
// the lane waits, and whether it has room.
fn decide(
    kept: Option<&Request>,
    answered: bool,
    waiting: bool,
    room: bool,
    request: &Request,
) -> Give
    ensures { result ≡ give_by (option_copied kept.entry) answered waiting room request.now }
{
    if let Some(kept) = kept {
        if kept.ask != request.ask {
            return Give::Differs;
        }
        if answered {
            return Give::Kept;
        }
    }
    if waiting {
        Give::Waiting
    } else if room {
        Give::Asked
    } else {
        Give::Full
    }
}
