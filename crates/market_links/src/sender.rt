//! The sender of a link.

ghost use Rattle.std.specs.Prelude.{◌≡◌, ◌+◌, ◌<◌, ◌≤◌, drop, max, [], vec_len, vec_capacity, IsOk, OnOk};
ghost use Rattle.std.specs.Prelude.{OnErr, IfErr};
ghost use Rattle.market_links.specs.SenderStates.{next_number, with_event, with_ack, with_release, window_of};
ghost use Rattle.market_links.specs.SenderStates.{IsSenderState};

use market_events::{Event, Link};
use std::alloc::{AllocError, Global};
use std::marker::Model;

// How many events are sent at once.
const WINDOW: usize = 7;

/// The sender of a link, with the events that were appended and not yet acknowledged. Contracts see a
/// `SenderState`: the link, those events, how many events were acknowledged and how many released, and how
/// many may be appended without taking memory. The numbers of the events go from 1 to 4,294,967,295.
///
/// `append`, `reserve` and `reserve_more` alone take memory. Acknowledged events are forgotten: at most as
/// many of them are kept as are under way. Each call takes constant time, where the cost of moving events is
/// spread over those appended and acknowledged.
#[derive(Debug, Drop)]
pub struct Sender {
    link: Link,
    // The first `gone` of them are acknowledged.
    events: Vec<Event>,
    gone: usize,
    acknowledged: u32,
    released: u32,
    appended: u32,
    spare: usize,
}

impl Model for Sender {
    ghost use Rattle.std.specs.Prelude.{◌+◌, ◌≤◌, drop, vec_len, vec_capacity};
    ghost use Rattle.market_links.specs.SenderStates.{SenderState, IsSenderState};

    ghost Value = { SenderState };

    ghost use Rattle.market_links.specs.Senders.{state_of, IsKept};

    ghost view = { state_of };

    ghost invariant = { IsKept };
}

impl Sender {
    /// A sender of the link that has no events.
    pub fn new(alloc: Global, link: Link) -> Sender
        ensures { result ≡ record { link = link; under_way = []; acknowledged = 0; released = 0; spare = 0 } }
    {
        Sender {
            link,
            events: Vec::new(alloc),
            gone: 0,
            acknowledged: 0,
            released: 0,
            appended: 0,
            spare: 0,
        }
    }

    /// Appends an event, which is not released yet. It requires the sender's link and the next number: one
    /// more than the events that were appended. With a spare place it takes no memory, uses that place and
    /// succeeds. On want of memory the event comes back, and the sender is as before.
    pub fn append(&mut self, event: Event) -> Result<(), Event>
        requires link { event.link ≡ self.old.link }
        requires next { event.number ≡ next_number self.old }
        ensures ok { OnOk result (self.new ≡ with_event self.old event) }
        ensures spare { 0 < self.old.spare → IsOk result }
        ensures returned { IfErr result (λ back. back ≡ event) }
        ensures err { OnErr result (self.new ≡ self.old) }
    {
        let number = event.number;
        match self.events.push(event) {
            Ok(()) => {
                self.appended = number;
                self.spare = self.spare.saturating_sub(1);
                Ok(())
            }
            Err(failed) => Err(failed.value),
        }
    }

    /// Makes at least one spare place. On want of memory the sender is as before.
    pub fn reserve(&mut self) -> Result<(), AllocError>
        ensures ok { OnOk result (self.new ≡ record self.old { spare = max self.old.spare 1 }) }
        ensures err { OnErr result (self.new ≡ self.old) }
    {
        self.reserve_more(1)
    }

    /// Makes at least so many spare places. On want of memory the sender is as before.
    pub fn reserve_more(&mut self, more: u32) -> Result<(), AllocError>
        ensures ok { OnOk result (self.new ≡ record self.old { spare = max self.old.spare more }) }
        ensures err { OnErr result (self.new ≡ self.old) }
    {
        let more = more as usize;
        if more > self.spare {
            self.events.reserve(more)?;
            self.spare = more;
        }
        Ok(())
    }

    /// Takes an acknowledgment of the first `count` events. Where that is more than before, and no more than
    /// were released, the events up to it are forgotten; any other count changes nothing.
    pub fn ack(&mut self, count: u32)
        ensures { self.new ≡ with_ack self.old count }
    {
        if count <= self.acknowledged || count > self.released {
            return;
        }
        self.gone += (count - self.acknowledged) as usize;
        self.acknowledged = count;
        if self.gone > self.events.len() - self.gone {
            drop_front(&mut self.events, self.gone);
            self.gone = 0;
        }
    }

    /// Releases every event that was appended.
    pub fn release(&mut self)
        ensures { self.new ≡ with_release self.old }
    {
        self.released = self.appended;
    }

    /// The first seven, or fewer, of the released events that are not acknowledged, oldest first.
    pub fn window(&self) -> &[Event]
        ensures shown { result.now ≡ window_of self.now }

        // The events under way are of the link, and numbered from the acknowledged count on.
        ensures sound { IsSenderState self.now }
    {
        let released = (self.released - self.acknowledged) as usize;
        let end = self.gone + released.min(WINDOW);
        &self.events[self.gone..end]
    }
}

// Takes the first events out, in time of the number of events. The block stays.
fn drop_front(events: &mut Vec<Event>, gone: usize)
    requires { gone ≤ vec_len events.old }
    ensures items { events.new.items ≡ drop gone events.old.items }
    ensures len { vec_len events.new + gone ≡ vec_len events.old }
    ensures capacity { vec_capacity events.new ≡ vec_capacity events.old }
{
    events.rotate_left(gone);
    let kept = events.len() - gone;
    events.truncate(kept);
}
