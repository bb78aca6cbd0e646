//! Events, and the entries of journals.

ghost use Rattle.std.specs.Prelude.{◌≡◌, IfOk};

use crate::bodies::Body;
use crate::counts::Counts;
use crate::links::Link;
use crate::replies::Reply;
use crate::requests::Request;
use market_amounts::RequestId;
use std::alloc::AllocError;

/// An event: its link, its number there, from 1, the sender's clock, the events of each service link that it
/// rests on, and what it tells.
#[derive(Debug, Drop, PartialEq)]
pub struct Event {
    pub link: Link,
    pub number: u32,
    pub clock: u64,
    pub past: Counts,
    pub body: Body,
}

impl Event {
    /// An equal event.
    pub fn try_copy(&self) -> Result<Event, AllocError>
        ensures { IfOk result (λ copy. copy ≡ self.now) }
    {
        let body = self.body.try_copy()?;
        Ok(Event {
            link: self.link,
            number: self.number,
            clock: self.clock,
            past: self.past,
            body,
        })
    }
}

/// What happened at a node.
#[derive(Debug, Drop, PartialEq)]
pub enum What {
    /// It was given a request.
    Given(Request),
    /// It took an event.
    Taken(Event),
    /// It made an event.
    Made(Event),
    /// It answered a request.
    Answered(RequestId, Reply),
}

/// An entry of a node's journal, with the node's clock.
#[derive(Debug, Drop, PartialEq)]
pub struct Entry {
    pub clock: u64,
    pub what: What,
}

impl Entry {
    /// An equal entry.
    pub fn try_copy(&self) -> Result<Entry, AllocError>
        ensures { IfOk result (λ copy. copy ≡ self.now) }
    {
        let what = match &self.what {
            What::Given(request) => What::Given(request.try_copy()?),
            What::Taken(event) => What::Taken(event.try_copy()?),
            What::Made(event) => What::Made(event.try_copy()?),
            What::Answered(id, reply) => What::Answered(*id, reply.try_copy()?),
        };
        Ok(Entry {
            clock: self.clock,
            what,
        })
    }
}

/// What becomes of an event that is offered to its receiver.
#[derive(Clone, Copy, Debug, PartialEq, Eq)]
pub enum Offer {
    /// It is the next of its link, and all that it rests on was taken.
    Take,
    /// It was taken before.
    Old,
    /// An earlier event of its link is missing.
    Ahead,
    /// An event of another link that it rests on is missing.
    NotReady,
}
