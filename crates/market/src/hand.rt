//! Requests taken in one after the other: a lane keeps each once, and the services answer it at once.

ghost use Rattle.std.specs.Prelude.{◌≡◌, List, [], ◌∷◌, ◌++◌, not, is_some, ◌&&◌, nat_lt, length, IfOk, OnOk};
ghost use Rattle.market.specs.Once.{answer_kept};
ghost use Rattle.market_events.specs.declared.requests.Request.{Request};
ghost use Rattle.market_events.specs.WellFormed.{IsRequest, IsReply};
ghost use Rattle.market.specs.Hand.{kept_replies, HandStands};
ghost use Rattle.market.specs.Lanes.{kept_at, count_in_lane};
ghost use Rattle.market.specs.Output.{undone_kept, whole_kept};

use crate::lanes::{Kept, Lanes, MOST_KEPT};
use crate::services::Services;
use market_amounts::RequestId;
use market_events::{Reply, Request, Rule};
use std::alloc::{AllocError, Global};

/// The lanes, and the services behind them. It stands for the requests that it was given, in order.
#[derive(Drop)]
pub struct Hand {
    lanes: Lanes,
    services: Services,
}

impl Hand {
    /// Nothing was given.
    pub fn new(alloc: Global) -> Hand
        ensures { HandStands result [] }
    {
        Hand {
            lanes: Lanes::new(alloc),
            services: Services::new(alloc),
        }
    }

    /// How many requests are kept.
    pub fn len(&self) -> usize
        ensures { (given : List Request) → HandStands self.now given → result ≡ length (kept_replies given) }
    {
        self.lanes.len()
    }

    /// How many of the kept requests were answered `whole`.
    pub fn whole(&self) -> usize
        ensures { (given : List Request) → HandStands self.now given
            → result ≡ whole_kept (kept_replies given) }
    {
        self.lanes.whole()
    }

    /// How many of the kept requests were answered `undone`.
    pub fn undone(&self) -> usize
        ensures { (given : List Request) → HandStands self.now given
            → result ≡ undone_kept (kept_replies given) }
    {
        self.lanes.undone()
    }

    /// Answers a request, which requires one that is well formed. One with a new id whose lane has room is
    /// kept, and its service answers it. The answer to any other is `request_differs` where the id is kept
    /// with other content, the kept reply where it is kept with this one, and `lane_full` where it is not
    /// kept. After want of memory this is given up.
    pub fn answer(&mut self, request: &Request) -> Result<Reply, AllocError>
        requires formed { IsRequest request.now }
        requires stands { ∥ ((given : List Request) × HandStands self.old given) ∥₁ }
        ensures answered { IfOk result (λ reply. (given : List Request) → HandStands self.old given
            → reply ≡ answer_kept (kept_replies (given ++ request.now ∷ [])) request.now) }
        ensures formed { IfOk result IsReply }
        ensures stands_on { OnOk result ((given : List Request) → HandStands self.old given
            → HandStands self.new (given ++ request.now ∷ [])) }
    {
        self.take(request)?;
        reply_kept(&self.lanes, request)
    }

    // Takes a request in: it is kept and answered, unless its id is kept or its lane has no room.
    fn take(&mut self, request: &Request) -> Result<(), AllocError>
        requires formed { IsRequest request.now }
        requires stands { ∥ ((given : List Request) × HandStands self.old given) ∥₁ }
        ensures { OnOk result ((given : List Request) → HandStands self.old given
            → HandStands self.new (given ++ request.now ∷ [])) }
    {
        let Request { id, ask } = *request;
        if !can_keep(&self.lanes, id) {
            return Ok(());
        }
        let reply = self.services.ask(request)?;
        self.lanes.keep(Kept {
            request: Request { id, ask },
            reply,
        })?;
        Ok(())
    }
}

// Whether the id is new and its lane has room.
fn can_keep(lanes: &Lanes, id: RequestId) -> bool
    ensures { result
        ≡ (not (is_some (kept_at lanes.now id)) && nat_lt (count_in_lane lanes.now id) MOST_KEPT) }
{
    lanes.find(id).is_none() && lanes.has_room(id)
}

// The answer to a request by what is kept.
fn reply_kept(lanes: &Lanes, request: &Request) -> Result<Reply, AllocError>
    ensures value { IfOk result (λ reply. reply ≡ answer_kept lanes.now request.now) }
    ensures formed { IfOk result IsReply }
{
    match lanes.find(request.id) {
        None => Ok(Reply::Refused(Rule::LaneFull)),
        Some(kept) if kept.request.ask == request.ask => kept.reply.try_copy(),
        Some(_) => Ok(Reply::Refused(Rule::RequestDiffers)),
    }
}
