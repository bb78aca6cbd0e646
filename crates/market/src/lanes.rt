//! The sixteen lanes, which keep requests for good.

ghost use Rattle.std.specs.Prelude.{◌≡◌, ◌<◌, [], ◌∷◌, ◌++◌, None, IfSome, OnOk, OnErr, nat_lt, length};
ghost use Rattle.std.specs.Option.{option_copied};
ghost use Rattle.market_events.specs.Requests.{lane_of};
ghost use Rattle.market.specs.Lanes.{kept_at, count_in_lane, IsFormed};
ghost use Rattle.market.specs.Output.{undone_kept, whole_kept};

use market_amounts::RequestId;
use market_events::{LANES, Reply, Request};
use std::alloc::{AllocError, Global};
use std::collections::BTreeMap;
use std::marker::Model;

/// The most requests that a lane keeps.
pub const MOST_KEPT: u32 = 16_384;

// How many lanes there are.
const LANE_COUNT: usize = LANES as usize;

/// A kept request with its reply.
#[derive(Debug, Drop)]
pub struct Kept {
    pub request: Request,
    pub reply: Reply,
}

/// What the lanes keep. Contracts see the list of kept requests with their replies, in the order in which
/// they were kept.
#[derive(Debug, Drop)]
pub struct Lanes {
    kept: Vec<Kept>,
    places: BTreeMap<RequestId, usize>,
    counts: [u32; LANE_COUNT],
}

impl Model for Lanes {
    ghost use Rattle.std.specs.Prelude.{List};
    ghost use Rattle.market.specs.declared.lanes.Kept.{Kept};
    ghost use Rattle.market.specs.Lanes.{AreLanesOf};

    ghost Value = { List Kept };

    ghost view = { λ lanes. lanes.kept.items };

    ghost invariant = { λ lanes. AreLanesOf lanes.kept.items lanes.places.entries lanes.counts };
}

impl Lanes {
    /// Lanes that keep nothing.
    pub fn new(alloc: Global) -> Lanes
        ensures { result ≡ [] }
    {
        Lanes {
            kept: Vec::new(alloc),
            places: BTreeMap::new(alloc),
            counts: [0; LANE_COUNT],
        }
    }

    /// How many requests are kept.
    pub fn len(&self) -> usize
        ensures { result ≡ length self.now }
    {
        self.kept.len()
    }

    /// How many of the kept requests were answered `whole`.
    pub fn whole(&self) -> usize
        ensures { result ≡ whole_kept self.now }
    {
        self.kept
            .iter()
            .filter(|kept| matches!(kept.reply, Reply::Whole(_)))
            .count()
    }

    /// How many of the kept requests were answered `undone`.
    pub fn undone(&self) -> usize
        ensures { result ≡ undone_kept self.now }
    {
        self.kept
            .iter()
            .filter(|kept| matches!(kept.reply, Reply::Undone(_)))
            .count()
    }

    /// The kept request with this id, if there is one.
    pub fn find(&self, id: RequestId) -> Option<&Kept>
        ensures found { option_copied result ≡ kept_at self.now id }
        ensures formed { IfSome result (λ kept. IsFormed kept.now) }
    {
        let place = *self.places.get(&id)?;
        self.kept.get(place)
    }

    /// Whether the lane of this id can keep one more request.
    pub fn has_room(&self, id: RequestId) -> bool
        ensures { result ≡ nat_lt (count_in_lane self.now id) MOST_KEPT }
    {
        self.counts[lane(id)] < MOST_KEPT
    }

    /// Keeps a request with a new id, for which its lane has room, and its well-formed reply. On want of
    /// memory nothing changes.
    pub fn keep(&mut self, kept: Kept) -> Result<(), AllocError>
        requires formed { IsFormed kept }
        requires new_id { kept_at self.old kept.request.id ≡ None }
        requires room { count_in_lane self.old kept.request.id < MOST_KEPT }
        ensures ok { OnOk result (self.new ≡ self.old ++ kept ∷ []) }
        ensures err { OnErr result (self.new ≡ self.old) }
    {
        let Kept {
            request: Request { id, ask },
            reply,
        } = kept;
        self.kept.reserve(1)?;
        self.places.insert(id, self.kept.len())?;
        self.kept.push(Kept {
            request: Request { id, ask },
            reply,
        })?;
        self.counts[lane(id)] += 1;
        Ok(())
    }
}

// The lane of an id.
fn lane(id: RequestId) -> usize
    ensures value { result ≡ lane_of id }
    ensures in_range { result < LANE_COUNT }
{
    id.caller as usize % LANE_COUNT
}
