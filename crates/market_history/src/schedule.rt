//! Schedules: steps that nodes are asked to do, and what comes of each.

use market_events::{Link, Offer, Request};

/// What a lane does with a request that it is given. All but `Asked` leave the lane as it is.
#[derive(Clone, Copy, Debug, PartialEq, Eq)]
pub enum Give {
    /// It keeps the request and asks the request's service.
    Asked,
    /// It keeps the id with this content, and has answered it.
    Kept,
    /// It keeps the id with other content.
    Differs,
    /// A request of the lane has no answer yet.
    Waiting,
    /// It keeps as many requests as it can.
    Full,
}

/// A step of a schedule.
#[derive(Clone, Copy, Debug, PartialEq, Eq)]
pub enum Step {
    /// A request is given to its lane.
    Give(Request),
    /// The event of a link with this number is offered to its receiver.
    Offer(Link, u32),
    /// The sender of a link is told that so many of its events were taken.
    Ack(Link, u32),
}

/// What comes of a step.
#[derive(Clone, Copy, Debug, PartialEq, Eq)]
pub enum Outcome {
    /// A request was given.
    Gave(Give),
    /// An event was offered.
    Offered(Offer),
    /// The link's sender has not made an event with this number.
    NeverMade,
    /// A count was told.
    Acked,
}

/// What histories come to.
#[derive(Clone, Copy, Debug, PartialEq, Eq)]
pub struct Summary {
    /// The requests that the lanes keep.
    pub requests: u32,
    /// The checkouts that were answered `whole`.
    pub whole: u32,
    /// The checkouts that were answered `undone`.
    pub undone: u32,
    /// The events that were made and not taken.
    pub outstanding: u32,
    /// The totals of the checkouts that were paid.
    pub confirmed: u128,
    /// The packages.
    pub packages: u32,
    /// The packages that were delivered.
    pub delivered: u32,
}
