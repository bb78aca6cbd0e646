//! The receiver of a link.

ghost use Rattle.std.specs.Prelude.{◌≡◌, ◌+◌, ◌<◌};
ghost use Rattle.market_events.specs.Offers.{offer_by, is_ready as readiness_of};

use market_events::{Counts, Event, Link, Node, Offer, SERVICE_LINKS, receiver_of};
use std::marker::Model;

/// The receiver of a link. Contracts see how many events were taken on the link.
#[derive(Clone, Copy, Debug, PartialEq, Eq)]
pub struct Receiver {
    count: u32,
}

impl Model for Receiver {
    ghost use Rattle.std.specs.Prelude.{ℕ};

    ghost Value = { ℕ };

    ghost view = { λ receiver. receiver.count };

    ghost inverse = { λ n. record { count = n } };
}

impl Receiver {
    /// A receiver that took nothing.
    pub fn new() -> Receiver
        ensures { result ≡ 0 }
    {
        Receiver { count: 0 }
    }

    /// How many events were taken.
    pub fn count(&self) -> u32
        ensures { result ≡ self.now }
    {
        self.count
    }

    /// What becomes of an event of this link that is offered to the node, which took these counts of events
    /// on the service links. It takes no memory and changes nothing.
    pub fn offer(&self, event: &Event, node: Node, taken: &Counts) -> Offer
        ensures { result ≡ offer_by self.now node taken.now event.now }
    {
        if event.number <= self.count {
            Offer::Old
        } else if event.number - self.count > 1 {
            Offer::Ahead
        } else if is_ready(node, taken, &event.past) {
            Offer::Take
        } else {
            Offer::NotReady
        }
    }

    /// Counts one more event as taken. It requires that fewer than 4,294,967,295 were.
    pub fn advance(&mut self)
        requires { self.old < 4294967295 }
        ensures { self.new ≡ self.old + 1 }
    {
        self.count += 1;
    }
}

// Whether no service link into the node is needed further than it was taken.
fn is_ready(node: Node, taken: &Counts, past: &Counts) -> bool
    ensures { result ≡ readiness_of node taken.now past.now }
{
    for number in 0..SERVICE_LINKS as u8 {
        if receiver_of(Link::Service(number)) == node && past.get(number) > taken.get(number) {
            return false;
        }
    }
    true
}
