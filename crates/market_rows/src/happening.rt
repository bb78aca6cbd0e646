//! What may happen at a node.

ghost use Rattle.std.specs.Prelude.{◌≡◌};
ghost use Rattle.market_rows.specs.Happening.{happens, is_sent_right, asks_own, can_be_kept};
ghost use Rattle.market_rows.specs.Happening.{HasLink};

use crate::carried::carries;
use market_events::{
    Body, Event, Link, Node, Reply, Rule, SERVICES, What, lane_node, lane_of, receiver_of,
    sender_of,
};

// Whether it may happen at the node with this clock.
pub(crate) fn happens(node: Node, clock: u64, what: &What) -> bool
    requires { HasLink what.now }
    ensures { result ≡ happens node clock what.now }
{
    match what {
        What::Given(request) => lane_node(lane_of(request.id)) == node,
        What::Taken(event) => is_sent_right(event) && receiver_of(event.link) == node,
        What::Made(event) => {
            is_sent_right(event) && sender_of(event.link) == node && event.clock == clock
        }
        What::Answered(_, reply) => node.get() >= SERVICES && can_be_kept(reply),
    }
}

// Whether the event's link can carry its body, and a lane asks its own requests.
fn is_sent_right(event: &Event) -> bool
    ensures { result ≡ is_sent_right event.now }
{
    carries(event.link, &event.body) && asks_own(event.link, &event.body)
}

// Whether a lane asks its own requests.
fn asks_own(link: Link, body: &Body) -> bool
    ensures { result ≡ asks_own link body.now }
{
    match (link, body) {
        (Link::Asked(lane, _), Body::Asked(request)) => lane_of(request.id) == lane,
        _ => true,
    }
}

// Whether a lane can keep the reply: it is no refusal that a lane alone gives.
fn can_be_kept(reply: &Reply) -> bool
    ensures { result ≡ can_be_kept reply.now }
{
    !matches!(reply, Reply::Refused(Rule::LaneFull | Rule::RequestDiffers))
}
