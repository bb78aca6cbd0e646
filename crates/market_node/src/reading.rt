//! What an entry tells of a link or of a request, and what a body tells.

ghost use Rattle.std.specs.Prelude.{◌≡◌, is_some, IfSome};
ghost use Rattle.std.specs.Option.{option_copied};
ghost use Rattle.market_history.specs.Once.{reply_in as reply_by_entry};
ghost use Rattle.market_history.specs.Sent.{event_made_on as made_by_entry};
ghost use Rattle.market_node.specs.Keeping.{given_in as given_by_entry, is_told};

use market_amounts::RequestId;
use market_events::{Body, Entry, Event, Link, Reply, Request, What};

// The event that it made on the link, where it did.
pub fn made_on(entry: &Entry, link: Link) -> Option<&Event>
    ensures { option_copied result ≡ made_by_entry link entry.now.what }
{
    match &entry.what {
        What::Made(event) if event.link == link => Some(event),
        _ => None,
    }
}

// The request with this id that it gave, where it did.
pub fn given_in(entry: &Entry, id: RequestId) -> Option<&Request>
    ensures { option_copied result ≡ given_by_entry id entry.now.what }
{
    match &entry.what {
        What::Given(request) if request.id == id => Some(request),
        _ => None,
    }
}

// The reply with which it answered this id, where it did.
pub fn reply_in(entry: &Entry, id: RequestId) -> Option<&Reply>
    ensures { option_copied result ≡ reply_by_entry id entry.now.what }
{
    match &entry.what {
        What::Answered(answered, reply) if *answered == id => Some(reply),
        _ => None,
    }
}

// The reply that a body tells, and the id of its request, where it tells one.
pub fn told(body: &Body) -> Option<(RequestId, &Reply)>
    ensures some { IfSome result (λ it. body.now ≡ Body.Told it.0 it.1.now) }
    ensures tells { is_some result ≡ is_told body.now }
{
    match body {
        Body::Told(id, reply) => Some((*id, reply)),
        _ => None,
    }
}
