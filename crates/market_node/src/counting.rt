//! Counts of the events of service links.

ghost use Rattle.std.specs.Prelude.{◌≡◌, length};
ghost use Rattle.market_events.specs.Counts.{IsMergeOf};
ghost use Rattle.market_events.specs.Links.{IsLink};
ghost use Rattle.market_node.specs.Notes.{raised_on};

use market_events::{Counts, Link};

// Raises the count of the link to at least this number, where it is a service link.
pub fn raise(counts: &mut Counts, link: Link, number: u32)
    requires { IsLink link }
    ensures raised { counts.new ≡ raised_on counts.old link number }
    ensures len { length counts.new ≡ length counts.old }
{
    if let Link::Service(service) = link {
        counts.raise(service, number);
    }
}
