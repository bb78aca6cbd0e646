//! The ends of all links, brought together one link after the other.

ghost use Rattle.std.specs.Prelude.{◌≡◌, ℕ, length, is_some, true, Some};
ghost use Rattle.market_events.specs.declared.links.Link.{Link};
ghost use Rattle.market_events.specs.declared.nodes.TheConstants.{NODES};
ghost use Rattle.market_events.specs.Links.{IsLink, sender_of as sender_by_link};
ghost use Rattle.market_events.specs.Links.{receiver_of as receiver_by_link};
ghost use Rattle.market_rings.specs.declared.link_ends.LinkIn.{LinkIn};
ghost use Rattle.market_rings.specs.NodeEnds.{AreJoined, in_at};
ghost use Rattle.market_rings.specs.Wiring.{ends_of};
ghost use Rattle.market_rounds.specs.Meetings.{IsMeeting};
ghost use Rattle.market_rounds.specs.Rounds.{HasMetBetween};

use market_events::{LINKS, Link, link_at, receiver_of, sender_of};
use market_rings::{Ends, meet};

// Brings the ends of a link together, which are those of two of the nodes.
fn meet_at(all: &mut [Ends], link: Link)
    requires link { IsLink link }
    requires many { length all.old ≡ NODES }
    requires joined { AreJoined (ends_of all.old (sender_by_link link))
        (ends_of all.old (receiver_by_link link)) link }
    ensures { IsMeeting all.old all.new link }
{
    let from = sender_of(link).get() as usize;
    let to = receiver_of(link).get() as usize;
    if from < to {
        let (low, high) = all.split_at_mut(to);
        meet(&mut low[from], &mut high[0], link);
    } else if to < from {
        let (low, high) = all.split_at_mut(from);
        meet(&mut high[0], &mut low[to], link);
    }
}

// Brings the ends of all links together, which are those of the nodes 0 to 23 in order.
pub fn meet_all(all: &mut [Ends])
    requires many { length all.old ≡ NODES }
    requires joined { (link : Link) → IsLink link → AreJoined (ends_of all.old (sender_by_link link))
        (ends_of all.old (receiver_by_link link)) link }
    ensures many { length all.new ≡ NODES }
    ensures met { (link : Link) → IsLink link → HasMetBetween link (ends_of all.old (sender_by_link link))
        (ends_of all.old (receiver_by_link link)) (ends_of all.new (sender_by_link link))
        (ends_of all.new (receiver_by_link link)) }
    ensures only { (n slot : ℕ) (into : LinkIn) → in_at (ends_of all.new n) slot ≡ Some into
        → is_some (in_at (ends_of all.old n) slot) ≡ true }
{
    for index in 0..LINKS {
        meet_at(all, link_at(index));
    }
}
