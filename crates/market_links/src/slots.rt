//! Slots: each link that leads into a node has a slot there, and so has each that leads out of it.

ghost use Rattle.std.specs.Prelude.{◌≡◌, ◌<◌, Some, IfSome};
ghost use Rattle.market_events.specs.declared.links.Link.{Link};
ghost use Rattle.market_events.specs.Links.{IsLink, sender_of as sender_by_link};
ghost use Rattle.market_events.specs.Links.{receiver_of as receiver_by_link};
ghost use Rattle.market_links.specs.Slots.{slot_into, slot_from};

use market_events::{LANES, Link, Node, SERVICE_LINKS, SERVICES, receiver_of, sender_of};

/// How many slots a node has for links of each kind: one for each service link, and one for each lane or
/// service.
pub const SLOTS: usize = SERVICE_LINKS + LANES as usize;

/// The slot of a link at its receiver. It requires a link: its numbers in their ranges.
pub fn slot_at_receiver(link: Link) -> usize
    requires { IsLink link }
    ensures value { result ≡ slot_into link }
    ensures in_range { result < SLOTS }
{
    match link {
        Link::Service(number) => usize::from(number),
        Link::Asked(lane, _) => SERVICE_LINKS + usize::from(lane),
        Link::Told(service, _) => SERVICE_LINKS + usize::from(service),
    }
}

/// The slot of a link at its sender. It requires a link: its numbers in their ranges.
pub fn slot_at_sender(link: Link) -> usize
    requires { IsLink link }
    ensures value { result ≡ slot_from link }
    ensures in_range { result < SLOTS }
{
    match link {
        Link::Service(number) => usize::from(number),
        Link::Asked(_, service) => SERVICE_LINKS + usize::from(service),
        Link::Told(_, lane) => SERVICE_LINKS + usize::from(lane),
    }
}

/// The link out of a node that has this slot there, where one has it.
pub fn link_from(node: Node, slot: usize) -> Option<Link>
    requires { slot < SLOTS }
    ensures link { IfSome result (λ link. IsLink link) }
    ensures from { IfSome result (λ link. sender_by_link link ≡ node) }
    ensures at_slot { IfSome result (λ link. slot_from link ≡ slot) }
    ensures found { (link : Link) → IsLink link → sender_by_link link ≡ node → slot_from link ≡ slot
        → result ≡ Some link }
{
    if slot < SERVICE_LINKS {
        let link = Link::Service(slot as u8);
        return (sender_of(link) == node).then_some(link);
    }
    let (number, other) = (node.get(), (slot - SERVICE_LINKS) as u32);
    if number < SERVICES {
        Some(Link::Told(number as u8, other as u8))
    } else if other < SERVICES {
        Some(Link::Asked((number - SERVICES) as u8, other as u8))
    } else {
        None
    }
}

/// The link into a node that has this slot there, where one has it.
pub fn link_into(node: Node, slot: usize) -> Option<Link>
    requires { slot < SLOTS }
    ensures link { IfSome result (λ link. IsLink link) }
    ensures into { IfSome result (λ link. receiver_by_link link ≡ node) }
    ensures at_slot { IfSome result (λ link. slot_into link ≡ slot) }
    ensures found { (link : Link) → IsLink link → receiver_by_link link ≡ node → slot_into link ≡ slot
        → result ≡ Some link }
{
    if slot < SERVICE_LINKS {
        let link = Link::Service(slot as u8);
        return (receiver_of(link) == node).then_some(link);
    }
    let (number, other) = (node.get(), (slot - SERVICE_LINKS) as u32);
    if number < SERVICES {
        Some(Link::Asked(other as u8, number as u8))
    } else if other < SERVICES {
        Some(Link::Told(other as u8, (number - SERVICES) as u8))
    } else {
        None
    }
}
