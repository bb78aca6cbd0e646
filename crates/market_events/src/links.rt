//! The links between the nodes: who sends on each, and who receives.

ghost use Rattle.std.specs.Prelude.{◌≡◌, ◌<◌};
ghost use Rattle.market_events.specs.Links.{IsLink, index_of, sender_of as sender_by_link};
ghost use Rattle.market_events.specs.Links.{receiver_of as receiver_by_link, service_by_ask, asking, telling};
ghost use Rattle.market_events.specs.Links.{node_of};

use crate::lanes::{LANES, lane_node, lane_of};
use crate::nodes::Node;
use crate::requests::{Ask, Request};
use crate::roles::{Role, SERVICES};
use market_amounts::RequestId;

/// How many links there are between services.
pub const SERVICE_LINKS: usize = 16;

/// How many links there are: those between services, and one from each lane to each service and back.
pub const LINKS: u32 = FIRST_TOLD + LANES * SERVICES;

// The index of the first link from a lane, and of the first link to one.
const FIRST_ASKED: u32 = 16;

const FIRST_TOLD: u32 = FIRST_ASKED + LANES * SERVICES;

// The sender and the receiver of each service link.
const SERVICE_ENDS: [(Role, Role); SERVICE_LINKS] = [
    (Role::Product, Role::Cart),
    (Role::Product, Role::Stock),
    (Role::Cart, Role::Stock),
    (Role::Stock, Role::Cart),
    (Role::Stock, Role::Order),
    (Role::Order, Role::Payment),
    (Role::Order, Role::Seller),
    (Role::Order, Role::Cart),
    (Role::Payment, Role::Stock),
    (Role::Payment, Role::Order),
    (Role::Payment, Role::Shipment),
    (Role::Payment, Role::Customer),
    (Role::Payment, Role::Seller),
    (Role::Shipment, Role::Order),
    (Role::Shipment, Role::Seller),
    (Role::Shipment, Role::Customer),
];

/// A link, on which one node sends events to another. Lanes are 0 to 15, services 0 to 7.
#[derive(Clone, Copy, Debug, PartialEq, Eq, PartialOrd, Ord)]
pub enum Link {
    /// Between two services, by its number, below `SERVICE_LINKS`.
    Service(u8),
    /// From a lane to a service.
    Asked(u8, u8),
    /// From a service to a lane.
    Told(u8, u8),
}

/// From products to the cart.
pub const PRODUCT_TO_CART: Link = Link::Service(0);

/// From products to stock.
pub const PRODUCT_TO_STOCK: Link = Link::Service(1);

/// From the cart to stock.
pub const CART_TO_STOCK: Link = Link::Service(2);

/// From stock to the cart.
pub const STOCK_TO_CART: Link = Link::Service(3);

/// From stock to orders.
pub const STOCK_TO_ORDER: Link = Link::Service(4);

/// From orders to payments.
pub const ORDER_TO_PAYMENT: Link = Link::Service(5);

/// From orders to sellers.
pub const ORDER_TO_SELLER: Link = Link::Service(6);

/// From orders to the cart.
pub const ORDER_TO_CART: Link = Link::Service(7);

/// From payments to stock.
pub const PAYMENT_TO_STOCK: Link = Link::Service(8);

/// From payments to orders.
pub const PAYMENT_TO_ORDER: Link = Link::Service(9);

/// From payments to shipments.
pub const PAYMENT_TO_SHIPMENT: Link = Link::Service(10);

/// From payments to customers.
pub const PAYMENT_TO_CUSTOMER: Link = Link::Service(11);

/// From payments to sellers.
pub const PAYMENT_TO_SELLER: Link = Link::Service(12);

/// From shipments to orders.
pub const SHIPMENT_TO_ORDER: Link = Link::Service(13);

/// From shipments to sellers.
pub const SHIPMENT_TO_SELLER: Link = Link::Service(14);

/// From shipments to customers.
pub const SHIPMENT_TO_CUSTOMER: Link = Link::Service(15);

/// The link's place among all links, from 0. It requires a link: its numbers in their ranges.
pub fn link_index(link: Link) -> u32
    requires { IsLink link }
    ensures { result ≡ index_of link }
{
    match link {
        Link::Service(number) => u32::from(number),
        Link::Asked(lane, service) => FIRST_ASKED + SERVICES * u32::from(lane) + u32::from(service),
        Link::Told(service, lane) => FIRST_TOLD + SERVICES * u32::from(lane) + u32::from(service),
    }
}

/// The link with this place among all links, which requires a place below `LINKS`.
pub fn link_at(index: u32) -> Link
    requires { index < LINKS }
    ensures link { IsLink result }
    ensures index { index_of result ≡ index }
{
    if index < FIRST_ASKED {
        return Link::Service(index as u8);
    }
    if index < FIRST_TOLD {
        let place = index - FIRST_ASKED;
        return Link::Asked((place / SERVICES) as u8, (place % SERVICES) as u8);
    }
    let place = index - FIRST_TOLD;
    Link::Told((place % SERVICES) as u8, (place / SERVICES) as u8)
}

/// The node that sends on the link. It requires a link: its numbers in their ranges.
pub fn sender_of(link: Link) -> Node
    requires { IsLink link }
    ensures { result ≡ sender_by_link link }
{
    match link {
        Link::Service(number) => SERVICE_ENDS[number as usize].0.node(),
        Link::Asked(lane, _) => lane_node(lane),
        Link::Told(service, _) => Node::at(u32::from(service)),
    }
}

/// The node that receives on the link. It requires a link: its numbers in their ranges.
pub fn receiver_of(link: Link) -> Node
    requires { IsLink link }
    ensures { result ≡ receiver_by_link link }
{
    match link {
        Link::Service(number) => SERVICE_ENDS[number as usize].1.node(),
        Link::Asked(_, service) => Node::at(u32::from(service)),
        Link::Told(_, lane) => lane_node(lane),
    }
}

/// The service that a request is for.
pub fn service_of(ask: &Ask) -> Node
    ensures { result ≡ service_by_ask ask.now }
{
    match ask {
        Ask::Create(..) | Ask::Price(..) | Ask::Delete(_) => Role::Product.node(),
        Ask::View(_) | Ask::Line(..) | Ask::Remove(..) | Ask::Checkout(_) => Role::Cart.node(),
        Ask::Stock(..) | Ask::Level(_) => Role::Stock.node(),
        Ask::Order(_) => Role::Order.node(),
        Ask::Card(..) => Role::Payment.node(),
        Ask::Deliver => Role::Shipment.node(),
        Ask::Customer(_) => Role::Customer.node(),
        Ask::Dashboard(_) => Role::Seller.node(),
    }
}

/// The link on which the lane of a request asks its service.
pub fn asking_link(request: &Request) -> Link
    ensures { result ≡ asking request.now }
{
    Link::Asked(lane_of(request.id), service_of(&request.ask).get() as u8)
}

/// The link on which a service tells the lane of a request its reply.
pub fn telling_link(service: Role, id: RequestId) -> Link
    ensures { result ≡ telling (node_of service) id }
{
    Link::Told(service.number(), lane_of(id))
}
