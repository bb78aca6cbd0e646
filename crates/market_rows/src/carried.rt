//! Which bodies a link can carry.

ghost use Rattle.std.specs.Prelude.{◌≡◌, ◌==◌};
ghost use Rattle.market_events.specs.Carried.{carries, service_carries, can_reply};
ghost use Rattle.market_events.specs.Carried.{can_refuse};
ghost use Rattle.market_events.specs.Links.{node_of};
ghost use Rattle.market_events.specs.declared.links.Link.TheVariants.{Service};

use market_events::{
    Body, CART_TO_STOCK, Link, ORDER_TO_CART, ORDER_TO_PAYMENT, ORDER_TO_SELLER,
    PAYMENT_TO_CUSTOMER, PAYMENT_TO_ORDER, PAYMENT_TO_SELLER, PAYMENT_TO_SHIPMENT,
    PAYMENT_TO_STOCK, PRODUCT_TO_CART, PRODUCT_TO_STOCK, Reply, Role, Rule, SHIPMENT_TO_CUSTOMER,
    SHIPMENT_TO_ORDER, SHIPMENT_TO_SELLER, STOCK_TO_CART, STOCK_TO_ORDER, service_of,
};

// Whether the link can carry the body.
pub(crate) fn carries(link: Link, body: &Body) -> bool
    ensures { result ≡ carries link body.now }
{
    match (link, body) {
        (Link::Service(_), _) => service_carries(link, body),
        (Link::Asked(_, service), Body::Asked(request)) => {
            service_of(&request.ask).get() == u32::from(service)
        }
        (Link::Told(service, _), Body::Told(_, reply)) => can_reply(service, reply),
        _ => false,
    }
}

// Whether the link between services can carry the body.
fn service_carries(link: Link, body: &Body) -> bool
    ensures { result ≡ service_carries link body.now }
{
    match body {
        Body::Changed(..) => link == PRODUCT_TO_CART || link == PRODUCT_TO_STOCK,
        Body::Reserve(..) => link == CART_TO_STOCK,
        Body::ReserveFailed(..) => link == STOCK_TO_CART,
        Body::StockConfirmed(..) => link == STOCK_TO_ORDER,
        Body::Invoice(..) => link == ORDER_TO_PAYMENT || link == ORDER_TO_SELLER,
        Body::Ended(..) => link == ORDER_TO_CART,
        Body::Confirmed(..) => {
            link == PAYMENT_TO_STOCK
                || link == PAYMENT_TO_ORDER
                || link == PAYMENT_TO_SHIPMENT
                || link == PAYMENT_TO_CUSTOMER
                || link == PAYMENT_TO_SELLER
        }
        Body::Failed(..) => {
            link == PAYMENT_TO_STOCK
                || link == PAYMENT_TO_ORDER
                || link == PAYMENT_TO_CUSTOMER
                || link == PAYMENT_TO_SELLER
        }
        Body::Shipped(_) => link == SHIPMENT_TO_ORDER || link == SHIPMENT_TO_SELLER,
        Body::Delivered(_) => {
            link == SHIPMENT_TO_ORDER || link == SHIPMENT_TO_SELLER || link == SHIPMENT_TO_CUSTOMER
        }
        Body::Asked(_) | Body::Told(..) => false,
    }
}

// Whether some request for the service can have this reply.
fn can_reply(service: u8, reply: &Reply) -> bool
    ensures { result ≡ can_reply service reply.now }
{
    match reply {
        Reply::Created(_) | Reply::Priced(_) | Reply::Deleted(_) => is(service, Role::Product),
        Reply::View(..) | Reply::Line(_) | Reply::Removed => is(service, Role::Cart),
        Reply::Whole(_) | Reply::Undone(_) => is(service, Role::Cart),
        Reply::Stocked(_) | Reply::Level(..) => is(service, Role::Stock),
        Reply::OrderState(..) => is(service, Role::Order),
        Reply::Card(_) => is(service, Role::Payment),
        Reply::Delivered(..) => is(service, Role::Shipment),
        Reply::Customer(..) => is(service, Role::Customer),
        Reply::Dashboard(..) => is(service, Role::Seller),
        Reply::Refused(rule) => can_refuse(service, *rule),
    }
}

// Whether the service can refuse by the rule: by two of them lanes alone do.
fn can_refuse(service: u8, rule: Rule) -> bool
    ensures { result ≡ can_refuse service rule }
{
    match rule {
        Rule::Exists => is(service, Role::Product),
        Rule::Unknown | Rule::Gone => {
            is(service, Role::Product) || is(service, Role::Cart) || is(service, Role::Stock)
        }
        Rule::CartFull | Rule::NoLine => is(service, Role::Cart),
        Rule::StockOver => is(service, Role::Stock),
        Rule::NoOrder => is(service, Role::Order),
        Rule::LaneFull | Rule::RequestDiffers => false,
    }
}

// Whether the number is that of the service.
fn is(service: u8, role: Role) -> bool
    ensures { result ≡ (service == node_of role) }
{
    service == role.number()
}
