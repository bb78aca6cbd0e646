//! The tables of the links, written out again.

use market_amounts::{Cents, ProductKey};
use market_events::{
    Ask, LANES, Link, Role, SERVICE_LINKS, SERVICES, link_index, receiver_of, sender_of, service_of,
};
use std::test::Fail;

const ENDS: [(Role, Role); SERVICE_LINKS] = [
    (Role::Product, Role::Cart),
    (Role::Product, Role::Stock),
    (Role::Cart, Role::Stock),
    (Role::Stock, Role::Cart),
    (Role::Stock, Role::Order),
    (Role::Order, Role::Payment),
    (Role::Order, Role::Seller),
    (Role::Order, Role::Cart),
    (Role::Payment, Role::Stock),
    (Role::Payment, Role::Order),
    (Role::Payment, Role::Shipment),
    (Role::Payment, Role::Customer),
    (Role::Payment, Role::Seller),
    (Role::Shipment, Role::Order),
    (Role::Shipment, Role::Seller),
    (Role::Shipment, Role::Customer),
];

// The services in the order of their nodes.
const IN_ORDER: [Role; SERVICES as usize] = [
    Role::Cart,
    Role::Product,
    Role::Stock,
    Role::Order,
    Role::Payment,
    Role::Shipment,
    Role::Customer,
    Role::Seller,
];

#[test]
fn nodes_of_services_in_order(rt: HostRuntime) -> Result<(), Fail> {
    for number in 0..SERVICES {
        assert_eq!(rt; IN_ORDER[number as usize].node().get(), number);
    }
    Ok(())
}

#[test]
fn each_place_once(rt: HostRuntime) -> Result<(), Fail> {
    let mut next = 0u32;
    for number in 0..SERVICE_LINKS as u8 {
        assert_eq!(rt; link_index(Link::Service(number)), next);
        next += 1;
    }
    for lane in 0..LANES as u8 {
        for service in 0..SERVICES as u8 {
            assert_eq!(rt; link_index(Link::Asked(lane, service)), next);
            next += 1;
        }
    }
    for lane in 0..LANES as u8 {
        for service in 0..SERVICES as u8 {
            assert_eq!(rt; link_index(Link::Told(service, lane)), next);
            next += 1;
        }
    }
    assert_eq!(rt; next, 272);
    Ok(())
}

#[test]
fn both_ends(rt: HostRuntime) -> Result<(), Fail> {
    for number in 0..SERVICE_LINKS as u8 {
        let (from, to) = ENDS[number as usize];
        assert_eq!(rt; sender_of(Link::Service(number)), from.node());
        assert_eq!(rt; receiver_of(Link::Service(number)), to.node());
    }
    for lane in 0..LANES as u8 {
        for service in 0..SERVICES as u8 {
            let at = SERVICES + u32::from(lane);
            assert_eq!(rt; sender_of(Link::Asked(lane, service)).get(), at);
            assert_eq!(rt;
                receiver_of(Link::Asked(lane, service)).get(),
                u32::from(service)
            );
            assert_eq!(rt;
                sender_of(Link::Told(service, lane)).get(),
                u32::from(service)
            );
            assert_eq!(rt; receiver_of(Link::Told(service, lane)).get(), at);
        }
    }
    Ok(())
}

#[test]
fn services_of_requests(rt: HostRuntime) -> Result<(), Fail> {
    let key = ProductKey {
        seller: 3,
        product: 40,
    };
    let price = Cents::try_new(1000)?;
    assert_eq!(rt;
        service_of(&Ask::Create(key, price, price)),
        Role::Product.node()
    );
    assert_eq!(rt; service_of(&Ask::Price(key, price)), Role::Product.node());
    assert_eq!(rt; service_of(&Ask::View(key)), Role::Cart.node());
    Ok(())
}
