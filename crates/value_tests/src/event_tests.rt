//! Copies of events and entries, which succeed here, and counts of events.

use market_amounts::{ProductKey, RequestId};
use market_events::{
    Ask, Body, CART_TO_STOCK, Counts, Entry, Event, PRODUCT_TO_STOCK, Reply, Request,
    STOCK_TO_CART, What, link_index,
};
use std::test::Fail;

#[test]
fn entries_are_copied(rt: HostRuntime) -> Result<(), Fail> {
    let id = RequestId {
        caller: 5,
        number: 9,
    };
    let key = ProductKey {
        seller: 3,
        product: 40,
    };
    let given = Entry {
        clock: 6,
        what: What::Given(Request {
            id,
            ask: Ask::View(key),
        }),
    };
    assert_eq!(rt; given.try_copy()?, given);
    let answered = Entry {
        clock: 6,
        what: What::Answered(id, Reply::Created(1)),
    };
    assert_eq!(rt; answered.try_copy()?, answered);
    assert_ne!(rt; answered, given);
    Ok(())
}

#[test]
fn events_are_copied(rt: HostRuntime) -> Result<(), Fail> {
    let event = Event {
        link: PRODUCT_TO_STOCK,
        number: 2,
        clock: 6,
        past: Counts::zero(),
        body: Body::Shipped(RequestId {
            caller: 5,
            number: 9,
        }),
    };
    assert_eq!(rt; event.try_copy()?, event);
    let made = Entry {
        clock: 6,
        what: What::Made(event),
    };
    assert_eq!(rt; made.try_copy()?, made);
    Ok(())
}

#[test]
fn counts_rise(rt: HostRuntime) {
    let raised = link_index(STOCK_TO_CART) as u8;
    let merged = link_index(PRODUCT_TO_STOCK) as u8;
    let left = link_index(CART_TO_STOCK) as u8;
    let mut past = Counts::zero();
    past.raise(raised, 7);
    past.raise(raised, 2);
    let mut other = Counts::zero();
    other.raise(raised, 5);
    other.raise(merged, 4);
    past.merge(&other);
    assert_eq!(rt; past.get(merged), 4);
    assert_eq!(rt; past.get(left), 0);
    assert_eq!(rt; past.get(raised), 7);
}
