//! A receiver and a sender, step by step; the values are worked out by hand.

ghost use Rattle.std.specs.Prelude.{◌≡◌};
ghost use Rattle.market_events.specs.declared.links.TheConstants.{CART_TO_STOCK};

use crate::receiver::Receiver;
use crate::sender::Sender;
use market_amounts::{ProductKey, RequestId};
use market_events::{
    Ask, Body, CART_TO_STOCK, Counts, Event, Offer, PRODUCT_TO_STOCK, Request, Role, link_index,
};
use std::process::Abort;
use std::test::Fail;

// An event from the cart to stock that rests on `needed` events from products to stock.
fn event(number: u32, needed: u32, request: &Request) -> Event
    ensures link { result.link ≡ CART_TO_STOCK }
    ensures number { result.number ≡ number }
{
    let mut past = Counts::zero();
    past.raise(link_index(PRODUCT_TO_STOCK) as u8, needed);
    Event {
        link: CART_TO_STOCK,
        number,
        clock: 5,
        past,
        body: Body::Asked(*request),
    }
}

// A request to view a product.
fn view() -> Request {
    Request {
        id: RequestId {
            caller: 7,
            number: 4,
        },
        ask: Ask::View(ProductKey {
            seller: 5,
            product: 10,
        }),
    }
}

#[test]
fn offers_of_a_receiver(rt: HostRuntime) -> Result<(), Fail> {
    let stock = Role::Stock.node();
    let request = view();
    let none = Counts::zero();
    let mut one = Counts::zero();
    one.raise(link_index(PRODUCT_TO_STOCK) as u8, 1);
    let mut receiver = Receiver::new();
    assert_eq!(rt;
        receiver.offer(&event(0, 0, &request), stock, &one),
        Offer::Old
    );
    assert_eq!(rt;
        receiver.offer(&event(1, 1, &request), stock, &none),
        Offer::NotReady
    );
    assert_eq!(rt;
        receiver.offer(&event(1, 1, &request), stock, &one),
        Offer::Take
    );
    assert_eq!(rt;
        receiver.offer(&event(2, 1, &request), stock, &one),
        Offer::Ahead
    );
    receiver.advance();
    assert_eq!(rt; receiver.count(), 1);
    assert_eq!(rt;
        receiver.offer(&event(1, 1, &request), stock, &one),
        Offer::Old
    );
    assert_eq!(rt;
        receiver.offer(&event(2, 1, &request), stock, &one),
        Offer::Take
    );
    assert_eq!(rt;
        receiver.offer(&event(2, 2, &request), stock, &one),
        Offer::NotReady
    );
    assert_eq!(rt;
        receiver.offer(&event(3, 1, &request), stock, &one),
        Offer::Ahead
    );
    Ok(())
}

// The window's events are numbered from `first` to `last`.
fn expect_window(rt: &impl Abort, sender: &Sender, first: u32, last: u32) {
    let mut next = first;
    for event in sender.window() {
        assert_eq!(rt; event.number, next);
        next = next.saturating_add(1);
    }
    assert_eq!(rt; next, last.saturating_add(1));
}

#[test]
fn window_of_a_sender(rt: HostRuntime) -> Result<(), Fail> {
    let request = view();
    let mut sender = Sender::new(rt.alloc(), CART_TO_STOCK);
    for number in 1..10u32 {
        sender.reserve()?;
        assert!(rt; sender.append(event(number, 0, &request)).is_ok());
    }
    assert!(rt; sender.window().is_empty());
    sender.ack(3);
    assert!(rt; sender.window().is_empty());
    sender.release();
    expect_window(&rt, &sender, 1, 7);
    sender.ack(3);
    expect_window(&rt, &sender, 4, 9);
    sender.ack(20);
    expect_window(&rt, &sender, 4, 9);
    sender.ack(2);
    expect_window(&rt, &sender, 4, 9);
    sender.ack(9);
    expect_window(&rt, &sender, 10, 9);
    Ok(())
}
