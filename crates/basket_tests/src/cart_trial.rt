//! A cart for tests, which takes changes of products and requests of one caller.

ghost use Rattle.std.specs.Prelude.{◌≡◌, true};
ghost use Rattle.market_events.specs.Formed.{ask_formed, change_formed, id_formed, key_formed};
ghost use Rattle.market_events.specs.Formed.{quantity_formed, cents_formed};
ghost use Rattle.market_events.specs.Links.{service_by_ask, cart_node};
ghost use Rattle.market_events.specs.Services.{change_fits};
ghost use Rattle.basket_tests.specs.CartTrials.{IsTrial};

use cart_replica::ProductCopy;
use cart_service::Carts;
use market_amounts::{Cents, ProductKey, Quantity, RequestId};
use market_events::{
    Ask, Body, Cell, CellName, Change, Link, Look, Outs, PRODUCT_TO_CART, Reply, Request, Role,
    Tabled,
};
use service_driving::{LANE, step};
use std::alloc::Global;
use std::process::Abort;
use std::test::Fail;

const MOST: u32 = 1000;

// The links on which the lane asks the cart, and is told.
const FROM_LANE: Link = Link::Asked(LANE, Role::Cart as u8);

const TO_LANE: Link = Link::Told(Role::Cart as u8, LANE);

// A cart, what it shows of the products, and the number of its next request, of caller 7.
#[derive(Drop)]
pub struct Trial {
    alloc: Global,
    carts: Carts,
    shown: ProductCopy,
    next: u32,
    ghost trial: { IsTrial carts shown next },
}

impl Trial {
    pub fn new(alloc: Global) -> Trial {
        Trial {
            alloc,
            carts: Carts::new(alloc),
            shown: ProductCopy::new(alloc),
            next: 0,
        }
    }

    // Takes a change, for which the cart makes nothing.
    pub fn change(
        self,
        rt: &impl Abort,
        key: ProductKey,
        version: u32,
        change: Change,
    ) -> Result<Trial, Fail> {
        let Trial {
            alloc,
            mut carts,
            mut shown,
            next,
        } = self;
        assert!(rt; next < MOST);
        assert!(rt; is_due(key, shown.look(key), version, &change));
        let body = Body::Changed(key, version, change);
        let outs = step(&mut carts, alloc, PRODUCT_TO_CART, &body)?;
        assert!(rt; outs.is_empty());
        shown.apply(key, version, &change)?;
        Ok(Trial {
            alloc,
            carts,
            shown,
            next: next + 1,
        })
    }

    // Takes a request, and gives the one body that is made, with its link.
    pub fn ask(&mut self, rt: &impl Abort, ask: Ask) -> Result<(Link, Body), Fail> {
        assert!(rt; self.next < MOST);
        assert!(rt; is_for_cart(&ask));
        let id = RequestId {
            caller: 7,
            number: self.next,
        };
        self.next += 1;
        let body = Body::Asked(Request { id, ask });
        let outs = step(&mut self.carts, self.alloc, FROM_LANE, &body)?;
        only(rt, outs)
    }

    // The names of the cells that a request may change.
    pub fn touches(&self, rt: &impl Abort, ask: Ask) -> Result<Vec<CellName>, Fail> {
        assert!(rt; self.next < MOST);
        assert!(rt; is_for_cart(&ask));
        let id = RequestId {
            caller: 7,
            number: self.next,
        };
        let body = Body::Asked(Request { id, ask });
        Ok(self.carts.touches(FROM_LANE, &body)?)
    }

    pub fn cells(&self) -> Result<Vec<Cell>, Fail> {
        Ok(self.carts.cells()?)
    }

    pub fn value(&self, name: &CellName) -> Result<Vec<u8>, Fail> {
        Ok(self.carts.value(name)?)
    }

    // Takes a request, and gives the reply that is told.
    pub fn reply(&mut self, rt: &impl Abort, ask: Ask) -> Result<Reply, Fail> {
        let (link, body) = self.ask(rt, ask)?;
        assert_eq!(rt; link, TO_LANE);
        match body {
            Body::Told(_, reply) => Ok(reply),
            _ => Err(Fail::from("no reply")),
        }
    }
}

// The only one of these.
fn only(rt: &impl Abort, mut outs: Outs) -> Result<(Link, Body), Fail> {
    assert_eq!(rt; outs.len(), 1);
    let (link, body, _) = outs.first().ok_or("nothing")?;
    Ok((link, body))
}

// Whether a change with this version is the next one of the product.
fn is_due(key: ProductKey, look: Look, version: u32, change: &Change) -> bool
    ensures due { result ≡ true → change_fits look version change.now ≡ true }
    ensures known { result ≡ true → key_formed key ≡ true }
    ensures formed { result ≡ true → change_formed change.now ≡ true }
{
    let (before, live) = match look {
        Look::Unknown => (0, false),
        Look::Gone(before) => (before, false),
        Look::Live(before, _, _) => (before, true),
    };
    if version == 0 || version - 1 != before || !is_key(key) {
        return false;
    }
    match change {
        Change::Created(price, freight) => !live && is_amount(*price) && is_amount(*freight),
        Change::Priced(price) => live && is_amount(*price),
        Change::Deleted => live,
    }
}

// Whether it is a well-formed request for the cart.
fn is_for_cart(ask: &Ask) -> bool
    ensures formed { result ≡ true → ask_formed ask.now ≡ true }
    ensures for_cart { result ≡ true → service_by_ask ask.now ≡ cart_node }
{
    match ask {
        Ask::View(key) => is_key(*key),
        Ask::Line(customer, key, quantity, voucher) => {
            is_id(*customer) && is_key(*key) && is_quantity(*quantity) && is_amount(*voucher)
        }
        Ask::Remove(customer, key) => is_id(*customer) && is_key(*key),
        Ask::Checkout(customer) => is_id(*customer),
        _ => false,
    }
}

fn is_id(n: u32) -> bool
    ensures { result ≡ id_formed n }
{
    n <= u32::MAX
}

fn is_key(key: ProductKey) -> bool
    ensures { result ≡ key_formed key }
{
    is_id(key.seller) && is_id(key.product)
}

fn is_quantity(quantity: Quantity) -> bool
    ensures { result ≡ quantity_formed quantity }
{
    quantity.get() >= 1 && quantity.get() <= Quantity::MAX
}

fn is_amount(cents: Cents) -> bool
    ensures { result ≡ cents_formed cents }
{
    cents.get() <= Cents::MAX
}

// A new product, for 10.00 with a freight of 0.50.
pub fn created() -> Result<Change, Fail> {
    Ok(Change::Created(Cents::try_new(1000)?, Cents::try_new(50)?))
}

// A line of customer 1, without a voucher.
pub fn line(key: ProductKey, pieces: u32) -> Result<Ask, Fail> {
    let quantity = Quantity::try_new(pieces)?;
    Ok(Ask::Line(1, key, quantity, Cents::try_new(0)?))
}
