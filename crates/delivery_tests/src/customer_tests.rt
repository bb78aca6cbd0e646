//! What is counted of a customer, through the steps of any service.

ghost use Rattle.std.specs.Prelude.{◌≡◌, IfOk};
ghost use Rattle.market_events.specs.Examples.{an_id};
ghost use Rattle.market_events.specs.declared.roles.Role.{Role};
ghost use Rattle.market_events.specs.Standing.{Stands, StandsForSome};
ghost use Rattle.delivery_tests.specs.CustomerExamples.{arrival, payment, two_paid_one_failed};
ghost use Rattle.customer_service.specs.Holds.{Holds};

use customer_service::Customers;
use market_amounts::{Cents, List, ProductKey, Quantity, RequestId};
use market_events::{
    Ask, Body, Item, LANES, Link, Outs, PAYMENT_TO_CUSTOMER, PayRule, PricedLine, Reply, Request,
    Role, SHIPMENT_TO_CUSTOMER, Tabled,
};
use service_driving::{drive, step};
use std::alloc::Global;
use std::process::Abort;
use std::test::Fail;

const MUG: ProductKey = ProductKey {
    seller: 5,
    product: 10,
};

// The caller of the requests, its lane, and the links on which that asks the customers and is told.
const CALLER: u32 = 5;

const LANE: u8 = (CALLER % LANES) as u8;

const FROM_LANE: Link = Link::Asked(LANE, Role::Customer as u8);

const TO_LANE: Link = Link::Told(Role::Customer as u8, LANE);

// A request of caller 5.
fn request(number: u32) -> RequestId
    ensures { result ≡ an_id 5 number }
{
    RequestId {
        caller: CALLER,
        number,
    }
}

// Two mugs at 10.00 that customer 7 paid.
fn paid(alloc: Global, number: u32) -> Result<Body, Fail>
    ensures { IfOk result (λ body. body ≡ payment number) }
{
    let line = PricedLine {
        key: MUG,
        quantity: Quantity::try_new(2)?,
        price: Cents::try_new(1000)?,
        freight: Cents::try_new(50)?,
        voucher: Cents::try_new(100)?,
    };
    let lines = List::from_slice(alloc, &[line])?;
    Ok(Body::Confirmed(request(number), 7, lines, 1950))
}

// The mug of one checkout, delivered to customer 7 and to customer 8.
fn arrived(alloc: Global) -> Result<Body, Fail>
    ensures { IfOk result (λ body. body ≡ arrival) }
{
    let checkout = request(1);
    let own = Item {
        checkout,
        customer: 7,
        key: MUG,
    };
    let strange = Item {
        checkout,
        customer: 8,
        key: MUG,
    };
    Ok(Body::Delivered(List::from_slice(alloc, &[own, strange])?))
}

// Customers that took two payments of customer 7, and that a third failed.
fn with_payments(alloc: Global) -> Result<Customers, Fail>
    ensures { IfOk result (λ customers. Stands Role.Customer Holds customers two_paid_one_failed) }
{
    let mut customers = Customers::new(alloc);
    let first = paid(alloc, 1)?;
    step(&mut customers, alloc, PAYMENT_TO_CUSTOMER, &first)?;
    let second = paid(alloc, 2)?;
    step(&mut customers, alloc, PAYMENT_TO_CUSTOMER, &second)?;
    let failed = Body::Failed(request(3), 7, PayRule::OverLimit);
    step(&mut customers, alloc, PAYMENT_TO_CUSTOMER, &failed)?;
    Ok(customers)
}

// The lane was told of two payments and a failure, and nothing else was made.
fn assert_told(rt: &impl Abort, mut outs: Outs) -> Result<(), Fail> {
    let (link, told, copy) = outs.first().ok_or("nothing")?;
    assert_eq!(rt; link, TO_LANE);
    assert_eq!(rt; told, Body::Told(request(4), Reply::Customer(2, 1, 0)));
    assert_eq!(rt; copy, told);
    assert!(rt; outs.is_empty());
    Ok(())
}

// The cell of customer 7, which is the only one, says the same.
fn assert_cell(rt: &impl Abort, customers: &Customers) -> Result<(), Fail>
    requires { StandsForSome Role.Customer Holds customers.now }
{
    let cells = customers.cells()?;
    assert_eq!(rt; cells.len(), 1);
    let name = &cells[0].name;
    assert_eq!(rt; name.table.as_slice(), b"customer".as_slice());
    assert_eq!(rt; name.key.as_slice(), b"7".as_slice());
    assert_eq!(rt; cells[0].value.as_slice(), b"2 1 0".as_slice());
    assert_eq!(rt; customers.value(name)?.as_slice(), b"2 1 0".as_slice());
    Ok(())
}

// Two customers have one package each.
fn assert_both(rt: &impl Abort, customers: &Customers) -> Result<(), Fail>
    requires { StandsForSome Role.Customer Holds customers.now }
{
    let cells = customers.cells()?;
    assert_eq!(rt; cells.len(), 2);
    assert_eq!(rt; cells[0].name.key.as_slice(), b"7".as_slice());
    assert_eq!(rt; cells[0].value.as_slice(), b"0 0 1".as_slice());
    assert_eq!(rt; cells[1].name.key.as_slice(), b"8".as_slice());
    assert_eq!(rt; cells[1].value.as_slice(), b"0 0 1".as_slice());
    Ok(())
}

#[test]
fn a_line_is_counted_for_each_customer_that_has_it(rt: HostRuntime) -> Result<(), Fail> {
    let mut customers = Customers::new(rt.alloc());
    let both = arrived(rt.alloc())?;
    step(&mut customers, rt.alloc(), SHIPMENT_TO_CUSTOMER, &both)?;
    assert_both(&rt, &customers)
}

#[test]
fn two_payments_and_a_failure(rt: HostRuntime) -> Result<(), Fail> {
    let mut customers = with_payments(rt.alloc())?;
    assert_cell(&rt, &customers)?;
    let asked = Body::Asked(Request {
        id: request(4),
        ask: Ask::Customer(7),
    });
    let outs = step(&mut customers, rt.alloc(), FROM_LANE, &asked)?;
    assert_told(&rt, outs)
}

#[test]
fn a_failed_payment_is_counted(rt: HostRuntime) -> Result<(), Fail> {
    let id = RequestId {
        caller: CALLER,
        number: 9,
    };
    let mut customers = Customers::new(rt.alloc());
    let failed = Body::Failed(id, 7, PayRule::NoCard);
    let (outs, cells) = drive(&mut customers, rt.alloc(), PAYMENT_TO_CUSTOMER, &failed)?;
    assert!(rt; outs.is_empty());
    assert_eq!(rt; cells.len(), 1);
    assert_eq!(rt; cells[0].name.key.as_slice(), b"7".as_slice());
    assert_eq!(rt; cells[0].value.as_slice(), b"0 1 0".as_slice());

    let asked = Body::Asked(Request {
        id,
        ask: Ask::Customer(7),
    });
    let (mut outs, cells) = drive(&mut customers, rt.alloc(), FROM_LANE, &asked)?;
    assert!(rt; cells.is_empty());
    let (link, told, copy) = outs.first().ok_or("nothing")?;
    assert_eq!(rt; link, TO_LANE);
    assert_eq!(rt; told, Body::Told(id, Reply::Customer(0, 1, 0)));
    assert_eq!(rt; copy, told);
    assert_eq!(rt; customers.cells()?.len(), 1);
    Ok(())
}
