//! Cards and invoices of customer 7, one after the other: what is made of them, and the account that is left.

ghost use Rattle.std.specs.Prelude.{◌≡◌, ◌≤◌, IfOk};
ghost use Rattle.market_events.specs.Examples.{a_line, an_id, mug, mug_invoice, mug_lines};
ghost use Rattle.market_events.specs.ExamplesPayment.{free_lines};
ghost use Rattle.market_events.specs.declared.roles.Role.{Role};
ghost use Rattle.market_events.specs.Standing.{Stands, StandsForSome};
ghost use Rattle.market_events.specs.WellFormed.{limit_max};
ghost use Rattle.payment_service.specs.Holds.{Holds};
ghost use Rattle.checkout_tests.specs.PaymentExamples.{card_asked, with_limit};

use market_amounts::{Cents, List, ProductKey, Quantity, RequestId};
use market_events::{
    Ask, Body, Link, ORDER_TO_PAYMENT, Outs, PAYMENT_TO_CUSTOMER, PAYMENT_TO_ORDER,
    PAYMENT_TO_SELLER, PAYMENT_TO_SHIPMENT, PAYMENT_TO_STOCK, PayRule, PricedLine, Reply, Request,
    Role, Tabled,
};
use payment_service::Payments;
use service_driving::{LANE, step};
use std::alloc::Global;
use std::process::Abort;
use std::test::Fail;

// The links on which the lane asks payments, and is told.
const FROM_LANE: Link = Link::Asked(LANE, Role::Payment as u8);

const TO_LANE: Link = Link::Told(Role::Payment as u8, LANE);

// Who is told of a payment, and of a failure.
const WHEN_PAID: [Link; 5] = [
    PAYMENT_TO_STOCK,
    PAYMENT_TO_CUSTOMER,
    PAYMENT_TO_SELLER,
    PAYMENT_TO_ORDER,
    PAYMENT_TO_SHIPMENT,
];

const WHEN_FAILED: [Link; 4] = [
    PAYMENT_TO_STOCK,
    PAYMENT_TO_CUSTOMER,
    PAYMENT_TO_SELLER,
    PAYMENT_TO_ORDER,
];

const BASKET: RequestId = RequestId {
    caller: 7,
    number: 5,
};

const OTHER_BASKET: RequestId = RequestId {
    caller: 7,
    number: 6,
};

// The request of caller 7 with this number for a card of customer 7 with this limit.
fn card(number: u32, limit: u64) -> Body
    ensures { result ≡ card_asked number limit }
{
    let id = RequestId { caller: 7, number };
    let ask = Ask::Card(7, limit);
    Body::Asked(Request { id, ask })
}

// A line of so many of the product 5:10.
fn line(quantity: u32, price: u64, freight: u64, voucher: u64) -> Result<PricedLine, Fail>
    ensures { IfOk result (λ line. line ≡ a_line mug quantity price freight voucher) }
{
    let key = ProductKey {
        seller: 5,
        product: 10,
    };
    Ok(PricedLine {
        key,
        quantity: Quantity::try_new(quantity)?,
        price: Cents::try_new(price)?,
        freight: Cents::try_new(freight)?,
        voucher: Cents::try_new(voucher)?,
    })
}

// The lines of an invoice over 1950.
fn lines(alloc: Global) -> Result<List<PricedLine>, Fail>
    ensures { IfOk result (λ lines. lines ≡ mug_lines) }
{
    let line = line(2, 1000, 50, 100)?;
    Ok(List::from_slice(alloc, &[line])?)
}

// An invoice over 1950.
fn invoice(alloc: Global) -> Result<Body, Fail>
    ensures { IfOk result (λ body. body ≡ mug_invoice) }
{
    Ok(Body::Invoice(BASKET, 7, lines(alloc)?, 1950))
}

// An invoice over nothing, of another checkout.
fn free_invoice(alloc: Global) -> Result<Body, Fail>
    ensures { IfOk result (λ body. body ≡ Body.Invoice (an_id 7 6) 7 free_lines 0) }
{
    let line = line(1, 50, 0, 50)?;
    let lines = List::from_slice(alloc, &[line])?;
    Ok(Body::Invoice(OTHER_BASKET, 7, lines, 0))
}

// Payments with a card of customer 7 with this limit.
fn with_card(alloc: Global, limit: u64) -> Result<Payments, Fail>
    requires { limit ≤ limit_max }
    ensures { IfOk result (λ payments. Stands Role.Payment Holds payments (with_limit limit)) }
{
    let mut payments = Payments::new(alloc);
    let asked = card(3, limit);
    step(&mut payments, alloc, FROM_LANE, &asked)?;
    Ok(payments)
}

// This body was made on each of these links, and nothing else.
fn assert_made(rt: &impl Abort, mut outs: Outs, links: &[Link], body: &Body) -> Result<(), Fail> {
    for link in links {
        let (to, made, copy) = outs.first().ok_or("nothing")?;
        assert_eq!(rt; to, *link);
        assert_eq!(rt; &made, body);
        assert_eq!(rt; copy, made);
    }
    assert!(rt; outs.is_empty());
    Ok(())
}

// The request of caller 7 with this number was told the limit of the card, and nothing else was made.
fn assert_told(rt: &impl Abort, mut outs: Outs, number: u32, limit: u64) -> Result<(), Fail> {
    let id = RequestId { caller: 7, number };
    let (to, made, _copy) = outs.first().ok_or("nothing")?;
    assert_eq!(rt; to, TO_LANE);
    assert_eq!(rt; made, Body::Told(id, Reply::Card(limit)));
    assert!(rt; outs.is_empty());
    Ok(())
}

// The account of customer 7, which is the only one, has this text.
fn assert_account(rt: &impl Abort, payments: &Payments, text: &[u8]) -> Result<(), Fail>
    requires { StandsForSome Role.Payment Holds payments.now }
{
    let cells = payments.cells()?;
    assert_eq!(rt; cells.len(), 1);
    let name = &cells[0].name;
    assert_eq!(rt; name.table.as_slice(), b"account".as_slice());
    assert_eq!(rt; name.key.as_slice(), b"7".as_slice());
    assert_eq!(rt; cells[0].value.as_slice(), text);
    assert_eq!(rt; payments.value(name)?.as_slice(), text);
    Ok(())
}

#[test]
fn a_total_at_the_limit_is_paid(rt: HostRuntime) -> Result<(), Fail> {
    let mut payments = with_card(rt.alloc(), 1950)?;
    let bill = invoice(rt.alloc())?;
    let names = payments.touches(ORDER_TO_PAYMENT, &bill)?;
    assert_eq!(rt; names.len(), 1);
    assert_eq!(rt; names[0].key.as_slice(), b"7".as_slice());
    let outs = step(&mut payments, rt.alloc(), ORDER_TO_PAYMENT, &bill)?;
    let paid = Body::Confirmed(BASKET, 7, lines(rt.alloc())?, 1950);
    assert_made(&rt, outs, &WHEN_PAID, &paid)?;
    assert_account(&rt, &payments, b"1950 1950")
}

#[test]
fn a_total_above_the_limit_is_not(rt: HostRuntime) -> Result<(), Fail> {
    let mut payments = with_card(rt.alloc(), 1949)?;
    let bill = invoice(rt.alloc())?;
    let outs = step(&mut payments, rt.alloc(), ORDER_TO_PAYMENT, &bill)?;
    let failed = Body::Failed(BASKET, 7, PayRule::OverLimit);
    assert_made(&rt, outs, &WHEN_FAILED, &failed)?;
    assert_account(&rt, &payments, b"1949 0")
}

#[test]
fn nothing_is_paid_without_a_card(rt: HostRuntime) -> Result<(), Fail> {
    let mut payments = Payments::new(rt.alloc());
    let bill = invoice(rt.alloc())?;
    let outs = step(&mut payments, rt.alloc(), ORDER_TO_PAYMENT, &bill)?;
    let failed = Body::Failed(BASKET, 7, PayRule::NoCard);
    assert_made(&rt, outs, &WHEN_FAILED, &failed)?;
    assert!(rt; payments.cells()?.is_empty());
    Ok(())
}

#[test]
fn a_limit_below_what_was_spent_pays_nothing(rt: HostRuntime) -> Result<(), Fail> {
    let mut payments = with_card(rt.alloc(), 1950)?;
    let bill = invoice(rt.alloc())?;
    step(&mut payments, rt.alloc(), ORDER_TO_PAYMENT, &bill)?;
    let lower = card(4, 1949);
    let told = step(&mut payments, rt.alloc(), FROM_LANE, &lower)?;
    assert_told(&rt, told, 4, 1949)?;
    let free = free_invoice(rt.alloc())?;
    let outs = step(&mut payments, rt.alloc(), ORDER_TO_PAYMENT, &free)?;
    let failed = Body::Failed(OTHER_BASKET, 7, PayRule::OverLimit);
    assert_made(&rt, outs, &WHEN_FAILED, &failed)?;
    assert_account(&rt, &payments, b"1949 1950")
}
