//! What orders answer and tell, through the steps of any service.

ghost use Rattle.std.specs.Prelude.{◌≡◌, IfOk};
ghost use Rattle.market_events.specs.Examples.{a_line, request, mug_reserved, mug_paid, mug_lines};
ghost use Rattle.market_events.specs.ExamplesOrder.{mug_invoiced, two_lines};
ghost use Rattle.market_events.specs.declared.roles.Role.{Role};
ghost use Rattle.market_events.specs.Links.{order_node};
ghost use Rattle.market_events.specs.Standing.{Stands};
ghost use Rattle.checkout_tests.specs.OrderExamples.{greatest_lines, item_for, two_shipped, strange_cup};
ghost use Rattle.order_service.specs.Holds.{Holds};

use market_amounts::{Cents, List, ProductKey, Quantity, RequestId};
use market_events::{
    Ask, Body, Ending, Item, Link, ORDER_TO_CART, ORDER_TO_PAYMENT, ORDER_TO_SELLER, OrderStatus,
    Outs, PAYMENT_TO_ORDER, PayRule, PricedLine, Reply, Request, Role, Rule, SHIPMENT_TO_ORDER,
    STOCK_TO_ORDER, Tabled,
};
use order_service::Orders;
use service_driving::{LANE, step};
use std::alloc::Global;
use std::process::Abort;
use std::test::Fail;

const MUG: ProductKey = ProductKey {
    seller: 5,
    product: 10,
};

const CUP: ProductKey = ProductKey {
    seller: 5,
    product: 11,
};

// The checkout of the mug, and one of a mug and a cup.
const BASKET: RequestId = RequestId {
    caller: 7,
    number: 5,
};

const BOTH: RequestId = RequestId {
    caller: 7,
    number: 6,
};

// The links on which the lane asks orders, and is told.
const FROM_LANE: Link = Link::Asked(LANE, Role::Order as u8);

const TO_LANE: Link = Link::Told(Role::Order as u8, LANE);

// The request of caller 7 with this number.
fn asked(number: u32, ask: Ask) -> Body
    ensures { result ≡ (request order_node number ask).1 }
{
    let id = RequestId { caller: 7, number };
    Body::Asked(Request { id, ask })
}

// A line.
fn line(
    key: ProductKey,
    quantity: u32,
    price: u64,
    freight: u64,
    voucher: u64,
) -> Result<PricedLine, Fail>
    ensures { IfOk result (λ line. line ≡ a_line key quantity price freight voucher) }
{
    Ok(PricedLine {
        key,
        quantity: Quantity::try_new(quantity)?,
        price: Cents::try_new(price)?,
        freight: Cents::try_new(freight)?,
        voucher: Cents::try_new(voucher)?,
    })
}

// Two mugs.
fn mugs(alloc: Global) -> Result<List<PricedLine>, Fail>
    ensures { IfOk result (λ lines. lines ≡ mug_lines) }
{
    let mug = line(MUG, 2, 1000, 50, 100)?;
    Ok(List::from_slice(alloc, &[mug])?)
}

// Two mugs and a cup.
fn mugs_and_cup(alloc: Global) -> Result<List<PricedLine>, Fail>
    ensures { IfOk result (λ lines. lines ≡ two_lines) }
{
    let mug = line(MUG, 2, 1000, 50, 100)?;
    let cup = line(CUP, 1, 30, 60, 100)?;
    Ok(List::from_slice(alloc, &[mug, cup])?)
}

// So many lines at the greatest amounts.
fn greatest(alloc: Global, count: u32) -> Result<List<PricedLine>, Fail>
    ensures { IfOk result (λ lines. lines ≡ greatest_lines count) }
{
    let mut lines = Vec::new(alloc);
    for product in 0..count {
        let key = ProductKey { seller: 5, product };
        lines.push(line(key, 1000, 1_000_000_000, 1_000_000_000, 0)?)?;
    }
    Ok(List::from_vec(lines))
}

// Stock confirms the mugs' checkout, and payment takes the money for it.
fn mugs_reserved(alloc: Global) -> Result<Body, Fail>
    ensures { IfOk result (λ body. body ≡ mug_reserved) }
{
    Ok(Body::StockConfirmed(BASKET, 7, mugs(alloc)?))
}

fn mugs_paid(alloc: Global) -> Result<Body, Fail>
    ensures { IfOk result (λ body. body ≡ mug_paid) }
{
    Ok(Body::Confirmed(BASKET, 7, mugs(alloc)?, 1950))
}

// The product of the checkout of two, which is of customer 7, is delivered to a customer.
fn delivered(alloc: Global, customer: u32, key: ProductKey) -> Result<Body, Fail>
    ensures { IfOk result (λ body. body ≡ Body.Delivered (item_for customer key)) }
{
    let item = Item {
        checkout: BOTH,
        customer,
        key,
    };
    Ok(Body::Delivered(List::from_slice(alloc, &[item])?))
}

// Orders that took the mugs' checkout from stock, and what they made of it.
fn invoiced(alloc: Global) -> Result<(Orders, Outs), Fail>
    ensures { IfOk result (λ made. Stands Role.Order Holds made.0 mug_invoiced) }
{
    let mut orders = Orders::new(alloc);
    let reserved = mugs_reserved(alloc)?;
    let made = step(&mut orders, alloc, STOCK_TO_ORDER, &reserved)?;
    Ok((orders, made))
}

// Orders whose checkout of two was paid and shipped, and what they made of its shipment.
fn shipped(alloc: Global) -> Result<(Orders, Outs), Fail>
    ensures { IfOk result (λ made. Stands Role.Order Holds made.0 two_shipped) }
{
    let mut orders = Orders::new(alloc);
    let reserved = Body::StockConfirmed(BOTH, 7, mugs_and_cup(alloc)?);
    step(&mut orders, alloc, STOCK_TO_ORDER, &reserved)?;
    let paid = Body::Confirmed(BOTH, 7, mugs_and_cup(alloc)?, 2010);
    step(&mut orders, alloc, PAYMENT_TO_ORDER, &paid)?;
    let shipped = Body::Shipped(BOTH);
    let made = step(&mut orders, alloc, SHIPMENT_TO_ORDER, &shipped)?;
    Ok((orders, made))
}

// The same, after its mug came to its customer, and its cup to customer 8.
fn with_strange_cup(alloc: Global) -> Result<Orders, Fail>
    ensures { IfOk result (λ orders. Stands Role.Order Holds orders strange_cup) }
{
    let (mut orders, _ended) = shipped(alloc)?;
    let mug = delivered(alloc, 7, MUG)?;
    step(&mut orders, alloc, SHIPMENT_TO_ORDER, &mug)?;
    let cup = delivered(alloc, 8, CUP)?;
    step(&mut orders, alloc, SHIPMENT_TO_ORDER, &cup)?;
    Ok(orders)
}

// The only body that was made, on its link.
fn only(mut outs: Outs) -> Result<(Link, Body), Fail> {
    let (link, body, _) = outs.first().ok_or("nothing was made")?;
    if !outs.is_empty() {
        return Err("more was made")?;
    }
    Ok((link, body))
}

// The body was made for the sellers and then for the payments, and nothing else.
fn assert_invoiced(rt: &impl Abort, mut outs: Outs, invoice: &Body) -> Result<(), Fail> {
    let (to_sellers, made, _) = outs.first().ok_or("nothing was made")?;
    assert_eq!(rt; to_sellers, ORDER_TO_SELLER);
    assert_eq!(rt; &made, invoice);
    let (to_payments, also) = only(outs)?;
    assert_eq!(rt; to_payments, ORDER_TO_PAYMENT);
    assert_eq!(rt; &also, invoice);
    Ok(())
}

// The lane of caller 7 was told this of the request with this number, and nothing else was made.
fn assert_told(
    rt: &impl Abort,
    outs: Outs,
    number: u32,
    status: OrderStatus,
    total: u64,
) -> Result<(), Fail> {
    let id = RequestId { caller: 7, number };
    let told = Body::Told(id, Reply::OrderState(status, total));
    assert_eq!(rt; only(outs)?, (TO_LANE, told));
    Ok(())
}

#[test]
fn an_order_is_invoiced_and_paid(rt: HostRuntime) -> Result<(), Fail> {
    let (mut orders, made) = invoiced(rt.alloc())?;
    let ask = asked(9, Ask::Order(BASKET));
    let told = step(&mut orders, rt.alloc(), FROM_LANE, &ask)?;
    let paid = mugs_paid(rt.alloc())?;
    let nothing = step(&mut orders, rt.alloc(), PAYMENT_TO_ORDER, &paid)?;
    let again = asked(10, Ask::Order(BASKET));
    let later = step(&mut orders, rt.alloc(), FROM_LANE, &again)?;
    let invoice = Body::Invoice(BASKET, 7, mugs(rt.alloc())?, 1950);
    assert_invoiced(&rt, made, &invoice)?;
    assert_told(&rt, told, 9, OrderStatus::Invoiced, 1950)?;
    assert!(rt; nothing.is_empty());
    assert_told(&rt, later, 10, OrderStatus::Paid, 1950)
}

#[test]
fn an_order_without_payment_is_cancelled(rt: HostRuntime) -> Result<(), Fail> {
    let (mut orders, _made) = invoiced(rt.alloc())?;
    let failed = Body::Failed(BASKET, 7, PayRule::OverLimit);
    let ended = step(&mut orders, rt.alloc(), PAYMENT_TO_ORDER, &failed)?;
    let ask = asked(9, Ask::Order(BASKET));
    let told = step(&mut orders, rt.alloc(), FROM_LANE, &ask)?;
    let undone = Body::Ended(BASKET, Ending::Undone(PayRule::OverLimit));
    assert_eq!(rt; only(ended)?, (ORDER_TO_CART, undone));
    assert_told(&rt, told, 9, OrderStatus::Cancelled, 1950)
}

#[test]
fn a_checkout_that_was_not_confirmed_has_no_order(rt: HostRuntime) -> Result<(), Fail> {
    let mut orders = Orders::new(rt.alloc());
    let ask = asked(9, Ask::Order(BASKET));
    let told = step(&mut orders, rt.alloc(), FROM_LANE, &ask)?;
    let id = RequestId {
        caller: 7,
        number: 9,
    };
    let refused = Body::Told(id, Reply::Refused(Rule::NoOrder));
    assert_eq!(rt; only(told)?, (TO_LANE, refused));
    Ok(())
}

#[test]
fn an_order_is_delivered_with_its_last_line(rt: HostRuntime) -> Result<(), Fail> {
    let (mut orders, ended) = shipped(rt.alloc())?;
    let mug = delivered(rt.alloc(), 7, MUG)?;
    step(&mut orders, rt.alloc(), SHIPMENT_TO_ORDER, &mug)?;
    let ask = asked(9, Ask::Order(BOTH));
    let told = step(&mut orders, rt.alloc(), FROM_LANE, &ask)?;
    let cup = delivered(rt.alloc(), 7, CUP)?;
    step(&mut orders, rt.alloc(), SHIPMENT_TO_ORDER, &cup)?;
    let again = asked(10, Ask::Order(BOTH));
    let later = step(&mut orders, rt.alloc(), FROM_LANE, &again)?;
    let whole = Body::Ended(BOTH, Ending::Whole(2010));
    assert_eq!(rt; only(ended)?, (ORDER_TO_CART, whole));
    assert_told(&rt, told, 9, OrderStatus::Shipped, 2010)?;
    assert_told(&rt, later, 10, OrderStatus::Delivered, 2010)
}

#[test]
fn a_line_is_delivered_to_its_own_customer(rt: HostRuntime) -> Result<(), Fail> {
    let mut orders = with_strange_cup(rt.alloc())?;
    let ask = asked(9, Ask::Order(BOTH));
    let told = step(&mut orders, rt.alloc(), FROM_LANE, &ask)?;
    let cup = delivered(rt.alloc(), 7, CUP)?;
    step(&mut orders, rt.alloc(), SHIPMENT_TO_ORDER, &cup)?;
    let again = asked(10, Ask::Order(BOTH));
    let later = step(&mut orders, rt.alloc(), FROM_LANE, &again)?;
    assert_told(&rt, told, 9, OrderStatus::Shipped, 2010)?;
    assert_told(&rt, later, 10, OrderStatus::Delivered, 2010)
}

#[test]
fn the_greatest_checkout_does_not_wrap(rt: HostRuntime) -> Result<(), Fail> {
    let mut orders = Orders::new(rt.alloc());
    let reserved = Body::StockConfirmed(BASKET, 7, greatest(rt.alloc(), 32)?);
    let made = step(&mut orders, rt.alloc(), STOCK_TO_ORDER, &reserved)?;
    let invoice = Body::Invoice(BASKET, 7, greatest(rt.alloc(), 32)?, 32_032_000_000_000);
    assert_invoiced(&rt, made, &invoice)
}

#[test]
fn an_order_is_told_in_a_cell(rt: HostRuntime) -> Result<(), Fail> {
    let mut orders = Orders::new(rt.alloc());
    let reserved = mugs_reserved(rt.alloc())?;
    let names = orders.touches(STOCK_TO_ORDER, &reserved)?;
    step(&mut orders, rt.alloc(), STOCK_TO_ORDER, &reserved)?;
    let cells = orders.cells()?;
    assert_eq!(rt; names.len(), 1);
    assert_eq!(rt; names[0].table.as_slice(), b"order".as_slice());
    assert_eq!(rt; names[0].key.as_slice(), b"7.5".as_slice());
    assert_eq!(rt; cells.len(), 1);
    assert_eq!(rt; cells[0].name, names[0]);
    assert_eq!(rt; cells[0].value.as_slice(), b"invoiced 1950 1".as_slice());
    assert_eq!(rt;
        orders.value(&names[0])?.as_slice(),
        b"invoiced 1950 1".as_slice()
    );
    Ok(())
}
