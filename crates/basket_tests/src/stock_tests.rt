//! What stock reserves, sells and releases, through the steps of any service.

ghost use Rattle.std.specs.Prelude.{◌≡◌, IfOk};
ghost use Rattle.market_events.specs.Examples.{a_line, an_id, request};
ghost use Rattle.market_events.specs.declared.roles.Role.{Role};
ghost use Rattle.market_events.specs.Links.{stock_node};
ghost use Rattle.market_events.specs.Standing.{Stands};
ghost use Rattle.basket_tests.specs.StockExamples.{four_pieces, mug_and_cup};
ghost use Rattle.stock_service.specs.Holds.{Holds};

use market_amounts::{Cents, List, ProductKey, Quantity, RequestId};
use market_events::{
    Ask, Body, CART_TO_STOCK, Cell, Change, Link, Outs, PAYMENT_TO_STOCK, PRODUCT_TO_STOCK,
    PayRule, PricedLine, Reply, Request, Role, Rule, STOCK_TO_CART, STOCK_TO_ORDER, StockRule,
    Tabled,
};
use service_driving::{LANE, step};
use std::alloc::Global;
use std::test::Fail;
use stock_service::Stocks;

const MUG: ProductKey = ProductKey {
    seller: 5,
    product: 10,
};

const CUP: ProductKey = ProductKey {
    seller: 5,
    product: 11,
};

const CHECKOUT: RequestId = RequestId {
    caller: 7,
    number: 8,
};

// The links on which the lane asks stock, and is told.
const FROM_LANE: Link = Link::Asked(LANE, Role::Stock as u8);

const TO_LANE: Link = Link::Told(Role::Stock as u8, LANE);

// A product that is new.
fn created(key: ProductKey) -> Result<Body, Fail>
    ensures { IfOk result (λ body. body ≡ Body.Changed key 1 (Change.Created 1000 50)) }
{
    let price = Cents::try_new(1000)?;
    let freight = Cents::try_new(50)?;
    Ok(Body::Changed(key, 1, Change::Created(price, freight)))
}

// The request of caller 7 with this number.
fn asked(number: u32, ask: Ask) -> Body
    ensures { result ≡ (request stock_node number ask).1 }
{
    let id = RequestId { caller: 7, number };
    Body::Asked(Request { id, ask })
}

// What its lane is told.
fn told(number: u32, reply: Reply) -> (Link, Body) {
    let id = RequestId { caller: 7, number };
    (TO_LANE, Body::Told(id, reply))
}

// A line of so many pieces.
fn line(key: ProductKey, quantity: u32) -> Result<PricedLine, Fail>
    ensures { IfOk result (λ line. line ≡ a_line key quantity 1000 50 0) }
{
    Ok(PricedLine {
        key,
        quantity: Quantity::try_new(quantity)?,
        price: Cents::try_new(1000)?,
        freight: Cents::try_new(50)?,
        voucher: Cents::try_new(0)?,
    })
}

// Lines of so many mugs and cups.
fn lines(alloc: Global, mugs: u32, cups: u32) -> Result<List<PricedLine>, Fail>
    ensures { IfOk result (λ lines. lines ≡ mug_and_cup mugs cups) }
{
    let mugs = line(MUG, mugs)?;
    let cups = line(CUP, cups)?;
    Ok(List::from_slice(alloc, &[mugs, cups])?)
}

// The first body that was made, on its link.
fn first(mut outs: Outs) -> Result<(Link, Body), Fail> {
    let (link, body, _) = outs.first().ok_or("nothing was made")?;
    Ok((link, body))
}

// Stock with three mugs and one cup.
fn with_pieces(alloc: Global) -> Result<Stocks, Fail>
    ensures { IfOk result (λ stocks. Stands Role.Stock Holds stocks four_pieces) }
{
    let mut stocks = Stocks::new(alloc);
    let mug = created(MUG)?;
    step(&mut stocks, alloc, PRODUCT_TO_STOCK, &mug)?;
    let cup = created(CUP)?;
    step(&mut stocks, alloc, PRODUCT_TO_STOCK, &cup)?;
    let mugs = asked(1, Ask::Stock(MUG, 3));
    step(&mut stocks, alloc, FROM_LANE, &mugs)?;
    let cups = asked(2, Ask::Stock(CUP, 1));
    step(&mut stocks, alloc, FROM_LANE, &cups)?;
    Ok(stocks)
}

// What is made of a checkout of more cups than there are, and of requests for both levels.
fn short_checkout(alloc: Global) -> Result<(Outs, Outs, Outs), Fail> {
    let mut stocks = with_pieces(alloc)?;
    let pieces = lines(alloc, 2, 2)?;
    let reserve = Body::Reserve(CHECKOUT, 7, pieces);
    let made = step(&mut stocks, alloc, CART_TO_STOCK, &reserve)?;
    let mug = asked(3, Ask::Level(MUG));
    let mugs = step(&mut stocks, alloc, FROM_LANE, &mug)?;
    let cup = asked(4, Ask::Level(CUP));
    let cups = step(&mut stocks, alloc, FROM_LANE, &cup)?;
    Ok((made, mugs, cups))
}

// What is made of a checkout of two mugs and the cup, and of requests for both levels.
fn whole_checkout(alloc: Global) -> Result<(Outs, Outs, Outs), Fail> {
    let mut stocks = with_pieces(alloc)?;
    let pieces = lines(alloc, 2, 1)?;
    let reserve = Body::Reserve(CHECKOUT, 7, pieces);
    let made = step(&mut stocks, alloc, CART_TO_STOCK, &reserve)?;
    let mug = asked(3, Ask::Level(MUG));
    let mugs = step(&mut stocks, alloc, FROM_LANE, &mug)?;
    let cup = asked(4, Ask::Level(CUP));
    let cups = step(&mut stocks, alloc, FROM_LANE, &cup)?;
    Ok((made, mugs, cups))
}

// The same, after its payment failed.
fn failed_checkout(alloc: Global) -> Result<(Outs, Outs, Outs), Fail> {
    let mut stocks = with_pieces(alloc)?;
    let pieces = lines(alloc, 2, 1)?;
    let reserve = Body::Reserve(CHECKOUT, 7, pieces);
    step(&mut stocks, alloc, CART_TO_STOCK, &reserve)?;
    let failed = Body::Failed(CHECKOUT, 7, PayRule::NoCard);
    let nothing = step(&mut stocks, alloc, PAYMENT_TO_STOCK, &failed)?;
    let mug = asked(3, Ask::Level(MUG));
    let mugs = step(&mut stocks, alloc, FROM_LANE, &mug)?;
    let cup = asked(4, Ask::Level(CUP));
    let cups = step(&mut stocks, alloc, FROM_LANE, &cup)?;
    Ok((nothing, mugs, cups))
}

// The same, after it was paid.
fn paid_checkout(alloc: Global) -> Result<(Outs, Outs, Outs), Fail> {
    let mut stocks = with_pieces(alloc)?;
    let pieces = lines(alloc, 2, 1)?;
    let reserve = Body::Reserve(CHECKOUT, 7, pieces);
    step(&mut stocks, alloc, CART_TO_STOCK, &reserve)?;
    let paid = lines(alloc, 2, 1)?;
    let confirmed = Body::Confirmed(CHECKOUT, 7, paid, 3100);
    let nothing = step(&mut stocks, alloc, PAYMENT_TO_STOCK, &confirmed)?;
    let mug = asked(3, Ask::Level(MUG));
    let mugs = step(&mut stocks, alloc, FROM_LANE, &mug)?;
    let cup = asked(4, Ask::Level(CUP));
    let cups = step(&mut stocks, alloc, FROM_LANE, &cup)?;
    Ok((nothing, mugs, cups))
}

// The cells after a checkout of more cups than there are.
fn short_cells(alloc: Global) -> Result<Vec<Cell>, Fail> {
    let mut stocks = with_pieces(alloc)?;
    let pieces = lines(alloc, 2, 2)?;
    let reserve = Body::Reserve(CHECKOUT, 7, pieces);
    step(&mut stocks, alloc, CART_TO_STOCK, &reserve)?;
    Ok(stocks.cells()?)
}

// The cells after a checkout of two mugs and the cup.
fn held_cells(alloc: Global) -> Result<Vec<Cell>, Fail> {
    let mut stocks = with_pieces(alloc)?;
    let pieces = lines(alloc, 2, 1)?;
    let reserve = Body::Reserve(CHECKOUT, 7, pieces);
    step(&mut stocks, alloc, CART_TO_STOCK, &reserve)?;
    Ok(stocks.cells()?)
}

// What is made of the most pieces that can be, and of one more.
fn full_stock(alloc: Global) -> Result<(Outs, Outs), Fail> {
    let mut stocks = Stocks::new(alloc);
    let mug = created(MUG)?;
    step(&mut stocks, alloc, PRODUCT_TO_STOCK, &mug)?;
    let most = asked(1, Ask::Stock(MUG, 1_000_000_000));
    let all = step(&mut stocks, alloc, FROM_LANE, &most)?;
    let more = asked(2, Ask::Stock(MUG, 1));
    let over = step(&mut stocks, alloc, FROM_LANE, &more)?;
    Ok((all, over))
}

#[test]
fn a_short_checkout_reserves_nothing(rt: HostRuntime) -> Result<(), Fail> {
    let (made, mugs, cups) = short_checkout(rt.alloc())?;
    let refused = Body::ReserveFailed(CHECKOUT, CUP, StockRule::Short);
    assert_eq!(rt; first(made)?, (STOCK_TO_CART, refused));
    assert_eq!(rt; first(mugs)?, told(3, Reply::Level(3, 0)));
    assert_eq!(rt; first(cups)?, told(4, Reply::Level(1, 0)));
    Ok(())
}

#[test]
fn a_checkout_is_reserved_whole(rt: HostRuntime) -> Result<(), Fail> {
    let (made, mugs, cups) = whole_checkout(rt.alloc())?;
    let reserved = Body::StockConfirmed(CHECKOUT, 7, lines(rt.alloc(), 2, 1)?);
    assert_eq!(rt; first(made)?, (STOCK_TO_ORDER, reserved));
    assert_eq!(rt; first(mugs)?, told(3, Reply::Level(3, 2)));
    assert_eq!(rt; first(cups)?, told(4, Reply::Level(1, 1)));
    Ok(())
}

#[test]
fn a_reservation_is_told_in_cells(rt: HostRuntime) -> Result<(), Fail> {
    let cells = held_cells(rt.alloc())?;
    assert_eq!(rt; cells.len(), 5);
    assert_eq!(rt; cells[2].name.table.as_slice(), b"held".as_slice());
    assert_eq!(rt; cells[2].name.key.as_slice(), b"7.8".as_slice());
    assert_eq!(rt; cells[2].value.as_slice(), b"5:10:2;5:11:1".as_slice());
    assert_eq!(rt; cells[3].name.key.as_slice(), b"5:10".as_slice());
    assert_eq!(rt; cells[3].value.as_slice(), b"3 2".as_slice());
    assert_eq!(rt; cells[4].name.key.as_slice(), b"5:11".as_slice());
    assert_eq!(rt; cells[4].value.as_slice(), b"1 1".as_slice());
    let cells = short_cells(rt.alloc())?;
    assert_eq!(rt; cells.len(), 4);
    assert_eq!(rt; cells[2].value.as_slice(), b"3 0".as_slice());
    assert_eq!(rt; cells[3].value.as_slice(), b"1 0".as_slice());
    Ok(())
}

#[test]
fn a_failed_payment_sets_free(rt: HostRuntime) -> Result<(), Fail> {
    let (nothing, mugs, cups) = failed_checkout(rt.alloc())?;
    assert!(rt; nothing.is_empty());
    assert_eq!(rt; first(mugs)?, told(3, Reply::Level(3, 0)));
    assert_eq!(rt; first(cups)?, told(4, Reply::Level(1, 0)));
    Ok(())
}

#[test]
fn a_payment_sells(rt: HostRuntime) -> Result<(), Fail> {
    let (nothing, mugs, cups) = paid_checkout(rt.alloc())?;
    assert!(rt; nothing.is_empty());
    assert_eq!(rt; first(mugs)?, told(3, Reply::Level(1, 0)));
    assert_eq!(rt; first(cups)?, told(4, Reply::Level(0, 0)));
    Ok(())
}

#[test]
fn no_more_can_be_stocked_than_the_limit(rt: HostRuntime) -> Result<(), Fail> {
    let (all, over) = full_stock(rt.alloc())?;
    assert_eq!(rt; first(all)?, told(1, Reply::Stocked(1_000_000_000)));
    assert_eq!(rt; first(over)?, told(2, Reply::Refused(Rule::StockOver)));
    Ok(())
}
