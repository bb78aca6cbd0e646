//! Requests of caller 7, one after the other, and what is made of them, which comes from the rules and not
//! from here.

ghost use Rattle.std.specs.Prelude.{◌≡◌, List, true, IfOk};
ghost use Rattle.market_events.specs.Examples.{request};
ghost use Rattle.market_events.specs.Links.{product_node};
ghost use Rattle.market_events.specs.Services.{fits};
ghost use Rattle.market_events.specs.Standing.{Stands, CanTake, with_step};
ghost use Rattle.market_events.specs.Steps.{Step};

use market_amounts::{Cents, ProductKey, RequestId};
use market_events::{
    Ask, Body, Cell, CellName, Change, Link, Outs, PRODUCT_TO_CART, PRODUCT_TO_STOCK, Reply,
    Request, Role, Rule, Tabled,
};
use product_service::Products;
use service_driving::{LANE, step};
use std::alloc::{AllocError, Global};
use std::process::Abort;
use std::test::Fail;

// The links on which the lane asks the products, and is told.
const FROM_LANE: Link = Link::Asked(LANE, Role::Product as u8);

const TO_LANE: Link = Link::Told(Role::Product as u8, LANE);

const MUG: ProductKey = ProductKey {
    seller: 5,
    product: 10,
};

const BOWL: ProductKey = ProductKey {
    seller: 5,
    product: 11,
};

// The request of caller 7 with this number.
fn asked(number: u32, ask: &Ask) -> Body
    ensures { result ≡ (request product_node number ask.now).1 }
{
    let id = RequestId { caller: 7, number };
    Body::Asked(Request { id, ask: *ask })
}

// Takes a request, and gives the names that it touches, and the cells after it.
fn tell<S: Tabled>(
    service: &mut S,
    alloc: Global,
    body: &Body,
) -> Result<(Vec<CellName>, Vec<Cell>), AllocError>
    requires { CanTake S.role S.holds service.old FROM_LANE body.now }
    ensures { IfOk result (λ _. (steps : List Step) → Stands S.role S.holds service.old steps
        → fits S.role steps FROM_LANE body.now ≡ true
        → Stands S.role S.holds service.new (with_step S.role steps FROM_LANE body.now)) }
{
    let names = service.touches(FROM_LANE, body)?;
    step(service, alloc, FROM_LANE, body)?;
    let cells = service.cells()?;
    Ok((names, cells))
}

// The next of what was made is this body on this link.
fn assert_next(rt: &impl Abort, outs: &mut Outs, link: Link, body: &Body) -> Result<(), Fail> {
    let (to, made, copy) = outs.first().ok_or("nothing")?;
    assert_eq!(rt; to, link);
    assert_eq!(rt; &made, body);
    assert_eq!(rt; copy, made);
    Ok(())
}

// The request with this number was told the reply, and nothing else was made.
fn assert_told(rt: &impl Abort, outs: &mut Outs, number: u32, reply: Reply) -> Result<(), Fail> {
    let id = RequestId { caller: 7, number };
    assert_next(rt, outs, TO_LANE, &Body::Told(id, reply))?;
    assert!(rt; outs.is_empty());
    Ok(())
}

// The mug's change with this version was told to stock and then to the cart, and then the reply.
fn assert_changed(
    rt: &impl Abort,
    mut outs: Outs,
    number: u32,
    version: u32,
    change: Change,
    reply: Reply,
) -> Result<(), Fail> {
    let changed = Body::Changed(MUG, version, change);
    assert_next(rt, &mut outs, PRODUCT_TO_STOCK, &changed)?;
    assert_next(rt, &mut outs, PRODUCT_TO_CART, &changed)?;
    assert_told(rt, &mut outs, number, reply)
}

fn assert_refused(rt: &impl Abort, mut outs: Outs, number: u32, rule: Rule) -> Result<(), Fail> {
    assert_told(rt, &mut outs, number, Reply::Refused(rule))
}

#[test]
fn a_second_creation_and_a_price_of_nothing_are_refused(rt: HostRuntime) -> Result<(), Fail> {
    let mut products = Products::new(rt.alloc());
    let price = Cents::try_new(1000)?;
    let freight = Cents::try_new(0)?;
    let create = Ask::Create(MUG, price, freight);
    let create_mug = asked(1, &create);
    let first = step(&mut products, rt.alloc(), FROM_LANE, &create_mug)?;
    let create_again = asked(2, &create);
    let second = step(&mut products, rt.alloc(), FROM_LANE, &create_again)?;
    let price_bowl = asked(3, &Ask::Price(BOWL, price));
    let third = step(&mut products, rt.alloc(), FROM_LANE, &price_bowl)?;
    let created = Change::Created(price, freight);
    assert_changed(&rt, first, 1, 1, created, Reply::Created(1))?;
    assert_refused(&rt, second, 2, Rule::Exists)?;
    assert_refused(&rt, third, 3, Rule::Unknown)
}

#[test]
fn versions_go_on_after_a_deletion(rt: HostRuntime) -> Result<(), Fail> {
    let mut products = Products::new(rt.alloc());
    let price = Cents::try_new(1000)?;
    let freight = Cents::try_new(0)?;
    let create = Ask::Create(MUG, price, freight);
    let create_mug = asked(1, &create);
    step(&mut products, rt.alloc(), FROM_LANE, &create_mug)?;
    let delete_mug = asked(2, &Ask::Delete(MUG));
    let second = step(&mut products, rt.alloc(), FROM_LANE, &delete_mug)?;
    let price_mug = asked(3, &Ask::Price(MUG, price));
    let third = step(&mut products, rt.alloc(), FROM_LANE, &price_mug)?;
    let create_again = asked(4, &create);
    let fourth = step(&mut products, rt.alloc(), FROM_LANE, &create_again)?;
    let created = Change::Created(price, freight);
    assert_changed(&rt, second, 2, 2, Change::Deleted, Reply::Deleted(2))?;
    assert_refused(&rt, third, 3, Rule::Gone)?;
    assert_changed(&rt, fourth, 4, 3, created, Reply::Created(3))
}

#[test]
fn a_creation_is_told_in_a_cell(rt: HostRuntime) -> Result<(), Fail> {
    let mut products = Products::new(rt.alloc());
    let price = Cents::try_new(1000)?;
    let freight = Cents::try_new(0)?;
    let create_mug = asked(1, &Ask::Create(MUG, price, freight));
    let (names, cells) = tell(&mut products, rt.alloc(), &create_mug)?;
    assert_eq!(rt; names.len(), 1);
    assert_eq!(rt; names[0].table.as_slice(), b"product".as_slice());
    assert_eq!(rt; names[0].key.as_slice(), b"5:10".as_slice());
    assert_eq!(rt; cells.len(), 1);
    assert_eq!(rt; cells[0].name, names[0]);
    assert_eq!(rt; cells[0].value.as_slice(), b"live 1 1000 0".as_slice());
    assert_eq!(rt;
        products.value(&names[0])?.as_slice(),
        b"live 1 1000 0".as_slice()
    );
    Ok(())
}
