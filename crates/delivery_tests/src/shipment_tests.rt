//! What shipments tell and deliver, through the steps of any service.

ghost use Rattle.std.specs.Prelude.{◌≡◌, map, IfOk};
ghost use Rattle.market_events.specs.Examples.{an_id};
ghost use Rattle.market_events.specs.ExamplesShipment.{piece_of, deliver};

use market_amounts::{Cents, List, ProductKey, Quantity, RequestId};
use market_events::{
    Ask, Body, Cell, CellName, Item, Link, Outs, PAYMENT_TO_SHIPMENT, PricedLine, Reply, Request,
    Role, SHIPMENT_TO_CUSTOMER, SHIPMENT_TO_ORDER, SHIPMENT_TO_SELLER, Tabled,
};
use service_driving::{LANE, step};
use shipment_service::Shipments;
use std::alloc::{AllocError, Global};
use std::process::Abort;
use std::test::Fail;

// A product of seller 30, and one of each of the sellers 1 to 10.
const THIRTIETH: [ProductKey; 1] = [ProductKey {
    seller: 30,
    product: 10,
}];

const FIRST_TEN: [ProductKey; 10] = [
    ProductKey {
        seller: 1,
        product: 10,
    },
    ProductKey {
        seller: 2,
        product: 10,
    },
    ProductKey {
        seller: 3,
        product: 10,
    },
    ProductKey {
        seller: 4,
        product: 10,
    },
    ProductKey {
        seller: 5,
        product: 10,
    },
    ProductKey {
        seller: 6,
        product: 10,
    },
    ProductKey {
        seller: 7,
        product: 10,
    },
    ProductKey {
        seller: 8,
        product: 10,
    },
    ProductKey {
        seller: 9,
        product: 10,
    },
    ProductKey {
        seller: 10,
        product: 10,
    },
];

const MUG_AND_CUP: [ProductKey; 2] = [
    ProductKey {
        seller: 5,
        product: 10,
    },
    ProductKey {
        seller: 5,
        product: 11,
    },
];

const MUGS: [ProductKey; 1] = [ProductKey {
    seller: 5,
    product: 10,
}];

// The links on which the lane asks shipments, and is told.
const FROM_LANE: Link = Link::Asked(LANE, Role::Shipment as u8);

const TO_LANE: Link = Link::Told(Role::Shipment as u8, LANE);

// A checkout of caller 7.
fn checkout(number: u32) -> RequestId
    ensures { result ≡ an_id 7 number }
{
    RequestId { caller: 7, number }
}

// The request of caller 7 with this number for a delivery.
fn deliver(number: u32) -> Body
    ensures { result ≡ (deliver number).1 }
{
    Body::Asked(Request {
        id: checkout(number),
        ask: Ask::Deliver,
    })
}

// A piece of a product, for 1.00.
fn piece(key: ProductKey) -> Result<PricedLine, Fail>
    ensures { IfOk result (λ line. line ≡ piece_of key) }
{
    Ok(PricedLine {
        key,
        quantity: Quantity::try_new(1)?,
        price: Cents::try_new(100)?,
        freight: Cents::try_new(0)?,
        voucher: Cents::try_new(0)?,
    })
}

// The checkout with this number has a piece of each of these products, for 1.00, and is paid.
fn paid(alloc: Global, number: u32, total: u64, keys: &[ProductKey]) -> Result<Body, Fail>
    ensures { IfOk result (λ body. body ≡ Body.Confirmed (an_id 7 number) 7 (map piece_of keys.now) total) }
{
    let mut lines = Vec::new(alloc);
    for key in keys {
        lines.push(piece(*key)?)?;
    }
    Ok(Body::Confirmed(checkout(number), 7, List::from_vec(lines), total))
}

// The packages of the checkout with this number with these products.
fn items(alloc: Global, number: u32, keys: &[ProductKey]) -> Result<Vec<Item>, AllocError> {
    keys.iter()
        .map(|key| Item {
            checkout: checkout(number),
            customer: 7,
            key: *key,
        })
        .collect(alloc)
}

// The next body was made for this link.
fn assert_next(rt: &impl Abort, outs: &mut Outs, link: Link, body: &Body) -> Result<(), Fail> {
    let (to, made, _) = outs.first().ok_or("nothing was made")?;
    assert_eq!(rt; to, link);
    assert_eq!(rt; &made, body);
    Ok(())
}

// The sellers and then the orders are told that the checkout left, and no one else.
fn assert_shipped(rt: &impl Abort, mut outs: Outs, number: u32) -> Result<(), Fail> {
    let shipped = Body::Shipped(checkout(number));
    assert_next(rt, &mut outs, SHIPMENT_TO_SELLER, &shipped)?;
    assert_next(rt, &mut outs, SHIPMENT_TO_ORDER, &shipped)?;
    assert!(rt; outs.is_empty());
    Ok(())
}

// The lane of caller 7 is told how many sellers and packages were served, and no one else.
fn assert_told(
    rt: &impl Abort,
    mut outs: Outs,
    number: u32,
    sellers: u32,
    packages: u32,
) -> Result<(), Fail> {
    let told = Body::Told(checkout(number), Reply::Delivered(sellers, packages));
    assert_next(rt, &mut outs, TO_LANE, &told)?;
    assert!(rt; outs.is_empty());
    Ok(())
}

// The customers, the sellers and the orders are told these packages, and then the lane how many.
fn assert_delivered(
    rt: &impl Abort,
    mut outs: Outs,
    number: u32,
    sellers: u32,
    packages: Vec<Item>,
) -> Result<(), Fail> {
    let count = packages.len().min(320) as u32;
    let delivered = Body::Delivered(List::from_vec(packages));
    assert_next(rt, &mut outs, SHIPMENT_TO_CUSTOMER, &delivered)?;
    assert_next(rt, &mut outs, SHIPMENT_TO_SELLER, &delivered)?;
    assert_next(rt, &mut outs, SHIPMENT_TO_ORDER, &delivered)?;
    assert_told(rt, outs, number, sellers, count)
}

#[test]
fn eleven_sellers_are_served_ten_at_once(rt: HostRuntime) -> Result<(), Fail> {
    let alloc = rt.alloc();
    let mut shipments = Shipments::new(alloc);
    let first = paid(alloc, 1, 100, &THIRTIETH)?;
    let second = paid(alloc, 2, 1000, &FIRST_TEN)?;
    let left = step(&mut shipments, alloc, PAYMENT_TO_SHIPMENT, &first)?;
    let also = step(&mut shipments, alloc, PAYMENT_TO_SHIPMENT, &second)?;
    let eight = deliver(8);
    let ten = step(&mut shipments, alloc, FROM_LANE, &eight)?;
    let nine = deliver(9);
    let one = step(&mut shipments, alloc, FROM_LANE, &nine)?;
    let last = deliver(10);
    let none = step(&mut shipments, alloc, FROM_LANE, &last)?;
    assert_shipped(&rt, left, 1)?;
    assert_shipped(&rt, also, 2)?;
    let mut oldest = items(alloc, 1, &THIRTIETH)?;
    oldest.extend_from_slice(items(alloc, 2, &FIRST_TEN[..9])?.as_slice())?;
    assert_delivered(&rt, ten, 8, 10, oldest)?;
    assert_delivered(&rt, one, 9, 1, items(alloc, 2, &FIRST_TEN[9..])?)?;
    assert_told(&rt, none, 10, 0, 0)
}

#[test]
fn the_older_checkout_of_a_seller_comes_first(rt: HostRuntime) -> Result<(), Fail> {
    let alloc = rt.alloc();
    let mut shipments = Shipments::new(alloc);
    let first = paid(alloc, 1, 200, &MUG_AND_CUP)?;
    let second = paid(alloc, 2, 100, &MUGS)?;
    let left = step(&mut shipments, alloc, PAYMENT_TO_SHIPMENT, &first)?;
    let also = step(&mut shipments, alloc, PAYMENT_TO_SHIPMENT, &second)?;
    let eight = deliver(8);
    let older = step(&mut shipments, alloc, FROM_LANE, &eight)?;
    assert_eq!(rt; left.len() + also.len(), 4);
    assert_delivered(&rt, older, 8, 1, items(alloc, 1, &MUG_AND_CUP)?)
}

// The name of the package with this number.
fn assert_name(rt: &impl Abort, name: &CellName, number: &[u8]) {
    assert_eq!(rt; name.table.as_slice(), b"package".as_slice());
    assert_eq!(rt; name.key.as_slice(), number);
}

// The cell of the package with this number, and its value.
fn assert_cell(rt: &impl Abort, cell: &Cell, number: &[u8], value: &[u8]) {
    assert_name(rt, &cell.name, number);
    assert_eq!(rt; cell.value.as_slice(), value);
}

#[test]
fn packages_are_told_in_cells(rt: HostRuntime) -> Result<(), Fail> {
    let alloc = rt.alloc();
    let mut shipments = Shipments::new(alloc);
    let first = paid(alloc, 1, 200, &MUG_AND_CUP)?;
    let second = paid(alloc, 2, 100, &MUGS)?;
    let left = step(&mut shipments, alloc, PAYMENT_TO_SHIPMENT, &first)?;
    let also = step(&mut shipments, alloc, PAYMENT_TO_SHIPMENT, &second)?;
    let eight = deliver(8);
    let older = step(&mut shipments, alloc, FROM_LANE, &eight)?;
    let cells = shipments.cells()?;
    assert_eq!(rt; left.len() + also.len() + older.len(), 8);
    assert_eq!(rt; cells.len(), 3);
    let third = shipments.value(&cells[2].name)?;
    assert_eq!(rt; third.as_slice(), b"7.2:7:5:10 open".as_slice());
    assert_cell(&rt, &cells[0], b"1", b"7.1:7:5:10 closed");
    assert_cell(&rt, &cells[1], b"2", b"7.1:7:5:11 closed");
    assert_cell(&rt, &cells[2], b"3", b"7.2:7:5:10 open");
    Ok(())
}

#[test]
fn packages_that_change_are_named(rt: HostRuntime) -> Result<(), Fail> {
    let alloc = rt.alloc();
    let mut shipments = Shipments::new(alloc);
    let first = paid(alloc, 1, 200, &MUG_AND_CUP)?;
    let second = paid(alloc, 2, 100, &MUGS)?;
    let left = step(&mut shipments, alloc, PAYMENT_TO_SHIPMENT, &first)?;
    let named = shipments.touches(PAYMENT_TO_SHIPMENT, &second)?;
    let also = step(&mut shipments, alloc, PAYMENT_TO_SHIPMENT, &second)?;
    let eight = deliver(8);
    let closing = shipments.touches(FROM_LANE, &eight)?;
    assert_eq!(rt; left.len() + also.len(), 4);
    assert_eq!(rt; named.len(), 1);
    assert_name(&rt, &named[0], b"3");
    assert_eq!(rt; closing.len(), 2);
    assert_name(&rt, &closing[0], b"1");
    assert_name(&rt, &closing[1], b"2");
    Ok(())
}
