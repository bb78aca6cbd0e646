//! What sellers show at a dashboard, through the steps of any service.

ghost use Rattle.std.specs.Prelude.{◌≡◌, [], ◌∷◌, IfOk};
ghost use Rattle.market_events.specs.Examples.{a_line, mug, request};
ghost use Rattle.market_events.specs.ExamplesSeller.{base_invoiced, base_shipped, lines_of_8};
ghost use Rattle.market_events.specs.declared.roles.Role.{Role};
ghost use Rattle.market_events.specs.Links.{seller_node};
ghost use Rattle.market_events.specs.Standing.{Stands};
ghost use Rattle.seller_service.specs.Holds.{Holds};

use market_amounts::{Cents, List, ProductKey, Quantity, RequestId};
use market_events::{
    Ask, Body, Cell, CellName, EntryRow, Item, Link, ORDER_TO_SELLER, OrderStatus, Outs,
    PAYMENT_TO_SELLER, PayRule, PricedLine, Reply, Request, Role, SHIPMENT_TO_SELLER, Tabled,
};
use seller_service::Sellers;
use service_driving::{LANE, step};
use std::alloc::Global;
use std::test::Fail;

const MUG: ProductKey = ProductKey {
    seller: 5,
    product: 10,
};

const FIRST: RequestId = RequestId {
    caller: 7,
    number: 5,
};

const SECOND: RequestId = RequestId {
    caller: 7,
    number: 8,
};

// The links on which the lane asks the sellers, and is told.
const FROM_LANE: Link = Link::Asked(LANE, Role::Seller as u8);

const TO_LANE: Link = Link::Told(Role::Seller as u8, LANE);

// A request for the dashboard of a seller.
fn asked(number: u32, seller: u32) -> Body
    ensures { result ≡ (request seller_node number (Ask.Dashboard seller)).1 }
{
    let id = RequestId { caller: 7, number };
    let ask = Ask::Dashboard(seller);
    Body::Asked(Request { id, ask })
}

// A line of so many mugs.
fn mugs(alloc: Global, quantity: u32, voucher: u64) -> Result<List<PricedLine>, Fail>
    ensures { IfOk result (λ lines. lines ≡ a_line mug quantity 1000 50 voucher ∷ []) }
{
    let line = PricedLine {
        key: MUG,
        quantity: Quantity::try_new(quantity)?,
        price: Cents::try_new(1000)?,
        freight: Cents::try_new(50)?,
        voucher: Cents::try_new(voucher)?,
    };
    Ok(List::from_slice(alloc, &[line])?)
}

// One piece of a product of seller 8, at 1.00.
fn piece(product: u32) -> Result<PricedLine, Fail>
    ensures { IfOk result (λ line. line ≡ a_line (record { seller = 8; product = product }) 1 100 0 0) }
{
    let seller = 8;
    Ok(PricedLine {
        key: ProductKey { seller, product },
        quantity: Quantity::try_new(1)?,
        price: Cents::try_new(100)?,
        freight: Cents::try_new(0)?,
        voucher: Cents::try_new(0)?,
    })
}

// One piece of each of thirty products.
fn thirty_pieces(alloc: Global) -> Result<List<PricedLine>, Fail>
    ensures { IfOk result (λ lines. lines ≡ lines_of_8 30) }
{
    let mut lines = Vec::new(alloc);
    for index in 0..30 {
        let line = piece(index + 1)?;
        lines.push(line)?;
    }
    Ok(List::from_vec(lines))
}

// Sellers that took the invoice of two mugs.
fn with_invoice(alloc: Global) -> Result<Sellers, Fail>
    ensures { IfOk result (λ sellers. Stands Role.Seller Holds sellers base_invoiced) }
{
    let mut sellers = Sellers::new(alloc);
    let lines = mugs(alloc, 2, 100)?;
    let invoice = Body::Invoice(FIRST, 7, lines, 1950);
    step(&mut sellers, alloc, ORDER_TO_SELLER, &invoice)?;
    Ok(sellers)
}

// The same, after these are paid and shipped.
fn with_shipment(alloc: Global) -> Result<Sellers, Fail>
    ensures { IfOk result (λ sellers. Stands Role.Seller Holds sellers base_shipped) }
{
    let mut sellers = with_invoice(alloc)?;
    let lines = mugs(alloc, 2, 100)?;
    let paid = Body::Confirmed(FIRST, 7, lines, 1950);
    step(&mut sellers, alloc, PAYMENT_TO_SELLER, &paid)?;
    let shipped = Body::Shipped(FIRST);
    step(&mut sellers, alloc, SHIPMENT_TO_SELLER, &shipped)?;
    Ok(sellers)
}

// The dashboard of a seller with one entry that is shipped.
fn shipped_entry(alloc: Global) -> Result<Outs, Fail> {
    let mut sellers = with_shipment(alloc)?;
    let asked = asked(6, 5);
    let made = step(&mut sellers, alloc, FROM_LANE, &asked)?;
    Ok(made)
}

// The same, after a second checkout, of one mug.
fn second_entry(alloc: Global) -> Result<Outs, Fail> {
    let mut sellers = with_shipment(alloc)?;
    let lines = mugs(alloc, 1, 0)?;
    let invoice = Body::Invoice(SECOND, 7, lines, 1050);
    step(&mut sellers, alloc, ORDER_TO_SELLER, &invoice)?;
    let lines = mugs(alloc, 1, 0)?;
    let paid = Body::Confirmed(SECOND, 7, lines, 1050);
    step(&mut sellers, alloc, PAYMENT_TO_SELLER, &paid)?;
    let shipped = Body::Shipped(SECOND);
    step(&mut sellers, alloc, SHIPMENT_TO_SELLER, &shipped)?;
    let asked = asked(11, 5);
    let made = step(&mut sellers, alloc, FROM_LANE, &asked)?;
    Ok(made)
}

// The dashboard after there was no payment.
fn cancelled_entry(alloc: Global) -> Result<Outs, Fail> {
    let mut sellers = with_invoice(alloc)?;
    let failed = Body::Failed(FIRST, 7, PayRule::NoCard);
    step(&mut sellers, alloc, PAYMENT_TO_SELLER, &failed)?;
    let asked = asked(6, 5);
    let made = step(&mut sellers, alloc, FROM_LANE, &asked)?;
    Ok(made)
}

// The mugs, delivered to a customer.
fn delivery(alloc: Global, customer: u32) -> Result<Body, Fail>
    ensures { IfOk result (λ body.
        body ≡ Body.Delivered (record { checkout = FIRST; customer = customer; key = MUG } ∷ [])) }
{
    let item = Item {
        checkout: FIRST,
        customer,
        key: MUG,
    };
    let items = List::from_slice(alloc, &[item])?;
    Ok(Body::Delivered(items))
}

// The dashboard after the mugs are delivered.
fn delivered_entry(alloc: Global) -> Result<Outs, Fail> {
    let mut sellers = with_shipment(alloc)?;
    let delivered = delivery(alloc, 7)?;
    step(&mut sellers, alloc, SHIPMENT_TO_SELLER, &delivered)?;
    let asked = asked(6, 5);
    let made = step(&mut sellers, alloc, FROM_LANE, &asked)?;
    Ok(made)
}

// The dashboard after they are delivered to their customer, and then to another one.
fn twice_delivered_entry(alloc: Global) -> Result<Outs, Fail> {
    let mut sellers = with_shipment(alloc)?;
    let delivered = delivery(alloc, 7)?;
    step(&mut sellers, alloc, SHIPMENT_TO_SELLER, &delivered)?;
    let again = delivery(alloc, 8)?;
    step(&mut sellers, alloc, SHIPMENT_TO_SELLER, &again)?;
    let asked = asked(6, 5);
    let made = step(&mut sellers, alloc, FROM_LANE, &asked)?;
    Ok(made)
}

// The dashboard of a seller with sixty entries, of two checkouts.
fn sixty_entries(alloc: Global) -> Result<Outs, Fail> {
    let mut sellers = Sellers::new(alloc);
    let lines = thirty_pieces(alloc)?;
    let first = Body::Invoice(FIRST, 7, lines, 3000);
    step(&mut sellers, alloc, ORDER_TO_SELLER, &first)?;
    let lines = thirty_pieces(alloc)?;
    let second = Body::Invoice(SECOND, 7, lines, 3000);
    step(&mut sellers, alloc, ORDER_TO_SELLER, &second)?;
    let asked = asked(9, 8);
    let made = step(&mut sellers, alloc, FROM_LANE, &asked)?;
    Ok(made)
}

// The cells after a shipment.
fn shipped_cells(alloc: Global) -> Result<Vec<Cell>, Fail> {
    let sellers = with_shipment(alloc)?;
    Ok(sellers.cells()?)
}

// The names of the cells that a delivery changes, and the value of each before it.
fn delivered_cells(alloc: Global) -> Result<(Vec<CellName>, Vec<u8>), Fail> {
    let sellers = with_shipment(alloc)?;
    let delivered = delivery(alloc, 7)?;
    let names = sellers.touches(SHIPMENT_TO_SELLER, &delivered)?;
    let mut values = Vec::new(alloc);
    for name in names.as_slice() {
        let value = sellers.value(name)?;
        values.extend_from_slice(value.as_slice())?;
    }
    Ok((names, values))
}

// A row of a mug of a checkout.
fn row(
    checkout: RequestId,
    quantity: u32,
    amount: u64,
    status: OrderStatus,
) -> Result<EntryRow, Fail> {
    Ok(EntryRow {
        checkout,
        product: 10,
        quantity: Quantity::try_new(quantity)?,
        amount,
        status,
    })
}

// What the lane was told, on which link.
fn first(mut outs: Outs) -> Result<(Link, Body), Fail> {
    let (link, body, _) = outs.first().ok_or("nothing was made")?;
    Ok((link, body))
}

// The dashboard that the lane of caller 7 is told.
fn told(number: u32, point: u32, entries: u32, amount: u128, rows: List<EntryRow>) -> (Link, Body) {
    let id = RequestId { caller: 7, number };
    let reply = Reply::Dashboard(point, entries, amount, rows);
    (TO_LANE, Body::Told(id, reply))
}

#[test]
fn an_entry_is_in_progress_until_it_is_delivered(rt: HostRuntime) -> Result<(), Fail> {
    let shipped = row(FIRST, 2, 1950, OrderStatus::Shipped)?;
    let rows = List::from_slice(rt.alloc(), &[shipped])?;
    assert_eq!(rt;
        first(shipped_entry(rt.alloc())?)?,
        told(6, 3, 1, 1950, rows)
    );
    let none = List::from_vec(Vec::new(rt.alloc()));
    assert_eq!(rt;
        first(delivered_entry(rt.alloc())?)?,
        told(6, 4, 0, 0, none)
    );
    let none = List::from_vec(Vec::new(rt.alloc()));
    assert_eq!(rt;
        first(cancelled_entry(rt.alloc())?)?,
        told(6, 2, 0, 0, none)
    );
    Ok(())
}

#[test]
fn each_item_of_a_line_is_a_change(rt: HostRuntime) -> Result<(), Fail> {
    let none = List::from_vec(Vec::new(rt.alloc()));
    assert_eq!(rt;
        first(twice_delivered_entry(rt.alloc())?)?,
        told(6, 5, 0, 0, none)
    );
    Ok(())
}

#[test]
fn a_second_checkout_adds_its_row(rt: HostRuntime) -> Result<(), Fail> {
    let one = row(FIRST, 2, 1950, OrderStatus::Shipped)?;
    let two = row(SECOND, 1, 1050, OrderStatus::Shipped)?;
    let rows = List::from_slice(rt.alloc(), &[one, two])?;
    assert_eq!(rt;
        first(second_entry(rt.alloc())?)?,
        told(11, 6, 2, 3000, rows)
    );
    Ok(())
}

#[test]
fn a_dashboard_counts_sixty_and_shows_fifty(rt: HostRuntime) -> Result<(), Fail> {
    let (_, body) = first(sixty_entries(rt.alloc())?)?;
    let Body::Told(_, Reply::Dashboard(point, entries, amount, rows)) = body else {
        return Err(Fail::from("no dashboard"));
    };
    let rows = rows.into_vec();
    assert_eq!(rt; point, 60);
    assert_eq!(rt; entries, 60);
    assert_eq!(rt; amount, 6000);
    assert_eq!(rt; rows.len(), 50);
    assert_eq!(rt; rows[0].checkout, FIRST);
    assert_eq!(rt; rows[0].product, 1);
    assert_eq!(rt; rows[29].product, 30);
    assert_eq!(rt; rows[30].checkout, SECOND);
    assert_eq!(rt; rows[49].product, 20);
    Ok(())
}

#[test]
fn entries_and_changes_are_told_in_cells(rt: HostRuntime) -> Result<(), Fail> {
    let cells = shipped_cells(rt.alloc())?;
    assert_eq!(rt; cells.len(), 4);
    assert_eq!(rt; cells[0].name.table.as_slice(), b"change".as_slice());
    assert_eq!(rt; cells[0].name.key.as_slice(), b"5:1".as_slice());
    assert_eq!(rt; cells[0].value.as_slice(), b"1 invoiced".as_slice());
    assert_eq!(rt; cells[1].value.as_slice(), b"1 paid".as_slice());
    assert_eq!(rt; cells[2].value.as_slice(), b"1 shipped".as_slice());
    assert_eq!(rt; cells[3].name.table.as_slice(), b"entry".as_slice());
    assert_eq!(rt; cells[3].name.key.as_slice(), b"5:1".as_slice());
    assert_eq!(rt; cells[3].value.as_slice(), b"7.5:10:2:1950".as_slice());
    let (names, values) = delivered_cells(rt.alloc())?;
    assert_eq!(rt; names.len(), 1);
    assert_eq!(rt; names[0].table.as_slice(), b"change".as_slice());
    assert_eq!(rt; names[0].key.as_slice(), b"5:4".as_slice());
    assert!(rt; values.is_empty());
    Ok(())
}
