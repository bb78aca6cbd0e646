//! Names and values of the cells of orders.

ghost use Rattle.std.specs.Prelude.{◌≡◌, ◌≤◌, length, IfOk, OnOk};
ghost use Rattle.std.specs.List.{IsDistinct, list_any};
ghost use Rattle.market_events.specs.declared.bodies.Item.{Item};
ghost use Rattle.market_events.specs.declared.cells.CellName.{CellName};
ghost use Rattle.market_events.specs.Cells.{cells_listed};
ghost use Rattle.market_events.specs.CellLists.{Within, key_cell, put_some, put_all, last_value};
ghost use Rattle.market_events.specs.Standing.{same_name, is_named};
ghost use Rattle.market_events.specs.Texts.{status_text};
ghost use Rattle.market_events.specs.WellFormed.{IsRequestId};
ghost use Rattle.order_service.specs.Cells.{name_by, text_by, texts_in, table_cells, checkout_changed};

use crate::tables::{Order, OrderTable};
use market_amounts::{CheckoutId, List};
use market_events::{
    Body, Cell, CellList, CellName, Item, NameList, OrderStatus, id_name, id_named,
};
use std::alloc::{AllocError, Global};

const TABLE: &[u8] = b"order";

// The name of a checkout's cell.
pub fn name_of(alloc: Global, checkout: CheckoutId) -> Result<CellName, AllocError>
    ensures { IfOk result (λ name. name ≡ name_by checkout) }
{
    id_name(alloc, TABLE, checkout)
}

// The word of a status.
fn word_of(status: OrderStatus) -> &'static str
    ensures { result.now ≡ status_text status }
{
    match status {
        OrderStatus::Invoiced => "invoiced",
        OrderStatus::Paid => "paid",
        OrderStatus::Shipped => "shipped",
        OrderStatus::Delivered => "delivered",
        OrderStatus::Cancelled => "cancelled",
    }
}

// The text of an order.
fn text_of(alloc: Global, order: Order) -> Result<List<u8>, AllocError>
    ensures { IfOk result (λ text. Some text ≡ text_by (Some order)) }
{
    let status = word_of(order.status);
    let total = order.total;
    let undelivered = order.undelivered;
    let text = format!(in alloc; "{status} {total} {undelivered}")?;
    Ok(List::from_vec(text.into_bytes()))
}

// The text of a checkout's order, none where it has none.
fn text_at(
    alloc: Global,
    orders: &OrderTable,
    checkout: CheckoutId,
) -> Result<Option<List<u8>>, AllocError>
    ensures { IfOk result (λ text. text ≡ texts_in orders.now checkout) }
{
    match orders.get(checkout) {
        Some(order) => Ok(Some(text_of(alloc, order)?)),
        None => Ok(None),
    }
}

// Puts the cell of a checkout's order, where it has one.
fn put(
    alloc: Global,
    cells: &mut CellList,
    orders: &OrderTable,
    checkout: CheckoutId,
) -> Result<(), AllocError>
    ensures { OnOk result (cells.new
        ≡ put_some cells.old (key_cell name_by (texts_in orders.now) checkout)) }
{
    let Some(text) = text_at(alloc, orders, checkout)? else {
        return Ok(());
    };
    let name = name_of(alloc, checkout)?;
    cells.put(name, text)
}

// Puts the cells of all orders.
fn put_orders(alloc: Global, orders: &OrderTable, cells: &mut CellList) -> Result<(), AllocError>
    ensures { OnOk result (cells.new ≡ put_all cells.old (table_cells orders.now)) }
{
    for checkout in orders.checkouts() {
        put(alloc, cells, orders, *checkout)?;
    }
    Ok(())
}

// The cells of all orders, by rising name.
pub fn cells_of(alloc: Global, orders: &OrderTable) -> Result<Vec<Cell>, AllocError>
    ensures { IfOk result (λ cells. cells.items ≡ cells_listed (table_cells orders.now)) }
{
    let mut cells = CellList::new(alloc);
    put_orders(alloc, orders, &mut cells)?;
    cells.into_cells()
}

// The value at a name, none where it is the name of no cell.
pub fn value_named(
    alloc: Global,
    orders: &OrderTable,
    name: &CellName,
) -> Result<Option<List<u8>>, AllocError>
    ensures { IfOk result (λ value. Within IsRequestId (texts_in orders.now)
        → value ≡ last_value name.now (table_cells orders.now)) }
{
    let Some(checkout) = id_named(TABLE, name) else {
        return Ok(None);
    };
    text_at(alloc, orders, checkout)
}

// The checkout whose order a body changes, but for a delivery.
pub fn checkout_in(body: &Body) -> Option<CheckoutId>
    ensures { result ≡ checkout_changed body.now }
{
    match body {
        Body::StockConfirmed(checkout, ..)
        | Body::Confirmed(checkout, ..)
        | Body::Failed(checkout, ..)
        | Body::Shipped(checkout) => Some(*checkout),
        _ => None,
    }
}

// The names of the cells of the items' checkouts, each once.
pub fn names_of(alloc: Global, items: &[Item]) -> Result<Vec<CellName>, AllocError>
    ensures named { IfOk result (λ names. (name : CellName)
        → is_named names.items name
        ≡ list_any (λ (i : Item). same_name name (name_by i.checkout)) items.now) }
    ensures differ { IfOk result (λ names. IsDistinct same_name names.items) }
    ensures few { IfOk result (λ names. length names.items ≤ length items.now) }
{
    let mut names = NameList::new(alloc);
    for item in items {
        names.put(name_of(alloc, item.checkout)?)?;
    }
    names.into_names()
}
