//! The changes that an event brings, by the lines of the invoices.

ghost use Rattle.std.specs.Prelude.{◌≡◌, filter_map, IfOk};
ghost use Rattle.seller_service.specs.Tables.{lines_at, all_marked, delivered_by, brought_by};

use crate::change::Change;
use crate::tables::Invoices;
use market_amounts::CheckoutId;
use market_events::{Body, Item, OrderStatus, PricedLine};
use std::alloc::{AllocError, Global};

// The lines of a checkout, each with this status.
fn marked(
    alloc: Global,
    checkout: CheckoutId,
    status: OrderStatus,
    lines: &[PricedLine],
) -> Result<Vec<Change>, AllocError>
    ensures { IfOk result (λ changes. changes.items ≡ all_marked checkout status lines.now) }
{
    let mut changes = Vec::new(alloc);
    for line in lines {
        changes.push(Change {
            checkout,
            line: *line,
            status,
        })?;
    }
    Ok(changes)
}

// The line of an item, delivered, where the invoice of its checkout has one.
fn delivered_line(invoices: &Invoices, item: &Item) -> Option<Change>
    ensures { result ≡ delivered_by (lines_at invoices.now) item.now }
{
    let lines = invoices.lines(item.checkout);
    let line = lines.iter().find(|line| line.key == item.key)?;
    Some(Change {
        checkout: item.checkout,
        line: *line,
        status: OrderStatus::Delivered,
    })
}

// The lines of the items, delivered.
fn delivered(alloc: Global, invoices: &Invoices, items: &[Item]) -> Result<Vec<Change>, AllocError>
    ensures { IfOk result (λ changes.
        changes.items ≡ filter_map (delivered_by (lines_at invoices.now)) items.now) }
{
    let mut changes = Vec::new(alloc);
    for item in items {
        if let Some(change) = delivered_line(invoices, item) {
            changes.push(change)?;
        }
    }
    Ok(changes)
}

/// The changes that a body brings, in the order of its lines or items.
pub fn brought(alloc: Global, invoices: &Invoices, body: &Body) -> Result<Vec<Change>, AllocError>
    ensures { IfOk result (λ changes. changes.items ≡ brought_by (lines_at invoices.now) body.now) }
{
    match body {
        Body::Invoice(checkout, _, lines, _) => {
            marked(alloc, *checkout, OrderStatus::Invoiced, lines.as_slice())
        }
        Body::Confirmed(checkout, ..) => {
            let lines = invoices.lines(*checkout);
            marked(alloc, *checkout, OrderStatus::Paid, lines)
        }
        Body::Failed(checkout, ..) => {
            let lines = invoices.lines(*checkout);
            marked(alloc, *checkout, OrderStatus::Cancelled, lines)
        }
        Body::Shipped(checkout) => {
            let lines = invoices.lines(*checkout);
            marked(alloc, *checkout, OrderStatus::Shipped, lines)
        }
        Body::Delivered(items) => delivered(alloc, invoices, items.as_slice()),
        _ => Ok(Vec::new(alloc)),
    }
}
