//! Dashboards: the entries of a seller that are in progress.

ghost use Rattle.std.specs.Prelude.{◌≡◌, ◌<◌, ◌^◌, length, filter_map, IfOk, sum_by};
ghost use Rattle.market_events.specs.declared.replies.EntryRow.{EntryRow as Row};
ghost use Rattle.market_events.specs.Sellers.{in_progress_at, row_by};
ghost use Rattle.seller_service.specs.Dashboards.{shown_at, dashboard_at, status_in_table};

use crate::change::{Change, is_new};
use crate::statuses::Statuses;
use market_amounts::{List, line_amount};
use market_events::{EntryRow, OrderStatus, Reply};
use std::alloc::{AllocError, Global};

// How many rows a dashboard shows at most.
const MOST_ROWS: usize = 50;

// The row of an entry whose last status is this, where it is in progress.
fn row_of(entry: &Change, status: Option<OrderStatus>) -> Option<EntryRow>
    ensures { result ≡ row_by entry.now status }
{
    let status = status?;
    match status {
        OrderStatus::Invoiced | OrderStatus::Paid | OrderStatus::Shipped => {}
        OrderStatus::Delivered | OrderStatus::Cancelled => return None,
    }
    let line = &entry.line;
    Some(EntryRow {
        checkout: entry.checkout,
        product: line.key.product,
        quantity: line.quantity,
        amount: line_amount(line.price, line.quantity, line.freight, line.voucher),
        status,
    })
}

// The row of the entry that a change adds, where it adds one that is in progress.
fn shown(statuses: &Statuses, change: &Change) -> Option<EntryRow>
    ensures { result ≡ shown_at (status_in_table statuses.now) change.now }
{
    if !is_new(change.status) {
        return None;
    }
    row_of(change, statuses.last(change))
}

// The rows of the entries that these changes add, by the last status of each.
fn all_shown(
    alloc: Global,
    statuses: &Statuses,
    changes: &[Change],
) -> Result<Vec<EntryRow>, AllocError>
    ensures { IfOk result (λ rows. rows.items
        ≡ filter_map (shown_at (status_in_table statuses.now)) changes.now) }
{
    let mut rows = Vec::new(alloc);
    for change in changes {
        if let Some(row) = shown(statuses, change) {
            rows.push(row)?;
        }
    }
    Ok(rows)
}

// The entries in progress, in the order in which they were added.
fn in_progress(alloc: Global, changes: &[Change]) -> Result<Vec<EntryRow>, AllocError>
    ensures { IfOk result (λ rows. rows.items ≡ in_progress_at changes.now) }
{
    let statuses = Statuses::of(alloc, changes)?;
    all_shown(alloc, &statuses, changes)
}

// What the rows come to.
fn amount_of(rows: &[EntryRow]) -> u128
    ensures { result ≡ sum_by (λ (row : Row). row.amount) rows.now }
{
    let mut amount = 0;
    for row in rows {
        amount += u128::from(row.amount);
    }
    amount
}

/// The dashboard of a seller with these changes, which are fewer than 2^32: their number, how many entries
/// are in progress, what these come to, and the first `MOST_ROWS` of them.
pub fn dashboard_of(alloc: Global, changes: &[Change]) -> Result<Reply, AllocError>
    requires { length changes.now < 2 ^ 32 }
    ensures { IfOk result (λ reply. reply ≡ dashboard_at changes.now) }
{
    let point = changes.len() as u32;
    let mut rows = in_progress(alloc, changes)?;
    let entries = rows.len() as u32;
    let amount = amount_of(rows.as_slice());
    rows.truncate(MOST_ROWS);
    Ok(Reply::Dashboard(point, entries, amount, List::from_vec(rows)))
}
