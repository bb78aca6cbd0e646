//! Replies.

ghost use Rattle.std.specs.Prelude.{◌≡◌, IfOk};

use market_amounts::{Cents, CheckoutId, List, ProductKey, Quantity};
use std::alloc::AllocError;

/// Why a request was refused.
#[derive(Clone, Copy, Debug, PartialEq, Eq)]
pub enum Rule {
    /// The product is there already.
    Exists,
    /// The product had no change.
    Unknown,
    /// The product was deleted.
    Gone,
    /// The cart has as many lines as it can have.
    CartFull,
    /// The cart has no line of the product.
    NoLine,
    /// More pieces would be on hand than can be.
    StockOver,
    /// The checkout has no order.
    NoOrder,
    /// The lane keeps as many requests as it can.
    LaneFull,
    /// A request with this id and another content is kept.
    RequestDiffers,
}

/// Why a checkout was undone.
#[derive(Clone, Copy, Debug, PartialEq, Eq)]
pub enum UndoneRule {
    /// The cart had no line.
    CartEmpty,
    /// This product is not there.
    Gone(ProductKey),
    /// Too few pieces of this product are free.
    Short(ProductKey),
    /// The customer has no card.
    NoCard,
    /// The total goes over the card's limit.
    OverLimit,
}

/// How far an order is.
#[derive(Clone, Copy, Debug, PartialEq, Eq)]
pub enum OrderStatus {
    Invoiced,
    Paid,
    Shipped,
    Delivered,
    Cancelled,
}

/// A row of a dashboard: an entry of the seller, which is in progress.
#[derive(Clone, Copy, Debug, PartialEq, Eq)]
pub struct EntryRow {
    pub checkout: CheckoutId,
    pub product: u32,
    pub quantity: Quantity,
    pub amount: u64,
    pub status: OrderStatus,
}

/// The reply to a request.
#[derive(Debug, Drop, PartialEq)]
pub enum Reply {
    /// The product's version.
    Created(u32),
    /// The product's version.
    Priced(u32),
    /// The product's version.
    Deleted(u32),
    /// Version, price and freight.
    View(u32, Cents, Cents),
    /// The line's quantity.
    Line(Quantity),
    Removed,
    /// The checkout's total.
    Whole(u64),
    Undone(UndoneRule),
    /// The pieces on hand: up to 1,000,000,000.
    Stocked(u64),
    /// The pieces on hand and those reserved: up to 1,000,000,000 each.
    Level(u64, u64),
    /// The order's status and total.
    OrderState(OrderStatus, u64),
    /// The card's limit: up to 10^15 cents.
    Card(u64),
    /// How many sellers had packages delivered, and how many packages.
    Delivered(u32, u32),
    /// Payments confirmed and failed, and packages delivered.
    Customer(u32, u32, u32),
    /// The seller's point, the number and amount of the entries in progress, and the first of these: at most
    /// 50.
    Dashboard(u32, u32, u128, List<EntryRow>),
    Refused(Rule),
}

impl Reply {
    /// An equal reply.
    pub fn try_copy(&self) -> Result<Reply, AllocError>
        ensures { IfOk result (λ reply. reply ≡ self.now) }
    {
        Ok(match self {
            Reply::Created(version) => Reply::Created(*version),
            Reply::Priced(version) => Reply::Priced(*version),
            Reply::Deleted(version) => Reply::Deleted(*version),
            Reply::View(version, price, freight) => Reply::View(*version, *price, *freight),
            Reply::Line(quantity) => Reply::Line(*quantity),
            Reply::Removed => Reply::Removed,
            Reply::Whole(total) => Reply::Whole(*total),
            Reply::Undone(rule) => Reply::Undone(*rule),
            Reply::Stocked(on_hand) => Reply::Stocked(*on_hand),
            Reply::Level(on_hand, reserved) => Reply::Level(*on_hand, *reserved),
            Reply::OrderState(status, total) => Reply::OrderState(*status, *total),
            Reply::Card(limit) => Reply::Card(*limit),
            Reply::Delivered(sellers, packages) => Reply::Delivered(*sellers, *packages),
            Reply::Customer(confirmed, failed, delivered) => {
                Reply::Customer(*confirmed, *failed, *delivered)
            }
            Reply::Dashboard(point, entries, amount, rows) => {
                Reply::Dashboard(*point, *entries, *amount, rows.try_copy()?)
            }
            Reply::Refused(rule) => Reply::Refused(*rule),
        })
    }
}
