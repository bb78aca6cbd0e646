//! What events tell.

ghost use Rattle.std.specs.Prelude.{◌≡◌, IfOk};

use crate::changes::Change;
use crate::replies::Reply;
use crate::requests::Request;
use market_amounts::{Cents, CheckoutId, List, ProductKey, Quantity, RequestId};
use std::alloc::AllocError;

/// A line of a checkout, with the price and the freight that the cart's copy showed.
#[derive(Clone, Copy, Debug, PartialEq, Eq)]
pub struct PricedLine {
    pub key: ProductKey,
    pub quantity: Quantity,
    pub price: Cents,
    pub freight: Cents,
    pub voucher: Cents,
}

/// A package that was delivered: its checkout with the customer, and its product.
#[derive(Clone, Copy, Debug, PartialEq, Eq)]
pub struct Item {
    pub checkout: CheckoutId,
    pub customer: u32,
    pub key: ProductKey,
}

/// Why stock reserved nothing.
#[derive(Clone, Copy, Debug, PartialEq, Eq)]
pub enum StockRule {
    /// The product is not there.
    Gone,
    /// Too few pieces of it are free.
    Short,
}

/// Why a payment failed.
#[derive(Clone, Copy, Debug, PartialEq, Eq)]
pub enum PayRule {
    /// The customer has no card.
    NoCard,
    /// The total goes over the card's limit.
    OverLimit,
}

/// How a checkout ended.
#[derive(Clone, Copy, Debug, PartialEq, Eq)]
pub enum Ending {
    /// With this total.
    Whole(u64),
    Undone(PayRule),
}

/// What an event tells. Checkouts are named by the ids of their requests; lines are 1 to 32 and stand by
/// rising key.
#[derive(Debug, Drop, PartialEq)]
pub enum Body {
    /// A change of a product, with the version that it makes.
    Changed(ProductKey, u32, Change),
    /// The cart asks stock for a checkout's pieces: its customer and lines.
    Reserve(CheckoutId, u32, List<PricedLine>),
    /// Stock reserved nothing for the checkout, because of this product.
    ReserveFailed(CheckoutId, ProductKey, StockRule),
    /// Stock reserved the pieces of the checkout: its customer and lines.
    StockConfirmed(CheckoutId, u32, List<PricedLine>),
    /// What the checkout costs: its customer, its lines and their total.
    Invoice(CheckoutId, u32, List<PricedLine>, u64),
    /// The checkout is paid: its customer, its lines and their total.
    Confirmed(CheckoutId, u32, List<PricedLine>, u64),
    /// How the checkout ended.
    Ended(CheckoutId, Ending),
    /// The checkout of this customer is not paid.
    Failed(CheckoutId, u32, PayRule),
    /// The checkout's packages are on their way.
    Shipped(CheckoutId),
    /// Packages that were delivered: 1 to 320.
    Delivered(List<Item>),
    /// A lane asks a service.
    Asked(Request),
    /// A service tells a lane the reply to a request.
    Told(RequestId, Reply),
}

impl Body {
    /// An equal body.
    pub fn try_copy(&self) -> Result<Body, AllocError>
        ensures { IfOk result (λ copy. copy ≡ self.now) }
    {
        Ok(match self {
            Body::Changed(key, version, change) => Body::Changed(*key, *version, *change),
            Body::Reserve(checkout, customer, lines) => {
                Body::Reserve(*checkout, *customer, lines.try_copy()?)
            }
            Body::ReserveFailed(checkout, key, rule) => {
                Body::ReserveFailed(*checkout, *key, *rule)
            }
            Body::StockConfirmed(checkout, customer, lines) => {
                Body::StockConfirmed(*checkout, *customer, lines.try_copy()?)
            }
            Body::Invoice(checkout, customer, lines, total) => {
                Body::Invoice(*checkout, *customer, lines.try_copy()?, *total)
            }
            Body::Confirmed(checkout, customer, lines, total) => {
                Body::Confirmed(*checkout, *customer, lines.try_copy()?, *total)
            }
            Body::Ended(checkout, ending) => Body::Ended(*checkout, *ending),
            Body::Failed(checkout, customer, rule) => Body::Failed(*checkout, *customer, *rule),
            Body::Shipped(checkout) => Body::Shipped(*checkout),
            Body::Delivered(items) => Body::Delivered(items.try_copy()?),
            Body::Asked(request) => Body::Asked(request.try_copy()?),
            Body::Told(id, reply) => Body::Told(*id, reply.try_copy()?),
        })
    }
}
