//! A change of an entry.

ghost use Rattle.std.specs.Prelude.{◌≡◌};
ghost use Rattle.market_events.specs.Sellers.{adds};
ghost use Rattle.seller_service.specs.Dashboards.{id_at};

use market_amounts::{CheckoutId, ProductKey};
use market_events::{OrderStatus, PricedLine};
use std::marker::Model;

/// A change of a seller's entry: a line of a checkout, and the status that it gets.
#[derive(Clone, Copy, Debug)]
pub struct Change {
    pub checkout: CheckoutId,
    pub line: PricedLine,
    pub status: OrderStatus,
}

impl Model for Change {
    ghost use Rattle.market_events.specs.Sellers.{SellerChange};

    ghost Value = { SellerChange };

    ghost view = { λ change.
        record { checkout = change.checkout; line = change.line; status = change.status } };

    ghost inverse = { λ change.
        record { checkout = change.checkout; line = change.line; status = change.status } };
}

/// Which entry a change is of: the checkout, and the product of the line.
#[derive(Clone, Copy, Debug, PartialEq, Eq, PartialOrd, Ord)]
pub struct EntryId {
    pub checkout: CheckoutId,
    pub product: ProductKey,
}

/// Which entry a change is of.
pub fn id_of(change: &Change) -> EntryId
    ensures { result ≡ id_at change.now }
{
    EntryId {
        checkout: change.checkout,
        product: change.line.key,
    }
}

/// Whether an entry with this status is new.
pub fn is_new(status: OrderStatus) -> bool
    ensures { result ≡ adds status }
{
    matches!(status, OrderStatus::Invoiced)
}
