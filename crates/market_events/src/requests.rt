//! Requests.

ghost use Rattle.std.specs.Prelude.{◌≡◌, Ok};

use market_amounts::{Cents, CheckoutId, ProductKey, Quantity, RequestId};
use std::alloc::AllocError;

/// What a request asks for. Its fields stand in the order of the workload's arguments, a seller with a
/// product being one key.
#[derive(Clone, Copy, Debug, PartialEq, Eq)]
pub enum Ask {
    /// A new product, with price and freight.
    Create(ProductKey, Cents, Cents),
    /// A new price.
    Price(ProductKey, Cents),
    /// A product is there no more.
    Delete(ProductKey),
    /// What the cart's copy shows of a product.
    View(ProductKey),
    /// A line in a customer's cart, with quantity and voucher.
    Line(u32, ProductKey, Quantity, Cents),
    /// A customer's line of this product is removed.
    Remove(u32, ProductKey),
    /// A checkout of a customer's cart.
    Checkout(u32),
    /// More pieces in stock: 1 to 1,000,000,000.
    Stock(ProductKey, u32),
    /// How many pieces are in stock, and how many of them are reserved.
    Level(ProductKey),
    /// The order of a checkout.
    Order(CheckoutId),
    /// A customer's card, with its limit: up to 10^15 cents.
    Card(u32, u64),
    /// Packages of the ten sellers whose oldest open packages are the oldest are delivered.
    Deliver,
    /// How many payments of a customer were confirmed and failed, and how many packages were delivered.
    Customer(u32),
    /// The entries in progress of a seller.
    Dashboard(u32),
}

/// A request: its id, and what it asks for.
#[derive(Clone, Copy, Debug, PartialEq, Eq)]
pub struct Request {
    pub id: RequestId,
    pub ask: Ask,
}

impl Request {
    /// An equal request.
    pub fn try_copy(&self) -> Result<Request, AllocError>
        ensures { result ≡ Ok self.now }
    {
        Ok(*self)
    }
}
