//! Changes of products, and what a copy of them shows.

use market_amounts::Cents;

/// A change of one product.
#[derive(Clone, Copy, Debug, PartialEq, Eq)]
pub enum Change {
    /// With price and freight.
    Created(Cents, Cents),
    /// With the new price; the freight stays.
    Priced(Cents),
    Deleted,
}

/// What a copy shows of one product.
#[derive(Clone, Copy, Debug, PartialEq, Eq)]
pub enum Look {
    /// The product had no change.
    Unknown,
    /// It was deleted, at this version.
    Gone(u32),
    /// Its version, price and freight.
    Live(u32, Cents, Cents),
}
