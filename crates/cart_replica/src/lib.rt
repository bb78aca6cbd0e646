//! A copy of the products: of each product its version, price and freight, or that it was deleted, as the
//! changes that were applied leave it. A look-up answers what those changes say; nothing here sends or
//! receives.
#![tactic(auto)]

mod cells;
mod replica;
#[cfg(test)]
mod tests;

pub use cells::look_text;
pub use market_events::Look;
pub use replica::ProductCopy;
