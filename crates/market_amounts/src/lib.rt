//! The lowest floor: the numbers and names of the marketplace, each kept in its range by its type, the amount
//! of a line, the spelling of numbers, and the list that other types hold. Nothing here knows of services or
//! events.
#![tactic(auto)]

mod amounts;
mod keys;
pub mod laws;
mod lists;
mod numbers;
#[cfg(test)]
mod tests;

pub use amounts::{AmountError, Cents, Quantity, line_amount};
pub use keys::{CheckoutId, ProductKey, RequestId};
pub use lists::List;
pub use numbers::{NumberError, read_number, read_wide_number};
