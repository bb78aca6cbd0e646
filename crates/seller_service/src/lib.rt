//! The sellers: each line of a checkout is an entry of its seller, which is invoiced, paid, shipped and
//! delivered, or cancelled. The seller service keeps the changes of each seller's entries, and shows at a
//! dashboard which of them are in progress.
#![tactic(auto)]

mod answers;
mod brought;
mod cells;
mod change;
mod dashboard;
mod ledger;
mod service;
mod statuses;
mod tables;

pub use service::Sellers;
