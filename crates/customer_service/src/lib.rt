//! The customers as a service. It counts of each customer how many payments were confirmed and failed, and
//! how many packages were delivered.
#![tactic(auto)]

mod answers;
mod cells;
mod service;
mod tables;

pub use service::Customers;
pub use tables::Tally;
