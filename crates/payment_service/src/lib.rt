//! The payments as a service. It keeps the limit of each customer's card and what the customer spent, and
//! says of each invoice whether it is paid: where the customer has a card whose limit holds it beside what
//! was spent before.
#![tactic(auto)]

mod answers;
mod cells;
mod service;
mod tables;

pub use service::Payments;
pub use tables::Account;
