//! The orders as a service. It keeps how far each checkout is whose pieces stock reserved, what it costs, and
//! how many of its lines were not delivered yet. It invoices a checkout, and tells the cart how it ended.
#![tactic(auto)]

mod answers;
mod cells;
mod service;
mod tables;

pub use service::Orders;
pub use tables::Order;
