//! The product service. It creates, prices and deletes products, each change of a product making its next
//! version, and tells stock and the cart of each change. What it keeps is the copy of its own changes. To be
//! read in this order: `service`, `answers` with `changing`, `cells`.
#![tactic(auto)]

mod answers;
mod cells;
mod changing;
mod service;

pub use service::Products;
