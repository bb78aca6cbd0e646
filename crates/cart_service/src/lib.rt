//! The cart: a basket for each customer, and the copy of the products that the cart follows. It takes changes
//! of products, requests of customers and the ends of checkouts, one after the other, and answers each by
//! what it took before. To be read in this order: `service`, `baskets` with `basket`, `answers`, `cells`.
#![tactic(auto)]

mod answers;
mod basket;
mod baskets;
mod cells;
mod service;

pub use service::Carts;
