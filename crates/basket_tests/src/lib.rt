//! The tests of products, carts and stock, which stand in a crate of their own, since a crate with tests is
//! proved twice.
#![tactic(auto)]

#[cfg(test)]
mod cart_tests;
#[cfg(test)]
mod cart_trial;
#[cfg(test)]
mod product_tests;
#[cfg(test)]
mod stock_tests;
