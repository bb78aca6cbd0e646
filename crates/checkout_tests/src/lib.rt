//! The tests of orders and payments, which stand in a crate of their own, since a crate with tests is proved
//! twice.
#![tactic(auto)]

#[cfg(test)]
mod order_tests;
#[cfg(test)]
mod payment_tests;
