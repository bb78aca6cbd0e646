//! The tests of shipments, sellers and customers, which stand in a crate of their own, since a crate with
//! tests is proved twice.
#![tactic(auto)]

#[cfg(test)]
mod customer_tests;
#[cfg(test)]
mod seller_tests;
#[cfg(test)]
mod shipment_tests;
