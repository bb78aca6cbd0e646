//! The tests of values, of their texts and of the records of a workload, which stand in a crate of their own,
//! since a crate with tests is proved twice.
#![tactic(auto)]

#[cfg(test)]
mod event_tests;
#[cfg(test)]
mod link_tests;
#[cfg(test)]
mod text_tests;
#[cfg(test)]
mod workload_tests;
