//! The tests of nodes and of worlds, which stand in a crate of their own, since a crate with tests is proved
//! twice.
#![tactic(auto)]

#[cfg(test)]
mod node_tests;
#[cfg(test)]
mod schedule_tests;
#[cfg(test)]
mod table_tests;
