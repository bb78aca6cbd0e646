//! Steps and a keeper of any service, which drive a service by its traits alone. The tests of the services
//! take their steps by it, and their requests from its lane.
#![tactic(auto)]

mod driving;
mod keeper;
mod lane;
#[cfg(test)]
mod outs_tests;

pub use driving::{drive, step};
pub use keeper::Keeper;
pub use lane::LANE;
