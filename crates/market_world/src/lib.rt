//! The world: the cores of all nodes in one place, without rings. Every event that was made can be offered at
//! once, again and in any order, so every schedule can be played on it. Nothing here runs.
#![tactic(auto)]

mod copies;
mod cores;
mod lanes;
mod outstanding;
mod places;
mod schedule;
mod world;

pub use copies::copy_of;
pub use outstanding::{oldest, settled};
pub use schedule::run_schedule;
pub use world::World;
