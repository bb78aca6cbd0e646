//! Rounds: all nodes turn, the ends of each link are brought together, and all entries are committed, until
//! all is settled. Here stand what holds between two rounds, the laws that a round keeps it and leaves what
//! the schedule leaves, and the nodes that take part: in eight groups, each of a service and two lanes.
#![tactic(auto)]

mod fated;
mod gate;
mod group;
mod groups;
mod laws;
mod marketplace;
mod meeting;
mod nodes;
mod plan;
mod seats;
mod threads;

pub use gate::{Gate, OpenGate};
pub use laws::{
    events_that_wait_may_be_offered, fresh_nodes_are_between_rounds, made_events_are_found,
    nodes_may_turn_between_rounds, rounds_keep_what_holds_between_them, turns_are_one_schedule,
};
pub use marketplace::Marketplace;
pub use nodes::Nodes;
pub use plan::{Plan, Planned};
