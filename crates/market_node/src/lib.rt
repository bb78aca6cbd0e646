//! The cores of the nodes, without rings. A core takes the events that are offered to it and the requests
//! that it is given, keeps its journal, and makes events: of a service, what the service answers, and of a
//! lane, what asks the service of a request. Nothing here runs.
#![tactic(auto)]

mod cores;
mod counting;
mod lane_core;
mod lists;
mod making;
mod node_core;
mod places;
mod reading;
mod received;
mod recorder;
mod senders;
mod table;
mod writing;

pub use cores::Core;
pub use lane_core::{LaneCore, MOST_KEPT};
pub use node_core::NodeCore;
