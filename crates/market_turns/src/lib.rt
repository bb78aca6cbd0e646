//! The nodes of the marketplace: a core with its ends of rings, and what it does in a turn. In a turn a node
//! sends what may be sent on each link out of it and a count back on each link into it, notes the counts that
//! came back, and takes the events that waited; a lane then goes through its queue of given requests. A turn
//! looks only at the node's own ends and at what the last meeting told.
#![tactic(auto)]

mod asking;
mod counting;
mod lane_node;
mod ring_node;
mod sending;
mod taking;

pub use lane_node::LaneNode;
pub use ring_node::{RingNode, ServiceNode};
