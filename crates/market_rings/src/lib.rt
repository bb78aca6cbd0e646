//! The rings between the nodes: the fates that packets meet, the ends of the rings, which node has which, and
//! how they are brought together. Nothing here runs.
#![tactic(auto)]

mod ends;
mod fates;
mod inlets;
mod link_ends;
mod outlets;
mod packets;
mod rings;
mod wiring;

pub use ends::{Ends, meet};
pub use fates::{Fate, FateList, Fates, Way};
pub use inlets::Inlet;
pub use link_ends::{LinkIn, LinkOut};
pub use outlets::Outlet;
pub use packets::Packet;
pub use rings::{look, ring};
pub use wiring::wire;
