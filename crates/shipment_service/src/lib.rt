//! Shipments: they make a package for each line of a paid checkout, and deliver packages when they are asked
//! to. A delivery serves the ten sellers whose oldest open packages have the least numbers, and takes of each
//! the open packages of the checkout of that one.
#![tactic(auto)]

mod answers;
mod cells;
mod oldest;
mod package;
mod packages;
mod picked;
mod queue;
mod queues;
mod service;
mod waiting;

pub use package::Package;
pub use service::Shipments;
