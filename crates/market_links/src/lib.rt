//! The two ends of a link. A receiver counts the events that it took and says of each that is offered whether
//! it is next; a sender keeps the events that were not acknowledged, and shows the few that may be sent. At a
//! node each link has a slot. Nothing here runs.
#![tactic(auto)]

mod receiver;
mod sender;
mod slots;
#[cfg(test)]
mod tests;

pub use market_events::Offer;
pub use receiver::Receiver;
pub use sender::Sender;
pub use slots::{SLOTS, link_from, link_into, slot_at_receiver, slot_at_sender};
