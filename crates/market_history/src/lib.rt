//! The journals of the nodes: what may stand in one, what was sent and taken on each link, the clocks, and
//! which events come before which; which histories are lawful, what a schedule makes of them, and what they
//! come to. A journal grows at its end alone.
#![tactic(auto)]

pub mod examples;
mod histories;
mod journals;
mod schedule;
#[cfg(test)]
mod tests;

pub use histories::Histories;
pub use journals::Journal;
pub use schedule::{Give, Outcome, Step, Summary};
