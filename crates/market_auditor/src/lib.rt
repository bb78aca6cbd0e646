//! The auditor: six criteria by which histories are judged, the laws that all six hold exactly where the
//! histories are lawful and that there is a first difference where one does not, and watchers of the
//! criteria on numbers, clocks and readiness, with the walk of a watcher over a journal.
#![tactic(auto)]

mod clocks;
pub mod laws;
mod numbers;
mod readiness;
mod slot_counts;
mod verdicts;
mod watching;

pub use verdicts::{Criterion, Difference, Verdict};
