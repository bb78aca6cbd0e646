//! The outside world as the marketplace sees it: sources of bytes, sinks of bytes and shelves of rows, each
//! with a count of its faults. A call answers that it failed only where that count rose. Sources, sinks and
//! shelves in memory fail at chosen calls; sources and sinks over std's readers and writers tell nothing of
//! their bytes.
#![tactic(auto)]

mod faults;
pub mod laws;
mod shelves;
mod sinks;
mod sources;
#[cfg(test)]
mod tests;

pub use faults::Failed;
pub use shelves::{MemoryShelf, Row, Shelf, ShelfError};
pub use sinks::{MemorySink, Sink, StdSink};
pub use sources::{MemorySource, Source, StdSource};
