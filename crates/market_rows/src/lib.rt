//! The rows of histories: the text of each entry at its place, written and read back, and what a shelf that
//! holds the rows of histories holds. A row is read exactly where it is the row of that node and place.
#![tactic(auto)]

mod carried;
mod faults;
mod fields;
mod happening;
pub mod laws;
mod links;
mod pasts;
mod readers;
mod writers;

pub use faults::RowFault;
pub use readers::read_row;
pub use writers::entry_row;
