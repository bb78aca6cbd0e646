//! Single words: a text cut into pieces, and the spelling of numbers, ids and keys, both ways. Nothing here
//! knows of events.
#![tactic(auto)]

mod faults;
mod forms;
mod parts;
mod pieces;

pub use faults::WordFault;
pub use forms::{both, id, id_number, key, key_of_two, number_within, wide_number_within};
pub use parts::{IdText, KeyText};
pub use pieces::{Pieces, cut};
