//! Stock: how many pieces of each product are on hand, and how many of them the checkouts that wait for their
//! payment have reserved. A checkout gets all its pieces or none. To be read in this order: `service`,
//! `levels` with `level`, `held_lines`, `answers` with `refusals`, `cells`, `laws`.
#![tactic(auto)]

mod answers;
mod cells;
mod held_lines;
pub mod laws;
mod level;
mod levels;
mod refusals;
mod service;

pub use level::Level;
pub use service::Stocks;
