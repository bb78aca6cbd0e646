//! The texts of requests, replies and bodies, written word by word and read back, and the records of a
//! workload. It knows the values alone, and no definition that speaks of services or of steps.
#![tactic(auto)]

mod body_words;
mod faults;
mod forms;
pub mod laws;
mod lists;
mod names;
mod parts;
mod readers;
mod reply_words;
mod request_words;
mod words;
mod workload;
mod writers;

pub use faults::{BodyError, BodyFault};
pub use readers::{read_body, read_reply, read_request};
pub use workload::{WorkRule, read_fields};
pub use writers::{body_text, reply_text, request_text};
