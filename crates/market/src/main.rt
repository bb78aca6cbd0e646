//! The marketplace as a program. `run SEED 0` reads a workload from standard input, takes its requests in one
//! after the other, and writes an answer line for each and four lines that count to standard output.
#![tactic(auto)]

mod answers;
#[cfg(test)]
mod checkout_tests;
pub mod hand;
mod input;
mod lanes;
pub mod laws;
mod output;
mod records;
mod runs;
mod services;
mod statuses;
#[cfg(test)]
mod tests;
mod words;
mod workload;

use market_edges::{MemoryShelf, StdSink, StdSource};
pub use runs::market;
pub use statuses::{InputRule, Status};
use std::env;
use std::io::ErrorKind;
use std::process::ExitCode;
use std::rt::Env;

fn main(rt: HostRuntime) -> ExitCode {
    let status = match program_words(&rt) {
        Ok(words) => {
            let mut input = StdSource::new(rt.stdin());
            let mut output = StdSink::new(rt.stdout());
            let mut shelf = MemoryShelf::new(rt.alloc(), Vec::new(rt.alloc()));
            market(&rt, rt.alloc(), &words, &mut input, &mut output, &mut shelf)
        }
        Err(status) => status,
    };
    let _ = status.tell(&mut rt.stderr());
    ExitCode::from(status.exit())
}

// The words after the program's name. One that is not UTF-8 is of no form.
fn program_words(rt: &(impl Env + AllocGlobal)) -> Result<Vec<String>, Status> {
    let all = match env::args(rt) {
        Ok(all) => all,
        Err(error) if error.kind() == ErrorKind::InvalidData => return Err(Status::Usage),
        Err(_) => return Err(Status::OutOfMemory),
    };
    match all.skip(1).collect(rt.alloc()) {
        Ok(words) => Ok(words),
        Err(_) => Err(Status::OutOfMemory),
    }
}
