//! Writes or reads texts of bodies many times over, for `bench/text_times.py`. `write N`, `read N` or
//! `nothing N`: standard input has a text on each line; each becomes a body, and its text is written, or read
//! back, N times, or neither. It prints how many bytes that were.
#![tactic(auto)]

ghost use Rattle.market_events.specs.WellFormed.{IsBody};

use market_events::Body;
use market_texts::{BodyFault, body_text, read_body};
use std::alloc::{AllocError, Global};
use std::env;
use std::io::Read;
use std::process::ExitCode;
use std::rt::Env;

/// What is done with each text.
#[derive(Clone, Copy, Debug, PartialEq, Eq)]
enum Work {
    Write,
    Read,
    Nothing,
}

fn main(rt: HostRuntime) -> ExitCode {
    match bytes_done(&rt) {
        Some(bytes) => {
            let _ = println!(rt; "{bytes}");
            ExitCode::SUCCESS
        }
        None => ExitCode::FAILURE,
    }
}

// How many bytes were written or read.
fn bytes_done(rt: &HostRuntime) -> Option<u64> {
    let (work, times) = words(rt)?;
    let mut texts = Vec::new(rt.alloc());
    rt.stdin().read_to_end(&mut texts).ok()?;
    let mut bytes: u64 = 0;
    for text in texts.split(|byte| *byte == b'\n') {
        if !text.is_empty() {
            let done = work_on(rt.alloc(), work, times, text).ok()?;
            bytes = bytes.saturating_add(done);
        }
    }
    Some(bytes)
}

// The words after the program's name.
fn words(rt: &(impl Env + AllocGlobal)) -> Option<(Work, u32)> {
    let mut words = env::args(rt).ok()?.skip(1);
    let work = match words.next()?.as_str() {
        "write" => Work::Write,
        "read" => Work::Read,
        "nothing" => Work::Nothing,
        _ => return None,
    };
    let times = words.next()?.parse().ok()?;
    Some((work, times))
}

fn work_on(alloc: Global, work: Work, times: u32, text: &[u8]) -> Result<u64, BodyFault> {
    let body = read_body(alloc, text)?;
    match work {
        Work::Write => Ok(write(alloc, &body, times)?),
        Work::Read => read(alloc, text, times),
        Work::Nothing => Ok(0),
    }
}

fn write(alloc: Global, body: &Body, times: u32) -> Result<u64, AllocError>
    requires { IsBody body.now }
{
    let mut out = Vec::new(alloc);
    let mut bytes: u64 = 0;
    for _ in 0..times {
        out.clear();
        body_text(body, &mut out)?;
        bytes = bytes.saturating_add(out.len() as u64);
    }
    Ok(bytes)
}

fn read(alloc: Global, text: &[u8], times: u32) -> Result<u64, BodyFault> {
    let mut bytes: u64 = 0;
    for _ in 0..times {
        read_body(alloc, text)?;
        bytes = bytes.saturating_add(text.len() as u64);
    }
    Ok(bytes)
}
