//! Plays requests on a world, for `bench/world_times.py`. Standard input has the text of a request on each
//! line; each is given to its lane, and then the oldest event is offered until none is outstanding. It prints
//! how many requests were given and how many events were offered.
#![tactic(auto)]

use market_history::Step;
use market_texts::read_request;
use market_world::{World, oldest, run_schedule};
use std::io::Read;
use std::process::ExitCode;

// More than a request makes.
const MOST_EVENTS: u32 = 1000;

// How many requests were given, and how many events were offered.
#[derive(Drop)]
struct Totals {
    requests: u64,
    events: u64,
}

fn main(rt: HostRuntime) -> ExitCode {
    match played(&rt) {
        Some(Totals { requests, events }) => {
            let _ = println!(rt; "{requests} {events}");
            ExitCode::SUCCESS
        }
        None => ExitCode::FAILURE,
    }
}

fn played(rt: &HostRuntime) -> Option<Totals> {
    let mut texts = Vec::new(rt.alloc());
    rt.stdin().read_to_end(&mut texts).ok()?;
    let mut world = World::new(rt.alloc()).ok()?;
    play(&mut world, &texts)
}

// Plays the requests of these texts, one after the other.
fn play(world: &mut World, texts: &[u8]) -> Option<Totals> {
    let mut totals = Totals {
        requests: 0,
        events: 0,
    };
    for text in texts.split(|byte| *byte == b'\n') {
        if !text.is_empty() {
            let events = answer(world, text)?;
            totals.requests = totals.requests.saturating_add(1);
            totals.events = totals.events.saturating_add(events);
        }
    }
    Some(totals)
}

// Gives the request of a text, and settles the world. How many events were offered.
fn answer(world: &mut World, text: &[u8]) -> Option<u64> {
    let request = read_request(text).ok()?;
    run_schedule(world, [Step::Give(request)].as_slice()).ok()?;
    for events in 0..MOST_EVENTS {
        let Some((link, number)) = oldest(world) else {
            return Some(u64::from(events));
        };
        run_schedule(world, [Step::Offer(link, number)].as_slice()).ok()?;
    }
    None
}
