//! The watcher of clocks and pasts.

ghost use Rattle.std.specs.Prelude.{◌≡◌, ℕ, ◌+◌, ◌<◌, ◌↔◌, [], IsTrue, length, slice_index};
ghost use Rattle.market_auditor.specs.declared.verdicts.Criterion.TheVariants.{C3};
ghost use Rattle.market_auditor.specs.Clocks.{SawClocks};
ghost use Rattle.market_events.specs.declared.links.TheConstants.{SERVICE_LINKS};
ghost use Rattle.market_events.specs.Links.{IsLink};
ghost use Rattle.market_history.specs.Histories.{Histories};
ghost use Rattle.market_node.specs.Notes.{raised_on};

use crate::watching::Watcher;
use market_events::{Counts, Entry, Link, SERVICE_LINKS, What};
use std::alloc::AllocError;

// The last clock, and the past of the next event that is made.
#[derive(Drop)]
pub struct Clocks {
    clock: u64,
    known: Counts,
}

impl Clocks {
    // Nothing was seen.
    pub fn new() -> Clocks
        ensures { (h : Histories) (n : ℕ) → SawClocks result h n [] }
    {
        Clocks {
            clock: 0,
            known: Counts::zero(),
        }
    }
}

impl Watcher for Clocks {
    ghost criterion = { C3 };

    ghost saw = { SawClocks };

    fn look(&mut self, entry: &Entry) -> Result<bool, AllocError> {
        let last = self.clock;
        self.clock = entry.clock;
        Ok(match &entry.what {
            What::Made(event) => {
                let right = rests_on(entry.clock, last, &event.past, &self.known);
                raise(&mut self.known, event.link, event.number);
                right
            }
            What::Taken(event) => {
                self.known.merge(&event.past);
                raise(&mut self.known, event.link, event.number);
                is_next(entry.clock, last.max(event.clock))
            }
            What::Given(_request) => is_next(entry.clock, last),
            What::Answered(_id, _reply) => is_next(entry.clock, last),
        })
    }

    fn may_end(&self) -> bool {
        true
    }
}

// Whether the clock is one above the one before it.
fn is_next(clock: u64, before: u64) -> bool
    ensures { IsTrue result ↔ (clock ≡ before + 1) }
{
    clock > before && clock - before == 1
}

// Whether the clock is one above the one before it, and the counts of each service link are the same.
fn rests_on(clock: u64, before: u64, past: &Counts, known: &Counts) -> bool
    ensures { IsTrue result ↔ ((clock ≡ before + 1)
        × ((k : ℕ) → k < SERVICE_LINKS → slice_index past.now k ≡ slice_index known.now k)) }
{
    is_next(clock, before) && are_same(past, known)
}

// Whether the counts of each service link are the same.
fn are_same(a: &Counts, b: &Counts) -> bool
    ensures { IsTrue result ↔ ((k : ℕ) → k < SERVICE_LINKS → slice_index a.now k ≡ slice_index b.now k) }
{
    for link in 0..SERVICE_LINKS as u8 {
        if a.get(link) != b.get(link) {
            return false;
        }
    }
    true
}

// Raises the count of the link to at least this number, where it is a service link.
pub fn raise(counts: &mut Counts, link: Link, number: u32)
    requires { IsLink link }
    ensures raised { counts.new ≡ raised_on counts.old link number }
    ensures len { length counts.new ≡ length counts.old }
{
    if let Link::Service(service) = link {
        counts.raise(service, number);
    }
}
