//! The watcher of numbers.

ghost use Rattle.std.specs.Prelude.{◌≡◌, ℕ, []};
ghost use Rattle.market_auditor.specs.declared.verdicts.Criterion.TheVariants.{C1};
ghost use Rattle.market_auditor.specs.Numbers.{SawNumbers};
ghost use Rattle.market_history.specs.Histories.{Histories};

use crate::slot_counts::SlotCounts;
use crate::watching::Watcher;
use market_events::{Entry, What};
use market_links::{slot_at_receiver, slot_at_sender};
use std::alloc::AllocError;

// The last numbers of the events that were made, and of those that were taken.
#[derive(Drop)]
pub struct Numbers {
    made: SlotCounts,
    taken: SlotCounts,
}

impl Numbers {
    // Nothing was seen.
    pub fn new() -> Numbers
        ensures { (h : Histories) (n : ℕ) → SawNumbers result h n [] }
    {
        Numbers {
            made: SlotCounts::new(),
            taken: SlotCounts::new(),
        }
    }
}

impl Watcher for Numbers {
    ghost criterion = { C1 };

    ghost saw = { SawNumbers };

    fn look(&mut self, entry: &Entry) -> Result<bool, AllocError> {
        Ok(match &entry.what {
            What::Made(event) => self
                .made
                .take_next(slot_at_sender(event.link), event.number),
            What::Taken(event) => self
                .taken
                .take_next(slot_at_receiver(event.link), event.number),
            What::Given(_request) => true,
            What::Answered(_id, _reply) => true,
        })
    }

    fn may_end(&self) -> bool {
        true
    }
}
