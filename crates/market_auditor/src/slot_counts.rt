//! The number of the last event of each link at a node.

ghost use Rattle.std.specs.Prelude.{◌≡◌, ◌+◌, ◌<◌, ◌↔◌, IsTrue, replicate, slice_index, slice_set};
ghost use Rattle.market_links.specs.declared.slots.TheConstants.{SLOTS};

use market_links::SLOTS;

// The number of the last event of each link at a node, 0 where there is none, by the slot of the link.
#[derive(Drop)]
pub struct SlotCounts {
    pub counts: [u32; SLOTS],
}

impl SlotCounts {
    // No event of any link.
    pub fn new() -> SlotCounts
        ensures { result.counts ≡ replicate SLOTS 0 }
    {
        SlotCounts { counts: [0; SLOTS] }
    }

    // Whether the number is the next of the slot; the slot then has it.
    pub fn take_next(&mut self, slot: usize, number: u32) -> bool
        requires { slot < SLOTS }
        ensures next { IsTrue result ↔ (number ≡ slice_index self.old.counts slot + 1) }
        ensures noted { IsTrue result → self.new.counts ≡ slice_set self.old.counts slot number }
    {
        if u64::from(number) != u64::from(self.counts[slot]) + 1 {
            return false;
        }
        self.counts[slot] = number;
        true
    }
}
