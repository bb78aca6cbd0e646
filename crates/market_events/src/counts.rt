//! Counts of events, one for each service link.

ghost use Rattle.std.specs.Prelude.{◌≡◌, ℕ, ◌<◌, length, slice_index, replicate};
ghost use Rattle.market_events.specs.Counts.{AreCounts, with_raised, IsMergeOf};

use crate::links::SERVICE_LINKS;
use std::marker::Model;

/// A count for each service link. Contracts see the list of the counts.
#[derive(Clone, Copy, Debug, PartialEq, Eq)]
pub struct Counts {
    counts: [u32; SERVICE_LINKS],
}

impl Model for Counts {
    ghost use Rattle.std.specs.Prelude.{ℕ, List};

    ghost Value = { List ℕ };

    ghost view = { λ c. c.counts };

    ghost inverse = { λ xs. record { counts = xs } };
}

impl Counts {
    /// Each count is 0.
    pub fn zero() -> Counts
        ensures zeros { result ≡ replicate SERVICE_LINKS 0 }
        ensures len { length result ≡ SERVICE_LINKS }
        ensures each { (k : ℕ) → slice_index result k ≡ 0 }
        ensures in_range { AreCounts result }
    {
        Counts {
            counts: [0; SERVICE_LINKS],
        }
    }

    /// The count of a service link, which is below `SERVICE_LINKS`.
    pub fn get(&self, link: u8) -> u32
        requires { link < SERVICE_LINKS }
        ensures { result ≡ slice_index self.now link }
    {
        self.counts[link as usize]
    }

    /// Raises the count of a service link, which is below `SERVICE_LINKS`, to at least this number.
    pub fn raise(&mut self, link: u8, number: u32)
        requires { link < SERVICE_LINKS }
        ensures raised { self.new ≡ with_raised self.old link number }
        ensures len { length self.new ≡ length self.old }
    {
        let at = link as usize;
        self.counts[at] = self.counts[at].max(number);
    }

    /// Each count becomes the greater of its two, all of which are in their range.
    pub fn merge(&mut self, other: &Counts)
        ensures merged { IsMergeOf self.new self.old other.now }
        ensures len { length self.new ≡ length self.old }
        ensures in_range { AreCounts other.now }
    {
        for i in 0..SERVICE_LINKS {
            self.counts[i] = self.counts[i].max(other.counts[i]);
        }
    }
}
