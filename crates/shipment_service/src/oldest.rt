//! The oldest open package of each seller.

ghost use Rattle.std.specs.Prelude.{◌≡◌, ℕ, ◌==◌, true, None, Some, [], take, if◌then◌else◌};
ghost use Rattle.std.specs.Prelude.{OnOk, OnErr, IfOk};
ghost use Rattle.market_events.specs.Shipments.{most_sellers};
ghost use Rattle.market_events.specs.Entries.{entry_at};
ghost use Rattle.shipment_service.specs.Tables.{put_at, has_number, IsRising};

use std::alloc::{AllocError, Global};
use std::collections::BTreeMap;
use std::marker::Model;

// How many sellers a delivery serves at most.
const MOST_SELLERS: usize = 10;

/// Of each seller with open packages the least number of one, with the seller. Contracts see them by rising
/// number.
#[derive(Debug, Drop)]
pub struct Oldest {
    by_number: BTreeMap<u32, u32>,
}

impl Model for Oldest {
    ghost use Rattle.std.specs.Prelude.{ℕ, List};

    ghost Value = { List (ℕ × ℕ) };

    ghost view = { λ oldest. oldest.by_number.entries };
}

impl Oldest {
    /// No packages. It takes no memory.
    pub fn new(alloc: Global) -> Oldest
        ensures { result ≡ [] }
    {
        Oldest {
            by_number: BTreeMap::new(alloc),
        }
    }

    /// The first of them, with their sellers, as many as a delivery serves.
    pub fn first_served(&self, alloc: Global) -> Result<Vec<(u32, u32)>, AllocError>
        ensures first { IfOk result (λ turns. turns.items ≡ take most_sellers self.now) }
        ensures rising { IsRising self.now }
    {
        let first = self.by_number.iter().take(MOST_SELLERS);
        first
            .map(|(number, seller)| (*number, *seller))
            .collect(alloc)
    }

    // Puts a number with its seller. On want of memory nothing changes.
    fn put(&mut self, number: u32, seller: u32) -> Result<(), AllocError>
        ensures ok { OnOk result ((n : ℕ) →
            entry_at self.new n ≡ (if number == n then Some seller else entry_at self.old n)) }
        ensures err { OnErr result (self.new ≡ self.old) }
    {
        self.by_number.insert(number, seller)?;
        Ok(())
    }

    // Takes a number away. It takes no memory.
    fn take(&mut self, number: u32)
        ensures { (n : ℕ) → entry_at self.new n ≡ (if number == n then None else entry_at self.old n) }
    {
        self.by_number.remove(&number);
    }

    /// Puts these numbers with their sellers, all or none.
    pub fn put_all(&mut self, turns: &[(u32, u32)]) -> Result<(), AllocError>
        ensures ok { OnOk result ((n : ℕ) → entry_at self.new n ≡ put_at n (entry_at self.old n) turns.now) }
        ensures err { OnErr result ((n : ℕ) → (has_number turns.now n ≡ true → entry_at self.old n ≡ None)
            → entry_at self.new n ≡ entry_at self.old n) }
    {
        let Some((turn, others)) = turns.split_first() else {
            return Ok(());
        };
        self.put(turn.0, turn.1)?;
        let put = self.put_all(others);
        if put.is_err() {
            self.take(turn.0);
        }
        put
    }

    /// Takes these numbers away. It takes no memory.
    pub fn take_all(&mut self, turns: &[(u32, u32)])
        ensures { (n : ℕ) →
            entry_at self.new n ≡ (if has_number turns.now n then None else entry_at self.old n) }
    {
        for turn in turns {
            self.take(turn.0);
        }
    }
}
