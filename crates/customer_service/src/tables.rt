//! What is counted of each customer.

ghost use Rattle.std.specs.Prelude.{◌≡◌, ℕ, ◌+◌, ◌<◌, ◌^◌, ◌==◌, [], if◌then◌else◌, length, OnOk, OnErr};
ghost use Rattle.std.specs.List.{All, count_by};
ghost use Rattle.std.specs.Map.{keys_of};
ghost use Rattle.market_events.specs.declared.bodies.Item.{Item};
ghost use Rattle.customer_service.specs.Tables.{tally_at, HasTally};

use market_events::Item;
use std::alloc::{AllocError, Global};
use std::collections::BTreeMap;
use std::collections::btree_map::Keys;
use std::marker::Model;

/// How many payments were confirmed and failed, and how many packages were delivered.
#[derive(Clone, Copy, Debug, PartialEq, Eq)]
pub struct Tally {
    pub confirmed: u32,
    pub failed: u32,
    pub delivered: u32,
}

/// Nothing was counted.
pub const ZERO: Tally = Tally {
    confirmed: 0,
    failed: 0,
    delivered: 0,
};

/// What is counted of each customer. Contracts see the entries by rising customer; of a customer without one
/// nothing was counted.
#[derive(Debug, Drop)]
pub struct Tallies {
    tallies: BTreeMap<u32, Tally>,
}

impl Model for Tallies {
    ghost use Rattle.std.specs.Prelude.{ℕ, List};
    ghost use Rattle.customer_service.specs.declared.tables.Tally.{Tally};

    ghost Value = { List (ℕ × Tally) };

    ghost view = { λ table. table.tallies.entries };
}

impl Tallies {
    /// Nothing was counted. It takes no memory.
    pub fn new(alloc: Global) -> Tallies
        ensures { result ≡ [] }
    {
        Tallies {
            tallies: BTreeMap::new(alloc),
        }
    }

    /// The customers with an entry, as they rise.
    pub fn customers(&self) -> Keys<'_, u32, Tally>
        ensures { result ≡ keys_of self.now }
    {
        self.tallies.keys()
    }

    /// What is counted of a customer.
    pub fn get(&self, customer: u32) -> Tally
        ensures { result ≡ tally_at self.now customer }
    {
        self.tallies.get(&customer).copied().unwrap_or(ZERO)
    }

    /// Sets what is counted of a customer. On want of memory nothing changes.
    pub fn set(&mut self, customer: u32, tally: Tally) -> Result<(), AllocError>
        ensures ok { OnOk result ((c : ℕ) → tally_at self.new c
            ≡ (if c == customer then tally else tally_at self.old c)) }
        ensures entered { OnOk result (HasTally self.new customer) }
        ensures others { OnOk result ((c : ℕ) → HasTally self.old c → HasTally self.new c) }
        ensures err { OnErr result (self.new ≡ self.old) }
    {
        self.tallies.insert(customer, tally)?;
        Ok(())
    }

    /// Makes an entry for the customer of each item. It changes no count, also on want of memory.
    pub fn make_room(&mut self, items: &[Item]) -> Result<(), AllocError>
        ensures unchanged { (c : ℕ) → tally_at self.new c ≡ tally_at self.old c }
        ensures entered { OnOk result (All (λ (i : Item). HasTally self.new i.customer) items.now) }
    {
        for item in items {
            let tally = self.get(item.customer);
            self.set(item.customer, tally)?;
        }
        Ok(())
    }

    /// Counts the packages of these items, which requires that each customer has an entry, and that no count
    /// passes its type. It takes no memory.
    pub fn count(&mut self, items: &[Item])
        requires entered { All (λ (i : Item). HasTally self.old i.customer) items.now }
        requires fits { (c : ℕ) → (tally_at self.old c).delivered + length items.now < 2 ^ 32 }
        ensures { (c : ℕ) → let was = tally_at self.old c in
            let more = count_by (λ (i : Item). i.customer == c) items.now in
            tally_at self.new c ≡ record was { delivered = was.delivered + more } }
    {
        for item in items {
            self.count_one(item.customer);
        }
    }

    // Counts one package of a customer who has an entry.
    fn count_one(&mut self, customer: u32)
        requires entered { HasTally self.old customer }
        requires fits { (tally_at self.old customer).delivered + 1 < 2 ^ 32 }
        ensures counted { let was = tally_at self.old customer in
            (c : ℕ) → tally_at self.new c
            ≡ (if c == customer then record was { delivered = was.delivered + 1 } else tally_at self.old c) }
        ensures others { (c : ℕ) → HasTally self.old c → HasTally self.new c }
    {
        if let Some(tally) = self.tallies.get_mut(&customer) {
            tally.delivered += 1;
        }
    }
}
