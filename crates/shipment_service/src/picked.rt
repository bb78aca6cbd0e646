//! The packages that a delivery takes.

ghost use Rattle.std.specs.Prelude.{◌≡◌, ℕ, ◌==◌, Some, [], if◌then◌else◌, OnOk, IfOk};
ghost use Rattle.std.specs.Map.{keys_of, values_of};
ghost use Rattle.market_events.specs.Entries.{entry_at};
ghost use Rattle.shipment_service.specs.Tables.{put_at, IsRising};

use market_events::Item;
use std::alloc::{AllocError, Global};
use std::collections::BTreeMap;
use std::marker::Model;

/// The packages that a delivery takes. Contracts see them by rising number.
#[derive(Debug, Drop)]
pub struct Picked {
    by_number: BTreeMap<u32, Item>,
}

impl Model for Picked {
    ghost use Rattle.std.specs.Prelude.{ℕ, List};
    ghost use Rattle.market_events.specs.declared.bodies.Item.{Item};

    ghost Value = { List (ℕ × Item) };

    ghost view = { λ picked. picked.by_number.entries };
}

impl Picked {
    /// No packages. It takes no memory.
    pub fn new(alloc: Global) -> Picked
        ensures { result ≡ [] }
    {
        Picked {
            by_number: BTreeMap::new(alloc),
        }
    }

    // Picks a package. On want of memory it is left open what is picked.
    fn put(&mut self, number: u32, item: Item) -> Result<(), AllocError>
        ensures { OnOk result ((n : ℕ) →
            entry_at self.new n ≡ (if number == n then Some item else entry_at self.old n)) }
    {
        self.by_number.insert(number, item)?;
        Ok(())
    }

    /// Picks these packages. On want of memory it is left open which are picked.
    pub fn put_all(&mut self, group: &[(u32, Item)]) -> Result<(), AllocError>
        ensures { OnOk result ((n : ℕ) → entry_at self.new n ≡ put_at n (entry_at self.old n) group.now) }
    {
        for package in group {
            self.put(package.0, package.1)?;
        }
        Ok(())
    }

    /// The numbers of the packages.
    pub fn numbers(&self, alloc: Global) -> Result<Vec<u32>, AllocError>
        ensures ok { IfOk result (λ numbers. numbers.items ≡ keys_of self.now) }
        ensures rising { IsRising self.now }
    {
        self.by_number.keys().copied().collect(alloc)
    }

    /// What is in them.
    pub fn items(&self, alloc: Global) -> Result<Vec<Item>, AllocError>
        ensures { IfOk result (λ items. items.items ≡ values_of self.now) }
    {
        self.by_number.values().copied().collect(alloc)
    }
}
