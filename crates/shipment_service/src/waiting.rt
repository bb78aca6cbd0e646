//! The packages that wait for their delivery: the queues of the sellers, and which stand first in them.

ghost use Rattle.std.specs.Prelude.{◌≡◌, ℕ, ◌+◌, ◌<◌, ◌^◌, true, List, [], ◌∷◌, ◌++◌, length, OnOk, OnErr};
ghost use Rattle.std.specs.List.{enumerate_from};
ghost use Rattle.market_events.specs.declared.bodies.Item.{Item};
ghost use Rattle.shipment_service.specs.Tables.{Waits, AreBelow};

use crate::oldest::Oldest;
use crate::queues::Queues;
use market_events::Item;
use std::alloc::{AllocError, Global};

/// The open packages of each seller in order, and the number of the oldest one of each.
#[derive(Debug, Drop)]
pub struct Waiting {
    pub queues: Queues,
    pub oldest: Oldest,
}

impl Waiting {
    /// No packages. It takes no memory.
    pub fn new(alloc: Global) -> Waiting
        ensures queues { result.queues ≡ [] }
        ensures oldest { result.oldest ≡ [] }
    {
        Waiting {
            queues: Queues::new(alloc),
            oldest: Oldest::new(alloc),
        }
    }

    // Puts an open package, whose number is above all others.
    fn add(&mut self, alloc: Global, number: u32, item: Item) -> Result<(), AllocError>
        ensures ok { OnOk result ((waiting : List (ℕ × Item)) →
            Waits self.old.queues self.old.oldest waiting → AreBelow number waiting
            → Waits self.new.queues self.new.oldest (waiting ++ (number, item) ∷ [])) }
        ensures err { OnErr result ((waiting : List (ℕ × Item)) →
            Waits self.old.queues self.old.oldest waiting → AreBelow number waiting
            → Waits self.new.queues self.new.oldest waiting) }
    {
        let seller = item.key.seller;
        let idle = self.queues.is_idle(seller);
        self.queues.line_up(alloc, number, item)?;
        if !idle {
            return Ok(());
        }
        let put = self.oldest.put_all(&[(number, seller)]);
        if put.is_err() {
            self.queues.step_back(seller);
        }
        put
    }

    // Takes it away again. It takes no memory.
    fn take_back(&mut self, number: u32, item: Item)
        ensures { (waiting : List (ℕ × Item)) →
            Waits self.old.queues self.old.oldest (waiting ++ (number, item) ∷ []) → AreBelow number waiting
            → Waits self.new.queues self.new.oldest waiting }
    {
        self.queues.step_back(item.key.seller);
        self.oldest.take_all(&[(number, item.key.seller)]);
    }

    /// Puts open packages, which have this number and the next ones, above all others; all or none.
    pub fn add_all(&mut self, alloc: Global, number: u32, items: &[Item]) -> Result<(), AllocError>
        requires { number + length items.now < 2 ^ 32 }
        ensures ok { OnOk result ((waiting : List (ℕ × Item)) →
            Waits self.old.queues self.old.oldest waiting → AreBelow number waiting
            → Waits self.new.queues self.new.oldest (waiting ++ enumerate_from number items.now)) }
        ensures err { OnErr result ((waiting : List (ℕ × Item)) →
            Waits self.old.queues self.old.oldest waiting → AreBelow number waiting
            → Waits self.new.queues self.new.oldest waiting) }
    {
        let Some((item, others)) = items.split_first() else {
            return Ok(());
        };
        self.add(alloc, number, *item)?;
        let added = self.add_all(alloc, number + 1, others);
        if added.is_err() {
            self.take_back(number, *item);
        }
        added
    }
}
