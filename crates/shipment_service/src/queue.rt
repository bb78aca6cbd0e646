//! The open packages of one seller.

ghost use Rattle.std.specs.Prelude.{◌≡◌, ◌-◌, ◌++◌, [], ◌∷◌, ◌↔◌, IsTrue, length, take, OnOk, OnErr, IfOk};
ghost use Rattle.market_events.specs.Requests.{same_id};
ghost use Rattle.shipment_service.specs.Tables.{group_len, group_of, behind_of, first_number};

use market_amounts::CheckoutId;
use market_events::Item;
use std::alloc::{AllocError, Global};
use std::collections::VecDeque;
use std::marker::Model;

/// The open packages of a seller, by number. Contracts see the list of the numbers with the packages.
#[derive(Debug, Drop)]
pub struct Queue {
    packages: VecDeque<(u32, Item)>,
}

impl Model for Queue {
    ghost use Rattle.std.specs.Prelude.{ℕ, List};
    ghost use Rattle.market_events.specs.declared.bodies.Item.{Item};

    ghost Value = { List (ℕ × Item) };

    ghost view = { λ queue. queue.packages.items };
}

// Whether a package is of this checkout.
fn is_of(numbered: &(u32, Item), checkout: CheckoutId) -> bool
    ensures { result ≡ same_id checkout numbered.now.1.checkout }
{
    numbered.1.checkout == checkout
}

impl Queue {
    // No packages.
    pub fn new(alloc: Global) -> Queue
        ensures { result ≡ [] }
    {
        Queue {
            packages: VecDeque::new(alloc),
        }
    }

    // Whether there is none.
    pub fn is_empty(&self) -> bool
        ensures { IsTrue result ↔ (self.now ≡ []) }
    {
        self.packages.is_empty()
    }

    // Puts a package last. On want of memory nothing changes.
    pub fn push(&mut self, number: u32, item: Item) -> Result<(), AllocError>
        ensures ok { OnOk result (self.new ≡ self.old ++ (number, item) ∷ []) }
        ensures err { OnErr result (self.new ≡ self.old) }
    {
        self.packages.push_back((number, item))?;
        Ok(())
    }

    // Takes the last package away.
    pub fn take_back(&mut self)
        ensures { self.new ≡ take (length self.old - 1) self.old }
    {
        let _ = self.packages.pop_back();
    }

    // How many packages at the front are of the checkout of the first one.
    fn group_len(&self) -> usize
        ensures { result ≡ group_len self.now }
    {
        let Some(oldest) = self.packages.front() else {
            return 0;
        };
        let checkout = oldest.1.checkout;
        self.packages
            .iter()
            .take_while(|package| is_of(package, checkout))
            .count()
    }

    // The packages at the front that are of the checkout of the first one.
    pub fn group(&self, alloc: Global) -> Result<Vec<(u32, Item)>, AllocError>
        ensures { IfOk result (λ group. group.items ≡ group_of self.now) }
    {
        self.packages
            .iter()
            .take(self.group_len())
            .copied()
            .collect(alloc)
    }

    // The number of the first package behind these.
    pub fn follower(&self) -> Option<u32>
        ensures { result ≡ first_number (behind_of self.now) }
    {
        let package = self.packages.get(self.group_len())?;
        Some(package.0)
    }

    // Takes those at the front away. It takes no memory.
    pub fn serve(&mut self)
        ensures { self.new ≡ behind_of self.old }
    {
        for _ in 0..self.group_len() {
            let _ = self.packages.pop_front();
        }
    }
}
