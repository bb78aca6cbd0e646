//! The changes of one seller.

ghost use Rattle.std.specs.Prelude.{◌≡◌, ◌-◌, ◌++◌, ◌∷◌, [], length, take, OnOk, OnErr};

use crate::change::Change;
use std::alloc::{AllocError, Global};
use std::marker::Model;

/// The changes of one seller's entries, in order. Contracts see the list of them.
#[derive(Debug, Drop)]
pub struct Ledger {
    changes: Vec<Change>,
}

impl Model for Ledger {
    ghost use Rattle.std.specs.Prelude.{List};
    ghost use Rattle.market_events.specs.Sellers.{SellerChange};

    ghost Value = { List SellerChange };

    ghost view = { λ ledger. ledger.changes.items };
}

impl Ledger {
    /// No changes. It takes no memory.
    pub fn new(alloc: Global) -> Ledger
        ensures { result ≡ [] }
    {
        Ledger {
            changes: Vec::new(alloc),
        }
    }

    /// Adds a change. On want of memory nothing is added.
    pub fn push(&mut self, change: Change) -> Result<(), AllocError>
        ensures ok { OnOk result (self.new ≡ self.old ++ change ∷ []) }
        ensures err { OnErr result (self.new ≡ self.old) }
    {
        self.changes.push(change)?;
        Ok(())
    }

    /// Takes the last change away, where there is one.
    pub fn pop(&mut self)
        ensures { self.new ≡ take (length self.old - 1) self.old }
    {
        self.changes.pop();
    }

    /// The changes in order.
    pub fn changes(&self) -> &[Change]
        ensures { result.now ≡ self.now }
    {
        self.changes.as_slice()
    }
}
