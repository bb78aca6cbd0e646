//! The tables of the sellers: the changes of each seller, and the lines of the invoices.

ghost use Rattle.std.specs.Prelude.{◌≡◌, ℕ, ◌-◌, ◌==◌, ◌++◌, ◌∷◌, [], length, take, filter, count_by};
ghost use Rattle.std.specs.Prelude.{if◌then◌else◌, IfOk, OnOk, OnErr};
ghost use Rattle.std.specs.Map.{keys_of};
ghost use Rattle.market_amounts.specs.declared.keys.RequestId.{RequestId};
ghost use Rattle.seller_service.specs.Tables.{changes_at, lines_at, lines_after, is_of_seller};

use crate::change::Change;
use crate::ledger::Ledger;
use market_amounts::{CheckoutId, List};
use market_events::{Body, PricedLine};
use std::alloc::{AllocError, Global};
use std::collections::BTreeMap;
use std::marker::Model;

/// The changes of all sellers. Contracts see them by rising seller; a seller without a ledger has none.
#[derive(Debug, Drop)]
pub struct Ledgers {
    by_seller: BTreeMap<u32, Ledger>,
}

impl Model for Ledgers {
    ghost use Rattle.std.specs.Prelude.{ℕ, List};
    ghost use Rattle.market_events.specs.Sellers.{SellerChange};

    ghost Value = { List (ℕ × List SellerChange) };

    ghost view = { λ ledgers. ledgers.by_seller.entries };
}

impl Ledgers {
    /// No changes. It takes no memory.
    pub fn new(alloc: Global) -> Ledgers
        ensures { result ≡ [] }
    {
        Ledgers {
            by_seller: BTreeMap::new(alloc),
        }
    }

    /// The sellers who have a ledger, by rising number.
    pub fn sellers(&self, alloc: Global) -> Result<Vec<u32>, AllocError>
        ensures { IfOk result (λ sellers. sellers.items ≡ keys_of self.now) }
    {
        self.by_seller.keys().copied().collect(alloc)
    }

    /// The changes of a seller.
    pub fn changes(&self, seller: u32) -> &[Change]
        ensures { result.now ≡ changes_at self.now seller }
    {
        match self.by_seller.get(&seller) {
            Some(ledger) => ledger.changes(),
            None => &[],
        }
    }

    // Adds a change to those of its seller. On want of memory nothing is added.
    fn add(&mut self, alloc: Global, change: Change) -> Result<(), AllocError>
        ensures ok { OnOk result ((seller : ℕ) → let was = changes_at self.old seller in
            changes_at self.new seller
            ≡ (if seller == change.line.key.seller then was ++ change ∷ [] else was)) }
        ensures err { OnErr result ((seller : ℕ) → changes_at self.new seller ≡ changes_at self.old seller) }
    {
        let seller = change.line.key.seller;
        if let Some(ledger) = self.by_seller.get_mut(&seller) {
            return ledger.push(change);
        }
        let mut ledger = Ledger::new(alloc);
        ledger.push(change)?;
        self.by_seller.insert(seller, ledger)?;
        Ok(())
    }

    // Takes the last change of a seller away, where there is one.
    fn take_last(&mut self, seller: u32)
        ensures { (s : ℕ) → let was = changes_at self.old s in
            changes_at self.new s ≡ (if s == seller then take (length was - 1) was else was) }
    {
        if let Some(ledger) = self.by_seller.get_mut(&seller) {
            ledger.pop();
        }
    }

    /// Takes as many changes of each seller away as there are among these. It takes no memory.
    pub fn take_back(&mut self, last: &[Change])
        ensures { (seller : ℕ) → let was = changes_at self.old seller in
            changes_at self.new seller ≡ take (length was - count_by (is_of_seller seller) last.now) was }
    {
        for change in last {
            self.take_last(change.line.key.seller);
        }
    }

    /// Adds the changes, each to those of its seller. On want of memory none is added.
    pub fn add_all(&mut self, alloc: Global, changes: &[Change]) -> Result<(), AllocError>
        ensures ok { OnOk result ((seller : ℕ) →
            changes_at self.new seller
            ≡ changes_at self.old seller ++ filter (is_of_seller seller) changes.now) }
        ensures err { OnErr result ((seller : ℕ) → changes_at self.new seller ≡ changes_at self.old seller) }
    {
        for (index, change) in changes.iter().enumerate() {
            if let Err(error) = self.add(alloc, *change) {
                self.take_back(&changes[..index]);
                return Err(error);
            }
        }
        Ok(())
    }
}

/// The lines of the invoices. Contracts see them by rising checkout; a checkout without an invoice has none.
#[derive(Debug, Drop)]
pub struct Invoices {
    by_checkout: BTreeMap<CheckoutId, List<PricedLine>>,
}

impl Model for Invoices {
    ghost use Rattle.std.specs.Prelude.{List};
    ghost use Rattle.market_amounts.specs.declared.keys.RequestId.{RequestId};
    ghost use Rattle.market_events.specs.declared.bodies.PricedLine.{PricedLine};

    ghost Value = { List (RequestId × List PricedLine) };

    ghost view = { λ invoices. invoices.by_checkout.entries };
}

impl Invoices {
    /// No invoices. It takes no memory.
    pub fn new(alloc: Global) -> Invoices
        ensures { result ≡ [] }
    {
        Invoices {
            by_checkout: BTreeMap::new(alloc),
        }
    }

    /// The lines of a checkout's invoice.
    pub fn lines(&self, checkout: CheckoutId) -> &[PricedLine]
        ensures { result.now ≡ lines_at self.now checkout }
    {
        match self.by_checkout.get(&checkout) {
            Some(lines) => lines.as_slice(),
            None => &[],
        }
    }

    /// Keeps the lines of a body that is an invoice. On want of memory they are not kept.
    pub fn keep(&mut self, body: &Body) -> Result<(), AllocError>
        ensures ok { OnOk result ((id : RequestId) →
            lines_at self.new id ≡ lines_after (lines_at self.old) body.now id) }
        ensures err { OnErr result (self.new ≡ self.old) }
    {
        let Body::Invoice(checkout, _, lines, _) = body else {
            return Ok(());
        };
        let lines = lines.try_copy()?;
        self.by_checkout.insert(*checkout, lines)?;
        Ok(())
    }
}
