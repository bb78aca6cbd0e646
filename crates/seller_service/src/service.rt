//! The sellers as a service.

ghost use Rattle.std.specs.Prelude.{[]};
ghost use Rattle.market_events.specs.declared.roles.Role.{Role};
ghost use Rattle.seller_service.specs.Holds.{Holds};

use crate::answers::answer;
use crate::brought::brought;
use crate::cells::{cells_of, put_change_names, put_entry_names, value_named};
use crate::tables::{Invoices, Ledgers};
use market_events::{Body, Cell, CellName, Link, NameList, Outs, Service, Tabled, value_or_empty};
use std::alloc::{AllocError, Global};
use std::marker::Model;

/// The changes of each seller's entries, and the lines of the invoices. Contracts see both tables.
#[derive(Debug, Drop)]
pub struct Sellers {
    alloc: Global,
    ledgers: Ledgers,
    invoices: Invoices,
}

impl Model for Sellers {
    ghost use Rattle.seller_service.specs.Tables.{SellerTables};

    ghost Value = { SellerTables };

    ghost view = { λ sellers. record { ledgers = sellers.ledgers; invoices = sellers.invoices } };
}

impl Sellers {
    /// Nothing was taken.
    pub fn new(alloc: Global) -> Sellers
        ensures { Holds result [] }
    {
        Sellers {
            alloc,
            ledgers: Ledgers::new(alloc),
            invoices: Invoices::new(alloc),
        }
    }
}

impl Service for Sellers {
    ghost role = { Role.Seller };

    ghost holds = { Holds };

    fn accept(&mut self, _from: Link, body: &Body, outs: &mut Outs) -> Result<(), AllocError> {
        if let Body::Asked(request) = body {
            return answer(self.alloc, &self.ledgers, request, outs);
        }
        let changes = brought(self.alloc, &self.invoices, body)?;
        self.ledgers.add_all(self.alloc, changes.as_slice())?;
        if let Err(error) = self.invoices.keep(body) {
            self.ledgers.take_back(changes.as_slice());
            return Err(error);
        }
        Ok(())
    }
}

impl Tabled for Sellers {
    fn cells(&self) -> Result<Vec<Cell>, AllocError> {
        cells_of(self.alloc, &self.ledgers)
    }

    fn touches(&self, _from: Link, body: &Body) -> Result<Vec<CellName>, AllocError> {
        let changes = brought(self.alloc, &self.invoices, body)?;
        let mut names = NameList::new(self.alloc);
        put_change_names(self.alloc, &self.ledgers, changes.as_slice(), &mut names)?;
        if let Body::Invoice(..) = body {
            put_entry_names(self.alloc, &self.ledgers, changes.as_slice(), &mut names)?;
        }
        names.into_names()
    }

    fn value(&self, name: &CellName) -> Result<Vec<u8>, AllocError> {
        let value = value_named(self.alloc, &self.ledgers, name)?;
        Ok(value_or_empty(self.alloc, value))
    }
}
