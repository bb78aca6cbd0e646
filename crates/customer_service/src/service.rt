//! The customers as a service.

ghost use Rattle.std.specs.Prelude.{[]};
ghost use Rattle.market_events.specs.declared.roles.Role.{Role};
ghost use Rattle.customer_service.specs.Holds.{Holds};

use crate::answers::answer;
use crate::cells::{cells_of, name_of, names_of, value_named};
use crate::tables::Tallies;
use market_events::{Body, Cell, CellName, Link, Outs, Service, Tabled, value_or_empty};
use std::alloc::{AllocError, Global};
use std::marker::Model;

/// Of each customer how many payments were confirmed and failed, and how many packages were delivered.
/// Contracts see the entries by rising customer; of a customer without one nothing was counted.
#[derive(Debug, Drop)]
pub struct Customers {
    alloc: Global,
    tallies: Tallies,
}

impl Model for Customers {
    ghost use Rattle.std.specs.Prelude.{ℕ, List};
    ghost use Rattle.customer_service.specs.declared.tables.Tally.{Tally};

    ghost Value = { List (ℕ × Tally) };

    ghost view = { λ customers. customers.tallies };
}

impl Customers {
    /// Nothing was taken.
    pub fn new(alloc: Global) -> Customers
        ensures { Holds result [] }
    {
        Customers {
            alloc,
            tallies: Tallies::new(alloc),
        }
    }
}

impl Service for Customers {
    ghost role = { Role.Customer };

    ghost holds = { Holds };

    fn accept(&mut self, _from: Link, body: &Body, outs: &mut Outs) -> Result<(), AllocError> {
        match body {
            Body::Asked(request) => answer(&self.tallies, request, outs),
            Body::Confirmed(_, customer, _, _) => {
                let mut tally = self.tallies.get(*customer);
                tally.confirmed += 1;
                self.tallies.set(*customer, tally)
            }
            Body::Failed(_, customer, _) => {
                let mut tally = self.tallies.get(*customer);
                tally.failed += 1;
                self.tallies.set(*customer, tally)
            }
            Body::Delivered(items) => {
                self.tallies.make_room(items.as_slice())?;
                self.tallies.count(items.as_slice());
                Ok(())
            }
            _ => unreachable!(),
        }
    }
}

impl Tabled for Customers {
    fn cells(&self) -> Result<Vec<Cell>, AllocError> {
        cells_of(self.alloc, &self.tallies)
    }

    fn touches(&self, _from: Link, body: &Body) -> Result<Vec<CellName>, AllocError> {
        match body {
            Body::Confirmed(_, customer, _, _) | Body::Failed(_, customer, _) => {
                let name = name_of(self.alloc, *customer)?;
                Ok(vec![in self.alloc; name]?)
            }
            Body::Delivered(items) => names_of(self.alloc, items.as_slice()),
            _ => Ok(Vec::new(self.alloc)),
        }
    }

    fn value(&self, name: &CellName) -> Result<Vec<u8>, AllocError> {
        let value = value_named(self.alloc, &self.tallies, name)?;
        Ok(value_or_empty(self.alloc, value))
    }
}
