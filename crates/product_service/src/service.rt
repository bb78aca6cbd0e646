//! The products as a service.

ghost use Rattle.std.specs.Prelude.{[]};
ghost use Rattle.market_events.specs.declared.roles.Role.{Role};
ghost use Rattle.product_service.specs.Holds.{Holds};

use crate::answers::answer;
use crate::cells::{cells_of, touched_names, value_named};
use cart_replica::ProductCopy;
use market_events::{Body, Cell, CellName, Link, Outs, Service, Tabled, value_or_empty};
use std::alloc::{AllocError, Global};
use std::marker::Model;

/// The product service: of each product what its changes leave, as the copy of the changes that the service
/// made. Contracts see the entries of that copy by rising key; a product without one had no change.
#[derive(Debug, Drop)]
pub struct Products {
    alloc: Global,
    copy: ProductCopy,
}

impl Model for Products {
    ghost use Rattle.std.specs.Prelude.{List};
    ghost use Rattle.market_amounts.specs.declared.keys.ProductKey.{ProductKey};
    ghost use Rattle.market_events.specs.declared.changes.Look.{Look};

    ghost Value = { List (ProductKey × Look) };

    ghost view = { λ products. products.copy };
}

impl Products {
    /// Nothing was taken.
    pub fn new(alloc: Global) -> Products
        ensures { Holds result [] }
    {
        Products {
            alloc,
            copy: ProductCopy::new(alloc),
        }
    }
}

impl Service for Products {
    ghost role = { Role.Product };

    ghost holds = { Holds };

    fn accept(&mut self, _from: Link, body: &Body, outs: &mut Outs) -> Result<(), AllocError> {
        if let Err(error) = answer(&mut self.copy, body, outs) {
            outs.clear();
            return Err(error);
        }
        Ok(())
    }
}

impl Tabled for Products {
    fn cells(&self) -> Result<Vec<Cell>, AllocError> {
        cells_of(self.alloc, &self.copy)
    }

    fn touches(&self, _from: Link, body: &Body) -> Result<Vec<CellName>, AllocError> {
        touched_names(self.alloc, body)
    }

    fn value(&self, name: &CellName) -> Result<Vec<u8>, AllocError> {
        let value = value_named(self.alloc, &self.copy, name)?;
        Ok(value_or_empty(self.alloc, value))
    }
}
