//! The cart as a service.

ghost use Rattle.std.specs.Prelude.{[]};
ghost use Rattle.market_events.specs.declared.roles.Role.{Role};
ghost use Rattle.cart_service.specs.Holds.{Holds};

use crate::answers::{answer, reply_to_ending, undone_by_stock};
use crate::baskets::Baskets;
use crate::cells::{cells_of, touched_names, value_named};
use cart_replica::ProductCopy;
use market_events::{
    Body, Cell, CellName, Link, Outs, Reply, Role, Service, Tabled, value_or_empty,
};
use std::alloc::{AllocError, Global};
use std::marker::Model;

/// The copy of the products, and the baskets of the customers. Contracts see the entries of both, by rising
/// key and by rising customer; a customer without a basket has an empty one.
#[derive(Debug, Drop)]
pub struct Carts {
    alloc: Global,
    copy: ProductCopy,
    baskets: Baskets,
}

impl Model for Carts {
    ghost use Rattle.cart_service.specs.Tables.{CartTables};

    ghost Value = { CartTables };

    ghost view = { λ carts. record { copy = carts.copy; baskets = carts.baskets } };
}

impl Carts {
    /// Nothing was taken.
    pub fn new(alloc: Global) -> Carts
        ensures { Holds result [] }
    {
        Carts {
            alloc,
            copy: ProductCopy::new(alloc),
            baskets: Baskets::new(alloc),
        }
    }
}

impl Service for Carts {
    ghost role = { Role.Cart };

    ghost holds = { Holds };

    fn accept(&mut self, _from: Link, body: &Body, outs: &mut Outs) -> Result<(), AllocError> {
        match body {
            Body::Changed(key, version, change) => self.copy.apply(*key, *version, change),
            Body::Asked(request) => {
                answer(self.alloc, &self.copy, &mut self.baskets, request, outs)
            }
            Body::ReserveFailed(checkout, key, rule) => {
                outs.tell(
                    Role::Cart,
                    *checkout,
                    Reply::Undone(undone_by_stock(*rule, *key)),
                )
            }
            Body::Ended(checkout, ending) => {
                outs.tell(Role::Cart, *checkout, reply_to_ending(*ending))
            }
            _ => unreachable!(),
        }
    }
}

impl Tabled for Carts {
    fn cells(&self) -> Result<Vec<Cell>, AllocError> {
        cells_of(self.alloc, &self.copy, &self.baskets)
    }

    fn touches(&self, _from: Link, body: &Body) -> Result<Vec<CellName>, AllocError> {
        touched_names(self.alloc, &self.baskets, body)
    }

    fn value(&self, name: &CellName) -> Result<Vec<u8>, AllocError> {
        let value = value_named(self.alloc, &self.copy, &self.baskets, name)?;
        Ok(value_or_empty(self.alloc, value))
    }
}
