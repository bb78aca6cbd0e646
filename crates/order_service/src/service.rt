//! The orders as a service.

ghost use Rattle.std.specs.Prelude.{◌≡◌, ◌≤◌, [], true, OnOk, OnErr};
ghost use Rattle.market_amounts.specs.declared.keys.RequestId.{RequestId};
ghost use Rattle.market_events.specs.Formed.{body_formed};
ghost use Rattle.market_events.specs.Orders.{items_in, order_rows};
ghost use Rattle.market_events.specs.declared.roles.Role.{Role};
ghost use Rattle.order_service.specs.Holds.{Holds};
ghost use Rattle.order_service.specs.Tables.{order_at, open_in, item_count, order_after, sums_at};

use crate::answers::{answer, end, invoice};
use crate::cells::{cells_of, checkout_in, name_of, names_of, value_named};
use crate::tables::OrderTable;
use market_events::{
    Body, Cell, CellName, Ending, Link, OrderStatus, Outs, Service, Tabled, value_or_empty,
};
use std::alloc::{AllocError, Global};
use std::marker::Model;

/// Of each checkout that stock confirmed whose its order is, how far it is, what it costs, and how many of
/// its lines are open. Contracts see the orders by rising checkout.
#[derive(Debug, Drop)]
pub struct Orders {
    alloc: Global,
    orders: OrderTable,
}

impl Model for Orders {
    ghost use Rattle.std.specs.Prelude.{List};
    ghost use Rattle.market_amounts.specs.declared.keys.RequestId.{RequestId};
    ghost use Rattle.order_service.specs.declared.tables.Order.{Order};

    ghost Value = { List (RequestId × Order) };

    ghost view = { λ orders. orders.orders };
}

impl Orders {
    /// Nothing was taken.
    pub fn new(alloc: Global) -> Orders
        ensures { Holds result [] }
    {
        Orders {
            alloc,
            orders: OrderTable::new(alloc),
        }
    }

    // Takes a body, and makes what it is answered by.
    fn take(&mut self, body: &Body, outs: &mut Outs) -> Result<(), AllocError>
        requires empty { outs.old ≡ [] }
        requires formed { body_formed body.now ≡ true }
        requires undelivered { (id : RequestId) → let order = order_at self.old id in
            item_count id order (items_in body.now) ≤ open_in order }
        ensures made { OnOk result (outs.new ≡ order_rows (sums_at self.old) body.now) }
        ensures each { OnOk result ((id : RequestId)
            → order_at self.new id ≡ order_after (order_at self.old) body.now id) }
        ensures err { OnErr result (self.new ≡ self.old) }
    {
        match body {
            Body::Asked(request) => answer(&self.orders, request, outs),
            Body::StockConfirmed(checkout, customer, lines) => {
                invoice(&mut self.orders, *checkout, *customer, lines, outs)
            }
            Body::Confirmed(checkout, ..) => {
                self.orders.mark(*checkout, OrderStatus::Paid);
                Ok(())
            }
            Body::Failed(checkout, _, rule) => {
                end(*checkout, Ending::Undone(*rule), outs)?;
                self.orders.mark(*checkout, OrderStatus::Cancelled);
                Ok(())
            }
            Body::Shipped(checkout) => {
                let total = self.orders.total(*checkout);
                end(*checkout, Ending::Whole(total), outs)?;
                self.orders.mark(*checkout, OrderStatus::Shipped);
                Ok(())
            }
            Body::Delivered(items) => {
                self.orders.deliver(items.as_slice());
                Ok(())
            }
            _ => Ok(()),
        }
    }
}

impl Service for Orders {
    ghost role = { Role.Order };

    ghost holds = { Holds };

    fn accept(&mut self, _from: Link, body: &Body, outs: &mut Outs) -> Result<(), AllocError> {
        if let Err(error) = self.take(body, outs) {
            outs.clear();
            return Err(error);
        }
        Ok(())
    }
}

impl Tabled for Orders {
    fn cells(&self) -> Result<Vec<Cell>, AllocError> {
        cells_of(self.alloc, &self.orders)
    }

    fn touches(&self, _from: Link, body: &Body) -> Result<Vec<CellName>, AllocError> {
        if let Body::Delivered(items) = body {
            return names_of(self.alloc, items.as_slice());
        }
        let Some(checkout) = checkout_in(body) else {
            return Ok(Vec::new(self.alloc));
        };
        let name = name_of(self.alloc, checkout)?;
        Ok(vec![in self.alloc; name]?)
    }

    fn value(&self, name: &CellName) -> Result<Vec<u8>, AllocError> {
        let value = value_named(self.alloc, &self.orders, name)?;
        Ok(value_or_empty(self.alloc, value))
    }
}
