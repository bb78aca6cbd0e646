//! The table of the orders.

ghost use Rattle.std.specs.Prelude.{◌≡◌, ◌≤◌, [], Some, if◌then◌else◌, OnOk, OnErr};
ghost use Rattle.std.specs.Map.{keys_of};
ghost use Rattle.market_amounts.specs.declared.keys.RequestId.{RequestId};
ghost use Rattle.market_events.specs.Requests.{same_id};
ghost use Rattle.order_service.specs.Tables.{order_at, open_in, customer_in, with_status, with_delivered};
ghost use Rattle.order_service.specs.Tables.{with_item, item_count, total_of_order};

use market_amounts::CheckoutId;
use market_events::{Item, OrderStatus};
use std::alloc::{AllocError, Global};
use std::collections::BTreeMap;
use std::collections::btree_map::Keys;
use std::marker::Model;

/// Whose an order is, how far it is, what it costs in cents, and how many of its lines were in no delivery.
#[derive(Clone, Copy, Debug, PartialEq, Eq)]
pub struct Order {
    pub customer: u32,
    pub status: OrderStatus,
    pub total: u64,
    pub undelivered: usize,
}

impl Order {
    // The order after an item of this customer.
    fn after_item(self, customer: u32) -> Order
        requires { self.customer ≡ customer → 1 ≤ self.undelivered }
        ensures { Some result ≡ with_item customer (Some self) }
    {
        if self.customer == customer {
            self.without_line()
        } else {
            self
        }
    }

    // The order with one open line less, which is delivered with its last one.
    fn without_line(self) -> Order
        requires { 1 ≤ self.undelivered }
        ensures { Some result ≡ with_delivered 1 (Some self) }
    {
        let undelivered = self.undelivered - 1;
        let status = if undelivered == 0 {
            OrderStatus::Delivered
        } else {
            self.status
        };
        Order {
            customer: self.customer,
            status,
            total: self.total,
            undelivered,
        }
    }
}

/// The orders, one for each checkout that stock confirmed. Contracts see them by rising checkout.
#[derive(Debug, Drop)]
pub struct OrderTable {
    orders: BTreeMap<CheckoutId, Order>,
}

impl Model for OrderTable {
    ghost use Rattle.std.specs.Prelude.{List};
    ghost use Rattle.market_amounts.specs.declared.keys.RequestId.{RequestId};
    ghost use Rattle.order_service.specs.declared.tables.Order.{Order};

    ghost Value = { List (RequestId × Order) };

    ghost view = { λ table. table.orders.entries };
}

impl OrderTable {
    /// No orders. It takes no memory.
    pub fn new(alloc: Global) -> OrderTable
        ensures { result ≡ [] }
    {
        OrderTable {
            orders: BTreeMap::new(alloc),
        }
    }

    /// The checkouts with an order, as they rise.
    pub fn checkouts(&self) -> Keys<'_, CheckoutId, Order>
        ensures { result ≡ keys_of self.now }
    {
        self.orders.keys()
    }

    /// The order of a checkout.
    pub fn get(&self, checkout: CheckoutId) -> Option<Order>
        ensures { result ≡ order_at self.now checkout }
    {
        self.orders.get(&checkout).copied()
    }

    /// What the order of a checkout costs, 0 where it has none.
    pub fn total(&self, checkout: CheckoutId) -> u64
        ensures { result ≡ total_of_order (order_at self.now checkout) }
    {
        match self.get(checkout) {
            Some(order) => order.total,
            None => 0,
        }
    }

    /// Sets the order of a checkout. On want of memory nothing changes.
    pub fn set(&mut self, checkout: CheckoutId, order: Order) -> Result<(), AllocError>
        ensures ok { OnOk result ((id : RequestId) → order_at self.new id
            ≡ (if same_id checkout id then Some order else order_at self.old id)) }
        ensures err { OnErr result (self.new ≡ self.old) }
    {
        self.orders.insert(checkout, order)?;
        Ok(())
    }

    /// Says how far the order of a checkout is. It takes no memory.
    pub fn mark(&mut self, checkout: CheckoutId, status: OrderStatus)
        ensures { (id : RequestId) → let order = order_at self.old id in
            order_at self.new id ≡ (if same_id checkout id then with_status status order else order) }
    {
        if let Some(order) = self.orders.get_mut(&checkout) {
            order.status = status;
        }
    }

    /// Delivers the items, which requires that each that is of its order's customer is a line that was open.
    /// It takes no memory.
    pub fn deliver(&mut self, items: &[Item])
        requires { (id : RequestId) → let order = order_at self.old id in
            item_count id order items.now ≤ open_in order }
        ensures { (id : RequestId) → let order = order_at self.old id in
            order_at self.new id ≡ with_delivered (item_count id order items.now) order }
    {
        for item in items {
            self.deliver_one(item);
        }
    }

    // Delivers an item: a line of its checkout's order, where that is of the item's customer.
    fn deliver_one(&mut self, item: &Item)
        requires { let order = order_at self.old item.now.checkout in
            customer_in order ≡ Some item.now.customer → 1 ≤ open_in order }
        ensures { (id : RequestId) → let order = order_at self.old id in
            order_at self.new id
            ≡ (if same_id item.now.checkout id then with_item item.now.customer order else order) }
    {
        if let Some(order) = self.orders.get_mut(&item.checkout) {
            *order = order.after_item(item.customer);
        }
    }
}
