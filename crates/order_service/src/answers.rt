//! What sellers, payments, the cart and the callers are told of orders.

ghost use Rattle.std.specs.Prelude.{◌≡◌, [], ◌∷◌, true, Some, OnOk, OnErr, if◌then◌else◌};
ghost use Rattle.market_amounts.specs.declared.keys.RequestId.{RequestId};
ghost use Rattle.market_events.specs.Formed.{lines_formed};
ghost use Rattle.market_events.specs.Orders.{order_asked};
ghost use Rattle.market_events.specs.Requests.{same_id};
ghost use Rattle.market_events.specs.WellFormed.{total_of};
ghost use Rattle.order_service.specs.Tables.{order_at, new_order, sums_at};

use crate::tables::{Order, OrderTable};
use market_amounts::{CheckoutId, List, line_amount};
use market_events::{
    Ask, Body, Ending, ORDER_TO_CART, ORDER_TO_PAYMENT, ORDER_TO_SELLER, OrderStatus, Outs,
    PricedLine, Reply, Request, Role, Rule,
};
use std::alloc::AllocError;

// Tells the lane of a request how far the order is that it asks about.
pub fn answer(orders: &OrderTable, request: &Request, outs: &mut Outs) -> Result<(), AllocError>
    requires { outs.old ≡ [] }
    ensures { OnOk result (outs.new ≡ order_asked (sums_at orders.now) request.now.id request.now.ask) }
{
    let Ask::Order(checkout) = request.ask else {
        return Ok(());
    };
    let reply = match orders.get(checkout) {
        Some(order) => Reply::OrderState(order.status, order.total),
        None => Reply::Refused(Rule::NoOrder),
    };
    outs.tell(Role::Order, request.id, reply)
}

// Tells the sellers and then the payments what a checkout costs, and keeps its order.
pub fn invoice(
    orders: &mut OrderTable,
    checkout: CheckoutId,
    customer: u32,
    lines: &List<PricedLine>,
    outs: &mut Outs,
) -> Result<(), AllocError>
    requires empty { outs.old ≡ [] }
    requires formed { lines_formed lines.now ≡ true }
    ensures made { let invoice = Body.Invoice checkout customer lines.now (total_of lines.now) in
        OnOk result (outs.new ≡ (ORDER_TO_SELLER, invoice) ∷ (ORDER_TO_PAYMENT, invoice) ∷ []) }
    ensures each { OnOk result ((id : RequestId) → order_at orders.new id
        ≡ (if same_id checkout id then Some (new_order customer lines.now) else order_at orders.old id)) }
    ensures err { OnErr result (orders.new ≡ orders.old) }
{
    let order = Order {
        customer,
        status: OrderStatus::Invoiced,
        total: cost_of(lines.as_slice()),
        undelivered: lines.as_slice().len(),
    };
    let to_sellers = Body::Invoice(checkout, customer, lines.try_copy()?, order.total);
    let to_payments = to_sellers.try_copy()?;
    outs.push(ORDER_TO_SELLER, to_sellers)?;
    outs.push(ORDER_TO_PAYMENT, to_payments)?;
    orders.set(checkout, order)
}

// What the lines cost together.
fn cost_of(lines: &[PricedLine]) -> u64
    requires { lines_formed lines.now ≡ true }
    ensures { result ≡ total_of lines.now }
{
    let mut total = 0;
    for line in lines {
        total += line_amount(line.price, line.quantity, line.freight, line.voucher);
    }
    total
}

// Tells the cart how a checkout ended.
pub fn end(checkout: CheckoutId, ending: Ending, outs: &mut Outs) -> Result<(), AllocError>
    requires { outs.old ≡ [] }
    ensures { OnOk result (outs.new ≡ (ORDER_TO_CART, Body.Ended checkout ending) ∷ []) }
{
    outs.push(ORDER_TO_CART, Body::Ended(checkout, ending))
}
