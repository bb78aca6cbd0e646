//! What shipments tell of a payment and of a delivery.

ghost use Rattle.std.specs.Prelude.{◌≡◌, ◌≤◌, [], ◌∷◌, length, OnOk};
ghost use Rattle.market_events.specs.Shipments.{most_sellers, deliver_rows};
ghost use Rattle.market_events.specs.WellFormed.{most_items};

use market_amounts::{CheckoutId, List, RequestId};
use market_events::{
    Body, Item, Outs, Reply, Role, SHIPMENT_TO_CUSTOMER, SHIPMENT_TO_ORDER, SHIPMENT_TO_SELLER,
};
use std::alloc::AllocError;

/// Tells the sellers and the orders that the packages of a checkout left.
pub fn tell_shipped(checkout: CheckoutId, outs: &mut Outs) -> Result<(), AllocError>
    requires { outs.old ≡ [] }
    ensures { OnOk result (outs.new
        ≡ (SHIPMENT_TO_SELLER, Body.Shipped checkout) ∷ (SHIPMENT_TO_ORDER, Body.Shipped checkout) ∷ []) }
{
    outs.push(SHIPMENT_TO_SELLER, Body::Shipped(checkout))?;
    outs.push(SHIPMENT_TO_ORDER, Body::Shipped(checkout))
}

/// Tells the customers, the sellers and the orders which packages were delivered, and the lane of the request
/// how many, of how many sellers.
pub fn tell_delivered(
    id: RequestId,
    sellers: usize,
    items: Vec<Item>,
    outs: &mut Outs,
) -> Result<(), AllocError>
    requires empty { outs.old ≡ [] }
    requires few_sellers { sellers ≤ most_sellers }
    requires few { length items.items ≤ most_items }
    ensures { OnOk result (outs.new ≡ deliver_rows id items.items sellers) }
{
    let count = items.len();
    if count == 0 {
        return outs.tell(Role::Shipment, id, Reply::Delivered(0, 0));
    }
    let items = List::from_vec(items);
    outs.push(SHIPMENT_TO_CUSTOMER, Body::Delivered(items.try_copy()?))?;
    outs.push(SHIPMENT_TO_SELLER, Body::Delivered(items.try_copy()?))?;
    outs.push(SHIPMENT_TO_ORDER, Body::Delivered(items))?;
    let reply = Reply::Delivered(sellers as u32, count as u32);
    outs.tell(Role::Shipment, id, reply)
}
