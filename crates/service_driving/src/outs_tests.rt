//! Lists of what a step makes succeed here, which no clause says.

use market_amounts::RequestId;
use market_events::{Body, Outs, Reply, Role, SHIPMENT_TO_ORDER, SHIPMENT_TO_SELLER, telling_link};
use std::test::Fail;

#[test]
fn outs_come_back_in_order(rt: HostRuntime) -> Result<(), Fail> {
    let id = RequestId {
        caller: 5,
        number: 9,
    };
    let to_lane = telling_link(Role::Shipment, id);
    let mut outs = Outs::new(rt.alloc());
    outs.push(SHIPMENT_TO_ORDER, Body::Shipped(id))?;
    outs.push(to_lane, Body::Told(id, Reply::Removed))?;
    outs.push(SHIPMENT_TO_SELLER, Body::Shipped(id))?;
    assert_eq!(rt; outs.len(), 3);
    let (link, body, copy) = outs.first().ok_or("the first")?;
    assert_eq!(rt; link, SHIPMENT_TO_ORDER);
    assert_eq!(rt; body, Body::Shipped(id));
    assert_eq!(rt; copy, body);
    let (link, body, copy) = outs.first().ok_or("the second")?;
    assert_eq!(rt; link, to_lane);
    assert_eq!(rt; body, Body::Told(id, Reply::Removed));
    assert_eq!(rt; copy, body);
    outs.clear();
    assert!(rt; outs.first().is_none());
    Ok(())
}
