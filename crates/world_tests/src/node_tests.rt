//! The core of the lane of caller 7, step by step; the values are worked out by hand.

ghost use Rattle.std.specs.Prelude.{◌≡◌, ◌≢◌, ℕ, ◌+◌, ◌≤◌, true, IfOk, OnOk};
ghost use Rattle.market_amounts.specs.declared.keys.RequestId.{RequestId};
ghost use Rattle.market_events.specs.Requests.{lane_of};
ghost use Rattle.market_events.specs.WellFormed.{IsRequest, IsRequestId};
ghost use Rattle.market_history.specs.Blocks.{grow, Arrival};
ghost use Rattle.market_node.specs.Cores.{with_entries};
ghost use Rattle.market_node.specs.Keeping.{is_awaited};
ghost use Rattle.world_tests.specs.TestedNodes.{IsSmall, IsWithin, GrewLittle};

use market_amounts::{ProductKey, RequestId};
use market_events::{Ask, Body, Counts, Event, LANES, Link, Offer, Reply, Request, Role};
use market_history::Give;
use market_node::{Core, LaneCore};
use std::alloc::AllocError;
use std::process::Abort;
use std::test::Fail;

// The caller of the requests, its lane, and the link on which the cart tells that lane.
const CALLER: u32 = 7;

const LANE: u8 = (CALLER % LANES) as u8;

const CART_TO_LANE: Link = Link::Told(Role::Cart as u8, LANE);

// A request of the caller to remove a product of seller 5 from a cart.
fn remove(number: u32, product: u32) -> Request
    ensures formed { IsRequest result }
    ensures lane { lane_of result.id ≡ LANE }
{
    Request {
        id: RequestId {
            caller: CALLER,
            number,
        },
        ask: Ask::Remove(7, ProductKey { seller: 5, product }),
    }
}

// Gives the lane a request.
fn give(lane: &mut LaneCore, request: &Request) -> Result<Give, AllocError>
    requires formed { IsRequest request.now }
    requires own { lane_of request.now.id ≡ LANE }
    requires small { IsSmall lane.old }
    ensures grew { GrewLittle lane.old lane.new }
    ensures asked { IfOk result (λ give. give ≡ Give.Asked
        → lane.new
        ≡ with_entries lane.old (grow lane.old.node lane.old.entries (Arrival.Gives request.now))) }
    ensures other { IfOk result (λ give. give ≢ Give.Asked → lane.new ≡ lane.old) }
{
    lane.give(request)
}

// Tells the lane that the product was removed, as the event of the cart's link with this number.
fn tell(lane: &mut LaneCore, id: RequestId, number: u32) -> Result<Offer, AllocError>
    requires id { IsRequestId id }
    requires positive { 1 ≤ number }
    requires small { IsSmall lane.old }
    requires awaited { is_awaited lane.old.entries id ≡ true }
    ensures grew { GrewLittle lane.old lane.new }
{
    let event = Event {
        link: CART_TO_LANE,
        number,
        clock: 4,
        past: Counts::zero(),
        body: Body::Told(id, Reply::Removed),
    };
    lane.take(&event)
}

// Gives the lane a request, and says whether the lane asked it and awaits its reply.
fn ask(lane: &mut LaneCore, request: &Request) -> Result<bool, AllocError>
    requires formed { IsRequest request.now }
    requires own { lane_of request.now.id ≡ LANE }
    requires small { IsSmall lane.old }
    ensures grew { GrewLittle lane.old lane.new }
    ensures awaited { IfOk result (λ asked. asked ≡ true
        → is_awaited lane.new.entries request.now.id ≡ true) }
{
    if give(lane, request)? != Give::Asked {
        return Ok(false);
    }
    Ok(lane.kept(request.id).is_none())
}

// Gives the lane the request with this number, which it asks, and tells it the reply.
fn answer(rt: &impl Abort, lane: &mut LaneCore, number: u32) -> Result<(), AllocError>
    requires positive { 1 ≤ number }
    requires few { number ≤ 16_384 }
    requires within { IsWithin number lane.old }
    ensures { OnOk result (IsWithin (number + 1) lane.new) }
{
    let request = remove(number, 10);
    assert!(rt; ask(lane, &request)?);
    assert_eq!(rt; tell(lane, request.id, number)?, Offer::Take);
    Ok(())
}

// Fills the lane but for one request: those with numbers below 16,384 are asked and answered.
fn fill(rt: &impl Abort, lane: &mut LaneCore) -> Result<(), AllocError>
    requires { IsWithin 1 lane.old }
    ensures { OnOk result (IsWithin 16_384 lane.new) }
{
    for number in 1..16_384 {
        answer(rt, lane, number)?;
    }
    Ok(())
}

// Gives the lane a request that it does not ask, and says what the lane did. The journal keeps its entries,
// so many.
fn turn_away(
    rt: &impl Abort,
    lane: &mut LaneCore,
    request: &Request,
    entries: usize,
) -> Result<Give, AllocError>
    requires formed { IsRequest request.now }
    requires own { lane_of request.now.id ≡ LANE }
    requires small { IsSmall lane.old }
    ensures { OnOk result (lane.new ≡ lane.old) }
{
    let given = give(lane, request)?;
    assert_ne!(rt; given, Give::Asked);
    assert_eq!(rt; lane.journal().entries().len(), entries);
    Ok(given)
}

#[test]
fn a_full_lane_asks_no_more(rt: HostRuntime) -> Result<(), Fail> {
    let first = remove(1, 10);
    let changed = remove(1, 11);
    let last = remove(16_384, 10);
    let new = remove(16_385, 10);
    let mut lane = LaneCore::new(rt.alloc(), LANE)?;
    fill(&rt, &mut lane)?;
    assert!(rt; ask(&mut lane, &last)?);
    assert_eq!(rt; turn_away(&rt, &mut lane, &new, 65_534)?, Give::Waiting);
    assert_eq!(rt; tell(&mut lane, last.id, 16_384)?, Offer::Take);
    assert_eq!(rt; turn_away(&rt, &mut lane, &new, 65_536)?, Give::Full);
    assert_eq!(rt; turn_away(&rt, &mut lane, &first, 65_536)?, Give::Kept);
    assert_eq!(rt; turn_away(&rt, &mut lane, &last, 65_536)?, Give::Kept);
    assert_eq!(rt; turn_away(&rt, &mut lane, &changed, 65_536)?, Give::Differs);
    Ok(())
}

#[test]
fn a_lane_keeps_what_it_asks(rt: HostRuntime) -> Result<(), Fail> {
    let first = remove(1, 10);
    let changed = remove(1, 11);
    let second = remove(2, 10);
    let third = remove(3, 10);
    let mut lane = LaneCore::new(rt.alloc(), LANE)?;
    assert_eq!(rt; give(&mut lane, &first)?, Give::Asked);
    assert_eq!(rt; tell(&mut lane, first.id, 1)?, Offer::Take);
    assert_eq!(rt; give(&mut lane, &first)?, Give::Kept);
    assert_eq!(rt; give(&mut lane, &changed)?, Give::Differs);
    assert_eq!(rt; lane.journal().entries().len(), 4);
    assert_eq!(rt; give(&mut lane, &second)?, Give::Asked);
    assert_eq!(rt; give(&mut lane, &third)?, Give::Waiting);
    assert_eq!(rt; give(&mut lane, &second)?, Give::Waiting);
    assert_eq!(rt; give(&mut lane, &first)?, Give::Kept);
    assert_eq!(rt; lane.kept(first.id).is_some(), true);
    assert_eq!(rt; lane.kept(second.id).is_some(), false);
    assert_eq!(rt; lane.uncommitted().len(), 6);
    lane.release();
    assert_eq!(rt; lane.uncommitted().len(), 0);
    Ok(())
}
