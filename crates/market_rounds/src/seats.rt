//! Where a node stands among the groups.

ghost use Rattle.std.specs.Prelude.{◌≡◌, ◌+◌, ◌*◌, ◌<◌, ◌≤◌};
ghost use Rattle.market_events.specs.declared.lanes.TheConstants.{LANES};
ghost use Rattle.market_events.specs.Links.{node_of};
ghost use Rattle.market_rounds.specs.Groups.{number_at};

use market_events::{Node, Role, SERVICES};

/// A place in a group.
#[derive(Clone, Copy, Debug, PartialEq, Eq)]
pub enum Seat {
    /// That of the service.
    Service,
    /// That of the lane with the lower number.
    First,
    /// That of the lane with the higher number.
    Second,
}

/// The seat of a node, in the group of this service.
pub fn seat_of(node: Node) -> (Role, Seat)
    ensures { number_at result.0 result.1 ≡ node }
{
    if let Some(role) = Role::of(node) {
        return (role, Seat::Service);
    }
    let lane = node.get() - SERVICES;
    let role = group_of_lane(lane);
    if lane % 2 == 0 {
        (role, Seat::First)
    } else {
        (role, Seat::Second)
    }
}

// The service of the group that has the lane.
fn group_of_lane(lane: u32) -> Role
    requires { lane < LANES }
    ensures from { 2 * node_of result ≤ lane }
    ensures to { lane ≤ 2 * node_of result + 1 }
{
    match lane / 2 {
        0 => Role::Cart,
        1 => Role::Product,
        2 => Role::Stock,
        3 => Role::Order,
        4 => Role::Payment,
        5 => Role::Shipment,
        6 => Role::Customer,
        _ => Role::Seller,
    }
}
