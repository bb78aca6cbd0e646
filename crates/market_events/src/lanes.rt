//! The lanes that take requests in.

ghost use Rattle.std.specs.Prelude.{◌≡◌, ◌<◌};
ghost use Rattle.market_events.specs.Links.{lane_node};
ghost use Rattle.market_events.specs.Requests.{lane_of as lane_by_id};

use crate::nodes::Node;
use crate::roles::SERVICES;
use market_amounts::RequestId;

/// How many lanes there are. Their nodes are those after the services.
pub const LANES: u32 = 16;

/// The lane of a request, below `LANES`: its caller modulo their number.
pub fn lane_of(id: RequestId) -> u8
    ensures { result ≡ lane_by_id id }
{
    (id.caller % LANES) as u8
}

/// The node of a lane, which requires a number below `LANES`.
pub fn lane_node(lane: u8) -> Node
    requires { lane < LANES }
    ensures { result ≡ lane_node lane }
{
    Node::at(SERVICES + u32::from(lane))
}
