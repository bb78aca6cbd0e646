//! Where the core of a node stands.

ghost use Rattle.std.specs.Prelude.{◌≡◌};
ghost use Rattle.market_world.specs.Places.{node_at, IsPlace};

use market_events::{Node, Role, SERVICES};

// Where a core stands: it is that of a service, or of a lane, below `LANES`.
#[derive(Clone, Copy)]
pub enum Place {
    Service(Role),
    Lane(usize),
}

// Where the core of this node stands.
pub fn place_of(node: Node) -> Place
    ensures node { node_at result ≡ node }
    ensures place { IsPlace result }
{
    match Role::of(node) {
        Some(role) => Place::Service(role),
        None => Place::Lane((node.get() - SERVICES) as usize),
    }
}
