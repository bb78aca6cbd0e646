//! The eight services.

ghost use Rattle.std.specs.Prelude.{◌≡◌, ◌≤◌, ◌↔◌, IfSome, IsNone};
ghost use Rattle.market_events.specs.Links.{node_of};

use crate::nodes::Node;

/// How many services there are. Their nodes are 0 to 7.
pub const SERVICES: u32 = 8;

/// A service.
#[derive(Clone, Copy, Debug, PartialEq, Eq, PartialOrd, Ord)]
pub enum Role {
    Cart,
    Product,
    Stock,
    Order,
    Payment,
    Shipment,
    Customer,
    Seller,
}

impl Role {
    /// The service of a node; none where the node is a lane's.
    pub fn of(node: Node) -> Option<Role>
        ensures some { IfSome result (λ role. node_of role ≡ node) }
        ensures none { IsNone result ↔ (SERVICES ≤ node) }
    {
        match node.get() {
            0 => Some(Role::Cart),
            1 => Some(Role::Product),
            2 => Some(Role::Stock),
            3 => Some(Role::Order),
            4 => Some(Role::Payment),
            5 => Some(Role::Shipment),
            6 => Some(Role::Customer),
            7 => Some(Role::Seller),
            _ => None,
        }
    }

    /// Its node.
    pub fn node(self) -> Node
        ensures { result ≡ node_of self }
    {
        Node::at(u32::from(self.number()))
    }

    /// The number of its node, below `SERVICES`.
    pub fn number(self) -> u8
        ensures { result ≡ node_of self }
    {
        match self {
            Role::Cart => 0,
            Role::Product => 1,
            Role::Stock => 2,
            Role::Order => 3,
            Role::Payment => 4,
            Role::Shipment => 5,
            Role::Customer => 6,
            Role::Seller => 7,
        }
    }
}
