//! The nodes of the marketplace.

ghost use Rattle.std.specs.Prelude.{◌≡◌, ◌≤◌, ◌<◌, ◌↔◌, IfSome, IsNone};

use crate::lanes::LANES;
use crate::roles::SERVICES;
use std::marker::Model;

/// How many nodes there are.
pub const NODES: u32 = SERVICES + LANES;

/// A node, 0 to 23: 0 to 7 are the services cart, product, stock, order, payment, shipment, customer and
/// seller, and 8 to 23 are the lanes 0 to 15. Contracts see the number.
#[derive(Clone, Copy, Debug, PartialEq, Eq, PartialOrd, Ord)]
pub struct Node {
    number: u32,
}

impl Model for Node {
    ghost use Rattle.std.specs.Prelude.{ℕ, ◌≤◌};

    ghost Value = { ℕ };

    ghost view = { λ node. node.number };

    ghost invariant = { λ node. node.number ≤ 23 };

    ghost inverse = { λ n. record { number = n } };
}

impl Node {
    /// The greatest node.
    pub const MAX: u32 = NODES - 1;

    /// The node with this number; none above 23.
    pub fn try_new(number: u32) -> Option<Node>
        ensures value { IfSome result (λ node. node ≡ number) }
        ensures none { IsNone result ↔ (Self.MAX < number) }
    {
        if number > Self::MAX {
            return None;
        }
        Some(Node { number })
    }

    // The node with this number.
    pub(crate) fn at(number: u32) -> Node
        requires { number ≤ Self.MAX }
        ensures { result ≡ number }
    {
        Node { number }
    }

    /// Its number.
    pub fn get(self) -> u32
        ensures value { result ≡ self }
        ensures in_range { result ≤ Self.MAX }
    {
        self.number
    }
}
