//! What a step of a service makes.

ghost use Rattle.std.specs.Prelude.{◌≡◌, ◌<◌, ◌≤◌, ◌↔◌, [], ◌∷◌, ◌++◌, length, IsTrue, IfSome, IsNone};
ghost use Rattle.std.specs.Prelude.{IfNone, OnOk, OnErr};
ghost use Rattle.market_events.specs.Links.{node_of};
ghost use Rattle.market_events.specs.Steps.{most_outs, told};

use crate::bodies::Body;
use crate::links::{Link, telling_link};
use crate::replies::Reply;
use crate::roles::Role;
use market_amounts::RequestId;
use std::alloc::{AllocError, Global};
use std::collections::VecDeque;
use std::marker::Model;

/// How many bodies one step makes at most: eight.
pub const MOST_OUTS: usize = 8;

// A body on its link, and a copy of it. Contracts see the link with the body.
#[derive(Debug, Drop)]
struct Out {
    link: Link,
    body: Body,
    copy: Body,
}

impl Model for Out {
    ghost use Rattle.std.specs.Prelude.{◌≡◌};
    ghost use Rattle.market_events.specs.declared.bodies.Body.{Body};
    ghost use Rattle.market_events.specs.declared.links.Link.{Link};

    ghost Value = { Link × Body };

    ghost view = { λ out. (out.link, out.body) };

    ghost invariant = { λ out. out.copy ≡ out.body };
}

/// The bodies that a step makes, in order, each on its link: at most eight. Contracts see the list of the
/// links with the bodies. Each body is kept with a copy, so that it can be given to two takers without taking
/// memory.
#[derive(Debug, Drop)]
pub struct Outs {
    outs: VecDeque<Out>,
}

impl Model for Outs {
    ghost use Rattle.std.specs.Prelude.{List, ◌≤◌, length};
    ghost use Rattle.market_events.specs.declared.bodies.Body.{Body};
    ghost use Rattle.market_events.specs.declared.links.Link.{Link};
    ghost use Rattle.market_events.specs.declared.outs.TheConstants.{MOST_OUTS};

    ghost Value = { List (Link × Body) };

    ghost view = { λ outs. outs.outs.items };

    ghost invariant = { λ outs. length outs.outs.items ≤ MOST_OUTS };
}

impl Outs {
    /// Nothing was made. It takes no memory.
    pub fn new(alloc: Global) -> Outs
        ensures { result ≡ [] }
    {
        Outs {
            outs: VecDeque::new(alloc),
        }
    }

    /// How many bodies there are.
    pub fn len(&self) -> usize
        ensures value { result ≡ length self.now }
        ensures in_range { result ≤ most_outs }
    {
        self.outs.len()
    }

    /// Whether there is none.
    pub fn is_empty(&self) -> bool
        ensures { IsTrue result ↔ (self.now ≡ []) }
    {
        self.outs.is_empty()
    }

    /// Adds a body on its link, which requires that there are fewer than eight. On want of memory nothing is
    /// added.
    pub fn push(&mut self, link: Link, body: Body) -> Result<(), AllocError>
        requires { length self.old < most_outs }
        ensures ok { OnOk result (self.new ≡ self.old ++ (link, body) ∷ []) }
        ensures err { OnErr result (self.new ≡ self.old) }
    {
        let copy = body.try_copy()?;
        self.outs.push_back(Out { link, body, copy })?;
        Ok(())
    }

    /// Tells the lane of a request its reply, which requires that there are fewer than eight bodies. On want
    /// of memory nothing is added.
    pub fn tell(&mut self, service: Role, id: RequestId, reply: Reply) -> Result<(), AllocError>
        requires { length self.old < most_outs }
        ensures ok { OnOk result (self.new ≡ self.old ++ told (node_of service) id reply ∷ []) }
        ensures err { OnErr result (self.new ≡ self.old) }
    {
        self.push(telling_link(service, id), Body::Told(id, reply))
    }

    /// Takes the first body with its link and its copy. It takes no memory.
    pub fn first(&mut self) -> Option<(Link, Body, Body)>
        ensures first { IfSome result (λ out. self.old ≡ (out.0, out.1) ∷ self.new) }
        ensures copied { IfSome result (λ out. out.2 ≡ out.1) }
        ensures none { IsNone result ↔ (self.old ≡ []) }
        ensures empty { IfNone result (self.new ≡ []) }
    {
        let Out { link, body, copy } = self.outs.pop_front()?;
        Some((link, body, copy))
    }

    /// Takes all away.
    pub fn clear(&mut self)
        ensures { self.new ≡ [] }
    {
        self.outs.clear();
    }
}
