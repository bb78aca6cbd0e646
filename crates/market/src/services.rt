//! The eight services, and what one request makes, carried through them.

ghost use Rattle.std.specs.Prelude.{◌≡◌, [], ◌∷◌, ◌++◌, true, List, IfOk, OnOk, OnErr, map};
ghost use Rattle.market_events.specs.declared.bodies.Body.{Body};
ghost use Rattle.market_events.specs.declared.links.Link.{Link};
ghost use Rattle.market_events.specs.declared.requests.Request.{Request};
ghost use Rattle.market_events.specs.Copies.{last_some};
ghost use Rattle.market_events.specs.Services.{answers, fits};
ghost use Rattle.market_events.specs.WellFormed.{IsRequest, IsReply};
ghost use Rattle.market_history.specs.Acts.{no_acts};
ghost use Rattle.market.specs.Carrying.{Taken, with_taken, CanPass, made_of, passed, IsTrace, all_passed};
ghost use Rattle.market.specs.Carrying.{request_fits, request_answers, with_request, steps_taken};
ghost use Rattle.market_history.specs.Blocks.{role_at};
ghost use Rattle.market_history.specs.Sequential.{acts_after, sequential_reply, reply_told};
ghost use Rattle.market.specs.Services.{StandFor, Serves, IsNext};

use cart_service::Carts;
use customer_service::Customers;
use market_events::{
    Body, LANES, Link, Node, Outs, Reply, Request, Role, Service, receiver_of, service_of,
};
use order_service::Orders;
use payment_service::Payments;
use product_service::Products;
use seller_service::Sellers;
use shipment_service::Shipments;
use std::alloc::{AllocError, Global};
use std::collections::VecDeque;
use stock_service::Stocks;

// The service of this node; a node above the services counts as the last one.
fn role_of(node: Node) -> Role
    ensures { result ≡ role_at node }
{
    Role::of(node).unwrap_or(Role::Seller)
}

/// The eight services, each with its own tables.
#[derive(Drop)]
pub struct Services {
    alloc: Global,
    carts: Carts,
    products: Products,
    stocks: Stocks,
    orders: Orders,
    payments: Payments,
    shipments: Shipments,
    customers: Customers,
    sellers: Sellers,
}

impl Services {
    /// Nothing was asked.
    pub fn new(alloc: Global) -> Services
        ensures { Serves result [] }
    {
        Services {
            alloc,
            carts: Carts::new(alloc),
            products: Products::new(alloc),
            stocks: Stocks::new(alloc),
            orders: Orders::new(alloc),
            payments: Payments::new(alloc),
            shipments: Shipments::new(alloc),
            customers: Customers::new(alloc),
            sellers: Sellers::new(alloc),
        }
    }

    /// Gives a request with a new id to its service, carries what that makes through the services until none
    /// is left, and gives the reply. It requires a well-formed request. After want of memory this is given
    /// up.
    pub fn ask(&mut self, request: &Request) -> Result<Reply, AllocError>
        requires formed { IsRequest request.now }
        requires next { ∥ ((requests : List Request) × Serves self.old requests
            × IsNext requests request.now) ∥₁ }
        ensures replied { IfOk result (λ reply. (requests : List Request) → Serves self.old requests
            → IsNext requests request.now
            → reply ≡ sequential_reply (acts_after no_acts requests) request.now) }
        ensures formed { IfOk result IsReply }
        ensures serves_on { OnOk result ((requests : List Request) → Serves self.old requests
            → IsNext requests request.now
            → Serves self.new (requests ++ request.now ∷ [])) }
    {
        let made = self.give(request)?;
        match self.carry(made)? {
            Some(reply) => Ok(reply),
            None => unreachable!(),
        }
    }

    // Gives a request to its service, and gives what that makes.
    fn give(&mut self, request: &Request) -> Result<Outs, AllocError>
        requires { ∥ ((taken : Taken) × StandFor self.old taken
            × (request_fits taken request.now ≡ true)) ∥₁ }
        ensures made { IfOk result (λ made. (taken : Taken) → StandFor self.old taken
            → request_fits taken request.now ≡ true
            → made ≡ request_answers taken request.now) }
        ensures stands_on { OnOk result ((taken : Taken) → StandFor self.old taken
            → request_fits taken request.now ≡ true
            → StandFor self.new (with_request taken request.now)) }
    {
        let Request { id, ask } = *request;
        let lane = (id.caller % LANES) as u8;
        let service = service_of(&ask);
        let from = Link::Asked(lane, service.get() as u8);
        let body = Body::Asked(Request { id, ask });
        self.accept(service, from, &body)
    }

    // Carries bodies, and what the services make of them, until none is left, and gives the reply that is
    // told last.
    fn carry(&mut self, made: Outs) -> Result<Option<Reply>, AllocError>
        requires { ∥ ((taken : Taken) × StandFor self.old taken
            × ((trace : List (Link × Body)) × IsTrace taken made trace)) ∥₁ }
        ensures told { IfOk result (λ reply. (taken : Taken) (trace : List (Link × Body))
            → StandFor self.old taken → IsTrace taken made trace
            → reply ≡ last_some reply_told trace) }
        ensures stands_on { OnOk result ((taken : Taken) (trace : List (Link × Body))
            → StandFor self.old taken
            → IsTrace taken made trace
            → StandFor self.new (all_passed taken trace)) }
    {
        let mut waiting = VecDeque::new(self.alloc);
        append(&mut waiting, made)?;
        let mut reply = None;
        while let Some((link, body)) = waiting.pop_front() {
            let made = self.pass(link, &body)?;
            append(&mut waiting, made)?;
            reply = told(body).or(reply);
        }
        Ok(reply)
    }

    // Passes one body to the service at the end of its link, and gives what that makes; a reply is for no
    // service.
    fn pass(&mut self, link: Link, body: &Body) -> Result<Outs, AllocError>
        requires { ∥ ((taken : Taken) × StandFor self.old taken × CanPass taken (link, body.now)) ∥₁ }
        ensures made { IfOk result (λ made. (taken : Taken) → StandFor self.old taken
            → CanPass taken (link, body.now)
            → made ≡ made_of taken (link, body.now)) }
        ensures stands_on { OnOk result ((taken : Taken) → StandFor self.old taken
            → CanPass taken (link, body.now)
            → StandFor self.new (passed taken (link, body.now))) }
    {
        match link {
            Link::Service(_) => self.accept(receiver_of(link), link, body),
            Link::Asked(..) | Link::Told(..) => Ok(Outs::new(self.alloc)),
        }
    }

    // Gives a body that came on this link to a service, and gives what that makes.
    fn accept(&mut self, service: Node, from: Link, body: &Body) -> Result<Outs, AllocError>
        requires { ∥ ((taken : Taken) × StandFor self.old taken
            × (fits (role_at service) (steps_taken taken (role_at service)) from body.now ≡ true)) ∥₁ }
        ensures made { IfOk result (λ made. (taken : Taken) → StandFor self.old taken
            → fits (role_at service) (steps_taken taken (role_at service)) from body.now ≡ true
            → made ≡ answers (role_at service) (steps_taken taken (role_at service)) from body.now) }
        ensures stands_on { OnOk result ((taken : Taken) → StandFor self.old taken
            → fits (role_at service) (steps_taken taken (role_at service)) from body.now ≡ true
            → StandFor self.new (with_taken taken (role_at service) from body.now)) }
    {
        let mut made = Outs::new(self.alloc);
        match role_of(service) {
            Role::Cart => self.carts.accept(from, body, &mut made)?,
            Role::Product => self.products.accept(from, body, &mut made)?,
            Role::Stock => self.stocks.accept(from, body, &mut made)?,
            Role::Order => self.orders.accept(from, body, &mut made)?,
            Role::Payment => self.payments.accept(from, body, &mut made)?,
            Role::Shipment => self.shipments.accept(from, body, &mut made)?,
            Role::Customer => self.customers.accept(from, body, &mut made)?,
            Role::Seller => self.sellers.accept(from, body, &mut made)?,
        }
        Ok(made)
    }
}

// Puts what was made behind what waits.
fn append(waiting: &mut VecDeque<(Link, Body)>, mut made: Outs) -> Result<(), AllocError>
    ensures { OnOk result (waiting.new.items ≡ waiting.old.items ++ made) }
{
    while let Some((link, body, _copy)) = made.first() {
        waiting.push_back((link, body))?;
    }
    Ok(())
}

// The reply that a body tells.
fn told(body: Body) -> Option<Reply>
    ensures { (link : Link) → result ≡ reply_told (link, body) }
{
    match body {
        Body::Told(_, reply) => Some(reply),
        _ => None,
    }
}
