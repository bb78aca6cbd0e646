//! The groups of all nodes.

ghost use Rattle.std.specs.Prelude.{◌≡◌, ℕ, ◌<◌, length, map, slice_set, IfOk, OnOk};
ghost use Rattle.market_events.specs.declared.lanes.TheConstants.{LANES};
ghost use Rattle.market_events.specs.Links.{IsLink, lane_node as node_of_lane};
ghost use Rattle.market_events.specs.Links.{sender_of as sender_by_link, receiver_of as receiver_by_link};
ghost use Rattle.market_events.specs.Offers.{taken_on};
ghost use Rattle.market_history.specs.Causality.{events_taken};
ghost use Rattle.market_history.specs.Once.{answer_by, reply_of, requests_given, with_id};
ghost use Rattle.market_links.specs.declared.slots.TheConstants.{SLOTS};
ghost use Rattle.market_node.specs.Notes.{event_with};
ghost use Rattle.std.specs.Option.{option_copied};
ghost use Rattle.market_events.specs.declared.nodes.TheConstants.{NODES};
ghost use Rattle.market_rings.specs.Wiring.{ends_of};
ghost use Rattle.market_rounds.specs.Groups.{idle_nodes};
ghost use Rattle.market_rounds.specs.Nodes.{AreReady, HasTurnedWithQueue, at_node, with_ends, with_committed};
ghost use Rattle.market_rounds.specs.Nodes.{with_requests, queue_by, but_fates, with_fate, entries_of_lane};

use crate::gate::Gate;
use crate::group::Group;
use crate::seats::seat_of;
use crate::threads::turn_eight;
use cart_service::Carts;
use customer_service::Customers;
use market_amounts::RequestId;
use market_events::{
    Event, Link, NODES, Node, Reply, Request, Role, lane_node, lane_of, receiver_of, sender_of,
};
use market_history::Journal;
use market_rings::{Ends, Fate, Way};
use order_service::Orders;
use payment_service::Payments;
use product_service::Products;
use seller_service::Sellers;
use shipment_service::Shipments;
use std::alloc::{AllocError, Global};
use std::marker::Model;
use std::thread::Threads;
use stock_service::Stocks;

// The groups of all nodes. Contracts see the nodes, by number.
#[derive(Drop)]
pub struct Groups {
    cart: Group<Carts>,
    product: Group<Products>,
    stock: Group<Stocks>,
    order: Group<Orders>,
    payment: Group<Payments>,
    shipment: Group<Shipments>,
    customer: Group<Customers>,
    seller: Group<Sellers>,
}

impl Model for Groups {
    ghost use Rattle.std.specs.Prelude.{List, [], ◌∷◌};
    ghost use Rattle.market_rounds.specs.Groups.{in_order};
    ghost use Rattle.market_rounds.specs.Nodes.{FatedNode};

    ghost Value = { List FatedNode };

    ghost view = { λ a. in_order (a.cart ∷ a.product ∷ a.stock ∷ a.order ∷ a.payment ∷ a.shipment ∷ a.customer
        ∷ a.seller ∷ []) };
}

impl Groups {
    // All nodes, which did nothing yet, without ends.
    pub fn new(alloc: Global) -> Result<Groups, AllocError>
        ensures { IfOk result (λ groups. groups ≡ idle_nodes) }
    {
        Ok(Groups {
            cart: Group::new(alloc, Role::Cart, Carts::new(alloc))?,
            product: Group::new(alloc, Role::Product, Products::new(alloc))?,
            stock: Group::new(alloc, Role::Stock, Stocks::new(alloc))?,
            order: Group::new(alloc, Role::Order, Orders::new(alloc))?,
            payment: Group::new(alloc, Role::Payment, Payments::new(alloc))?,
            shipment: Group::new(alloc, Role::Shipment, Shipments::new(alloc))?,
            customer: Group::new(alloc, Role::Customer, Customers::new(alloc))?,
            seller: Group::new(alloc, Role::Seller, Sellers::new(alloc))?,
        })
    }

    // A turn of each node, in each group side by side. On want of memory the groups are given up.
    pub fn turn<R: Threads + Sync, G: Gate + Sync>(
        &mut self,
        rt: &R,
        gate: &G,
    ) -> Result<(), AllocError>
        requires { AreReady self.old }
        ensures turned { OnOk result ((n : ℕ) → n < NODES
            → HasTurnedWithQueue (at_node self.old n) (at_node self.new n)) }
        ensures many { length self.new ≡ NODES }
    {
        turn_eight(
            rt,
            gate,
            &mut self.cart,
            &mut self.product,
            &mut self.stock,
            &mut self.order,
            &mut self.payment,
            &mut self.shipment,
            &mut self.customer,
            &mut self.seller,
        )
    }

    // Appends requests to the queue of a lane. On want of memory the groups are given up.
    pub fn queue(&mut self, lane: u8, requests: Vec<Request>) -> Result<(), AllocError>
        requires { lane < LANES }
        ensures { OnOk result (self.new ≡ slice_set self.old (node_of_lane lane)
            (with_requests (at_node self.old (node_of_lane lane)) requests.items)) }
    {
        let (role, seat) = seat_of(lane_node(lane));
        match role {
            Role::Cart => self.cart.queue(seat, requests),
            Role::Product => self.product.queue(seat, requests),
            Role::Stock => self.stock.queue(seat, requests),
            Role::Order => self.order.queue(seat, requests),
            Role::Payment => self.payment.queue(seat, requests),
            Role::Shipment => self.shipment.queue(seat, requests),
            Role::Customer => self.customer.queue(seat, requests),
            Role::Seller => self.seller.queue(seat, requests),
        }
    }

    // Appends a fate to those of a slot of a node. On want of memory the groups are given up.
    pub fn add_fate(
        &mut self,
        node: Node,
        way: Way,
        slot: usize,
        fate: Fate,
    ) -> Result<(), AllocError>
        requires { slot < SLOTS }
        ensures { OnOk result
            (self.new ≡ slice_set self.old node (with_fate (at_node self.old node) way slot fate)) }
    {
        let (role, seat) = seat_of(node);
        match role {
            Role::Cart => self.cart.add_fate(seat, way, slot, fate),
            Role::Product => self.product.add_fate(seat, way, slot, fate),
            Role::Stock => self.stock.add_fate(seat, way, slot, fate),
            Role::Order => self.order.add_fate(seat, way, slot, fate),
            Role::Payment => self.payment.add_fate(seat, way, slot, fate),
            Role::Shipment => self.shipment.add_fate(seat, way, slot, fate),
            Role::Customer => self.customer.add_fate(seat, way, slot, fate),
            Role::Seller => self.seller.add_fate(seat, way, slot, fate),
        }
    }

    // Drops the fates that are left. On want of memory the groups are given up.
    pub fn drop_fates(&mut self, alloc: Global) -> Result<(), AllocError>
        ensures { OnOk result (self.new ≡ map but_fates self.old) }
    {
        self.cart.drop_fates(alloc)?;
        self.product.drop_fates(alloc)?;
        self.stock.drop_fates(alloc)?;
        self.order.drop_fates(alloc)?;
        self.payment.drop_fates(alloc)?;
        self.shipment.drop_fates(alloc)?;
        self.customer.drop_fates(alloc)?;
        self.seller.drop_fates(alloc)?;
        Ok(())
    }

    // Gives a node these ends, and takes those that it has.
    pub fn swap_ends(&mut self, node: Node, ends: &mut Ends)
        ensures node { self.new ≡ slice_set self.old node (with_ends (at_node self.old node) ends.old) }
        ensures ends { ends.new ≡ (at_node self.old node).node.ends }
    {
        let (role, seat) = seat_of(node);
        match role {
            Role::Cart => self.cart.swap_ends(seat, ends),
            Role::Product => self.product.swap_ends(seat, ends),
            Role::Stock => self.stock.swap_ends(seat, ends),
            Role::Order => self.order.swap_ends(seat, ends),
            Role::Payment => self.payment.swap_ends(seat, ends),
            Role::Shipment => self.shipment.swap_ends(seat, ends),
            Role::Customer => self.customer.swap_ends(seat, ends),
            Role::Seller => self.seller.swap_ends(seat, ends),
        }
    }

    // Gives the nodes these ends, those of the nodes 0 to 23 in order, and takes those that they have.
    pub fn swap_all_ends(&mut self, all: &mut [Ends])
        requires nodes { length self.old ≡ NODES }
        requires ends { length all.old ≡ NODES }
        ensures many { length self.new ≡ NODES }
        ensures nodes { (n : ℕ) → n < NODES
            → at_node self.new n ≡ with_ends (at_node self.old n) (ends_of all.old n) }
        ensures many_ends { length all.new ≡ NODES }
        ensures ends { (n : ℕ) → n < NODES → ends_of all.new n ≡ (at_node self.old n).node.ends }
    {
        for number in 0..NODES {
            let Some(node) = Node::try_new(number) else {
                continue;
            };
            self.swap_ends(node, &mut all[number as usize]);
        }
    }

    // The journal of a node.
    pub fn journal(&self, node: Node) -> &Journal
        ensures node { result.now.node ≡ (at_node self.now node).node.core.node }
        ensures entries { result.now.entries ≡ (at_node self.now node).node.core.entries }
    {
        let (role, seat) = seat_of(node);
        match role {
            Role::Cart => self.cart.journal(seat),
            Role::Product => self.product.journal(seat),
            Role::Stock => self.stock.journal(seat),
            Role::Order => self.order.journal(seat),
            Role::Payment => self.payment.journal(seat),
            Role::Shipment => self.shipment.journal(seat),
            Role::Customer => self.customer.journal(seat),
            Role::Seller => self.seller.journal(seat),
        }
    }

    // The event of a link with this number, where one was made.
    pub fn event(&self, link: Link, number: u32) -> Option<&Event>
        requires link { IsLink link }
        requires from { (at_node self.now (sender_by_link link)).node.core.node ≡ sender_by_link link }
        ensures { option_copied result
            ≡ event_with link number (at_node self.now (sender_by_link link)).node.core.entries }
    {
        let (role, seat) = seat_of(sender_of(link));
        match role {
            Role::Cart => self.cart.event(seat, link, number),
            Role::Product => self.product.event(seat, link, number),
            Role::Stock => self.stock.event(seat, link, number),
            Role::Order => self.order.event(seat, link, number),
            Role::Payment => self.payment.event(seat, link, number),
            Role::Shipment => self.shipment.event(seat, link, number),
            Role::Customer => self.customer.event(seat, link, number),
            Role::Seller => self.seller.event(seat, link, number),
        }
    }

    // How many events were taken on a link.
    pub fn taken(&self, link: Link) -> u32
        requires link { IsLink link }
        requires into { (at_node self.now (receiver_by_link link)).node.core.node ≡ receiver_by_link link }
        ensures { result
            ≡ taken_on (events_taken (at_node self.now (receiver_by_link link)).node.core.entries) link }
    {
        let (role, seat) = seat_of(receiver_of(link));
        match role {
            Role::Cart => self.cart.taken(seat, link),
            Role::Product => self.product.taken(seat, link),
            Role::Stock => self.stock.taken(seat, link),
            Role::Order => self.order.taken(seat, link),
            Role::Payment => self.payment.taken(seat, link),
            Role::Shipment => self.shipment.taken(seat, link),
            Role::Customer => self.customer.taken(seat, link),
            Role::Seller => self.seller.taken(seat, link),
        }
    }

    // How many requests are in the queue of a lane.
    pub fn queued(&self, lane: u8) -> usize
        requires { lane < LANES }
        ensures { result ≡ length (queue_by self.now (node_of_lane lane)) }
    {
        let (role, seat) = seat_of(lane_node(lane));
        match role {
            Role::Cart => self.cart.queued(seat),
            Role::Product => self.product.queued(seat),
            Role::Stock => self.stock.queued(seat),
            Role::Order => self.order.queued(seat),
            Role::Payment => self.payment.queued(seat),
            Role::Shipment => self.shipment.queued(seat),
            Role::Customer => self.customer.queued(seat),
            Role::Seller => self.seller.queued(seat),
        }
    }

    // The answer of its lane to a request: none where it is kept and has no reply yet.
    pub fn answer(&self, request: &Request) -> Result<Option<Reply>, AllocError>
        ensures { IfOk result (λ answer. answer
            ≡ answer_by (with_id request.now.id (requests_given (entries_of_lane self.now request.now.id)))
            (reply_of (entries_of_lane self.now request.now.id) request.now.id) request.now) }
    {
        let (role, seat) = seat_of(lane_node(lane_of(request.id)));
        match role {
            Role::Cart => self.cart.answer(seat, request),
            Role::Product => self.product.answer(seat, request),
            Role::Stock => self.stock.answer(seat, request),
            Role::Order => self.order.answer(seat, request),
            Role::Payment => self.payment.answer(seat, request),
            Role::Shipment => self.shipment.answer(seat, request),
            Role::Customer => self.customer.answer(seat, request),
            Role::Seller => self.seller.answer(seat, request),
        }
    }

    // The reply of its lane to the request with this id, where it is kept and was answered.
    pub fn kept(&self, id: RequestId) -> Option<&Reply>
        ensures { option_copied result ≡ reply_of (entries_of_lane self.now id) id }
    {
        let (role, seat) = seat_of(lane_node(lane_of(id)));
        match role {
            Role::Cart => self.cart.kept(seat, id),
            Role::Product => self.product.kept(seat, id),
            Role::Stock => self.stock.kept(seat, id),
            Role::Order => self.order.kept(seat, id),
            Role::Payment => self.payment.kept(seat, id),
            Role::Shipment => self.shipment.kept(seat, id),
            Role::Customer => self.customer.kept(seat, id),
            Role::Seller => self.seller.kept(seat, id),
        }
    }

    // Counts all entries of all nodes as committed, and their events as released.
    pub fn release(&mut self)
        ensures { self.new ≡ map with_committed self.old }
    {
        self.cart.release();
        self.product.release();
        self.stock.release();
        self.order.release();
        self.payment.release();
        self.shipment.release();
        self.customer.release();
        self.seller.release();
    }
}
