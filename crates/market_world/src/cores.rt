//! The cores of all nodes.

ghost use Rattle.std.specs.Prelude.{◌≡◌, IfOk};
ghost use Rattle.std.specs.Option.{option_copied};
ghost use Rattle.market_events.specs.Links.{IsLink, lane_node, sender_of as sender_by_link};
ghost use Rattle.market_events.specs.Links.{receiver_of as receiver_by_link};
ghost use Rattle.market_events.specs.Links.{cart_node, product_node, stock_node, order_node, payment_node};
ghost use Rattle.market_events.specs.Links.{shipment_node, customer_node, seller_node};
ghost use Rattle.market_events.specs.Offers.{offer_of, taken_on};
ghost use Rattle.market_events.specs.Requests.{lane_of};
ghost use Rattle.market_events.specs.Services.{node_of};
ghost use Rattle.market_history.specs.Causality.{events_taken};
ghost use Rattle.market_history.specs.Histories.{journal_at, no_histories, with_journal};
ghost use Rattle.market_history.specs.Schedule.{gave, offered};
ghost use Rattle.market_node.specs.Notes.{event_with};
ghost use Rattle.market_world.specs.Arriving.{CanOffer, CanGive, after_offer_of, after_give_of};
ghost use Rattle.market_world.specs.Cells.{cells_at};
ghost use Rattle.market_world.specs.Starting.{IsEmptyCore};

use crate::lanes::Lanes;
use crate::places::{Place, place_of};
use cart_service::Carts;
use customer_service::Customers;
use market_events::{
    Cell, Event, LANES, Link, Node, Offer, Request, Role, Service, receiver_of, sender_of,
};
use market_history::{Give, Journal};
use market_node::{Core, NodeCore};
use order_service::Orders;
use payment_service::Payments;
use product_service::Products;
use seller_service::Sellers;
use shipment_service::Shipments;
use std::alloc::{AllocError, Global};
use std::marker::Model;
use stock_service::Stocks;

// The cores of all nodes. Contracts see the entries of each, from node 0 on.
#[derive(Drop)]
pub struct Cores {
    alloc: Global,
    cart: NodeCore<Carts>,
    product: NodeCore<Products>,
    stock: NodeCore<Stocks>,
    order: NodeCore<Orders>,
    payment: NodeCore<Payments>,
    shipment: NodeCore<Shipments>,
    customer: NodeCore<Customers>,
    seller: NodeCore<Sellers>,
    lanes: Lanes,
}

impl Model for Cores {
    ghost use Rattle.market_history.specs.Histories.{Histories};

    ghost Value = { Histories };

    ghost use Rattle.market_world.specs.CoresInside.{entries_by_node, AreInPlace};

    ghost view = { entries_by_node };

    ghost invariant = { AreInPlace };
}

impl Cores {
    // The cores of all nodes, with nothing in their journals.
    pub fn new(alloc: Global) -> Result<Cores, AllocError>
        ensures { IfOk result (λ cores. cores ≡ no_histories) }
    {
        let FrontCores {
            cart,
            product,
            stock,
            order,
        } = FrontCores::new(alloc)?;
        let BackCores {
            payment,
            shipment,
            customer,
            seller,
        } = BackCores::new(alloc)?;
        let lanes = Lanes::new(alloc)?;
        Ok(Cores {
            alloc,
            cart,
            product,
            stock,
            order,
            payment,
            shipment,
            customer,
            seller,
            lanes,
        })
    }

    // The journal of a node. It takes no memory.
    #[tactic(auto, using(crate::proofs::AllNodes::at_lane), unfolding(market_history::specs::Histories::journal_at))]
    pub fn journal(&self, node: Node) -> &Journal
        ensures node { result.now.node ≡ node }
        ensures entries { result.now.entries ≡ journal_at self.now node }
    {
        match place_of(node) {
            Place::Service(Role::Cart) => self.cart.journal(),
            Place::Service(Role::Product) => self.product.journal(),
            Place::Service(Role::Stock) => self.stock.journal(),
            Place::Service(Role::Order) => self.order.journal(),
            Place::Service(Role::Payment) => self.payment.journal(),
            Place::Service(Role::Shipment) => self.shipment.journal(),
            Place::Service(Role::Customer) => self.customer.journal(),
            Place::Service(Role::Seller) => self.seller.journal(),
            Place::Lane(lane) => self.lanes.journal(lane),
        }
    }

    // The event of a link with this number, where its sender made one. It takes no memory.
    #[tactic(auto, using(crate::proofs::AllNodes::at_lane), unfolding(market_history::specs::Histories::journal_at))]
    pub fn event(&self, link: Link, number: u32) -> Option<&Event>
        requires { IsLink link }
        ensures { option_copied result ≡ event_with link number (journal_at self.now (sender_by_link link)) }
    {
        match place_of(sender_of(link)) {
            Place::Service(Role::Cart) => self.cart.event(link, number),
            Place::Service(Role::Product) => self.product.event(link, number),
            Place::Service(Role::Stock) => self.stock.event(link, number),
            Place::Service(Role::Order) => self.order.event(link, number),
            Place::Service(Role::Payment) => self.payment.event(link, number),
            Place::Service(Role::Shipment) => self.shipment.event(link, number),
            Place::Service(Role::Customer) => self.customer.event(link, number),
            Place::Service(Role::Seller) => self.seller.event(link, number),
            Place::Lane(lane) => self.lanes.event(lane, link, number),
        }
    }

    // How many events of a link its receiver took. It takes no memory.
    #[tactic(auto, using(crate::proofs::AllNodes::at_lane), unfolding(market_history::specs::Histories::journal_at))]
    pub fn taken(&self, link: Link) -> u32
        requires { IsLink link }
        ensures { result ≡ taken_on (events_taken (journal_at self.now (receiver_by_link link))) link }
    {
        match place_of(receiver_of(link)) {
            Place::Service(Role::Cart) => self.cart.taken(link),
            Place::Service(Role::Product) => self.product.taken(link),
            Place::Service(Role::Stock) => self.stock.taken(link),
            Place::Service(Role::Order) => self.order.taken(link),
            Place::Service(Role::Payment) => self.payment.taken(link),
            Place::Service(Role::Shipment) => self.shipment.taken(link),
            Place::Service(Role::Customer) => self.customer.taken(link),
            Place::Service(Role::Seller) => self.seller.taken(link),
            Place::Lane(lane) => self.lanes.taken(lane, link),
        }
    }

    // Offers an event to the receiver of its link. On want of memory, and where it is not taken, nothing
    // changes.
    pub fn take(&mut self, event: &Event) -> Result<Offer, AllocError>
        requires { CanOffer (receiver_by_link event.now.link)
            (journal_at self.old (receiver_by_link event.now.link)) event.now }
        ensures offers { IfOk result (λ offer. offer ≡ offered self.old event.now) }
        ensures after { self.new ≡ with_journal self.old (receiver_by_link event.now.link)
            (after_offer_of (receiver_by_link event.now.link)
            (journal_at self.old (receiver_by_link event.now.link)) event.now result) }
    {
        match place_of(receiver_of(event.link)) {
            Place::Service(Role::Cart) => take_at(&mut self.cart, event),
            Place::Service(Role::Product) => take_at(&mut self.product, event),
            Place::Service(Role::Stock) => take_at(&mut self.stock, event),
            Place::Service(Role::Order) => take_at(&mut self.order, event),
            Place::Service(Role::Payment) => take_at(&mut self.payment, event),
            Place::Service(Role::Shipment) => take_at(&mut self.shipment, event),
            Place::Service(Role::Customer) => take_at(&mut self.customer, event),
            Place::Service(Role::Seller) => take_at(&mut self.seller, event),
            Place::Lane(lane) => self.lanes.take(lane, event),
        }
    }

    // Gives a request to its lane. On want of memory, and where it is not asked, nothing changes.
    pub fn give(&mut self, request: &Request) -> Result<Give, AllocError>
        requires { CanGive (lane_node (lane_of request.now.id))
            (journal_at self.old (lane_node (lane_of request.now.id))) request.now }
        ensures gives { IfOk result (λ give. give ≡ gave self.old request.now) }
        ensures after { self.new ≡ with_journal self.old (lane_node (lane_of request.now.id))
            (after_give_of (lane_node (lane_of request.now.id))
            (journal_at self.old (lane_node (lane_of request.now.id))) request.now result) }
    {
        let lane = request.id.caller % LANES;
        self.lanes.give(lane as usize, request)
    }

    // The cells of a service; a lane has none.
    pub fn cells(&self, node: Node) -> Result<Vec<Cell>, AllocError>
        ensures { IfOk result (λ cells. cells.items ≡ cells_at self.now node) }
    {
        match place_of(node) {
            Place::Service(Role::Cart) => self.cart.cells(),
            Place::Service(Role::Product) => self.product.cells(),
            Place::Service(Role::Stock) => self.stock.cells(),
            Place::Service(Role::Order) => self.order.cells(),
            Place::Service(Role::Payment) => self.payment.cells(),
            Place::Service(Role::Shipment) => self.shipment.cells(),
            Place::Service(Role::Customer) => self.customer.cells(),
            Place::Service(Role::Seller) => self.seller.cells(),
            Place::Lane(_) => Ok(Vec::new(self.alloc)),
        }
    }
}

// The cores of the services up to the order of a checkout.
struct FrontCores {
    cart: NodeCore<Carts>,
    product: NodeCore<Products>,
    stock: NodeCore<Stocks>,
    order: NodeCore<Orders>,
}

impl FrontCores {
    fn new(alloc: Global) -> Result<FrontCores, AllocError>
        ensures cart { IfOk result (λ cores. IsEmptyCore cart_node cores.cart) }
        ensures product { IfOk result (λ cores. IsEmptyCore product_node cores.product) }
        ensures stock { IfOk result (λ cores. IsEmptyCore stock_node cores.stock) }
        ensures order { IfOk result (λ cores. IsEmptyCore order_node cores.order) }
    {
        Ok(FrontCores {
            cart: NodeCore::new(alloc, Role::Cart.node(), Carts::new(alloc))?,
            product: NodeCore::new(alloc, Role::Product.node(), Products::new(alloc))?,
            stock: NodeCore::new(alloc, Role::Stock.node(), Stocks::new(alloc))?,
            order: NodeCore::new(alloc, Role::Order.node(), Orders::new(alloc))?,
        })
    }
}

// The cores of the services from the payment of a checkout on.
struct BackCores {
    payment: NodeCore<Payments>,
    shipment: NodeCore<Shipments>,
    customer: NodeCore<Customers>,
    seller: NodeCore<Sellers>,
}

impl BackCores {
    fn new(alloc: Global) -> Result<BackCores, AllocError>
        ensures payment { IfOk result (λ cores. IsEmptyCore payment_node cores.payment) }
        ensures shipment { IfOk result (λ cores. IsEmptyCore shipment_node cores.shipment) }
        ensures customer { IfOk result (λ cores. IsEmptyCore customer_node cores.customer) }
        ensures seller { IfOk result (λ cores. IsEmptyCore seller_node cores.seller) }
    {
        Ok(BackCores {
            payment: NodeCore::new(alloc, Role::Payment.node(), Payments::new(alloc))?,
            shipment: NodeCore::new(alloc, Role::Shipment.node(), Shipments::new(alloc))?,
            customer: NodeCore::new(alloc, Role::Customer.node(), Customers::new(alloc))?,
            seller: NodeCore::new(alloc, Role::Seller.node(), Sellers::new(alloc))?,
        })
    }
}

// Offers an event to the core of a service.
fn take_at<S: Service>(core: &mut NodeCore<S>, event: &Event) -> Result<Offer, AllocError>
    requires service { core.old.node ≡ node_of S.role }
    requires can { CanOffer core.old.node core.old.entries event.now }
    ensures offers { IfOk result (λ offer. offer
        ≡ offer_of core.old.node (events_taken core.old.entries) event.now) }
    ensures node { core.new.node ≡ core.old.node }
    ensures after { core.new.entries ≡ after_offer_of core.old.node core.old.entries event.now result }
{
    core.take(event)
}
