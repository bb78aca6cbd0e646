//! The values that the marketplace speaks of: nodes and links, requests, replies, events and what they tell,
//! with the definitions of what services answer and of their cells. Nothing here runs.
#![tactic(auto)]

mod bodies;
mod cell_lists;
mod cell_names;
mod cells;
mod changes;
mod counts;
mod events;
pub mod examples;
mod lanes;
pub mod laws;
mod links;
mod name_lists;
mod nodes;
mod outs;
mod replies;
mod requests;
mod roles;
mod service;

pub use bodies::{Body, Ending, Item, PayRule, PricedLine, StockRule};
pub use cell_lists::{CellList, value_or_empty};
pub use cell_names::{
    basket_name, basket_named, id_name, id_named, key_name, key_named, number_name, number_named,
};
pub use cells::{Cell, CellName};
pub use changes::{Change, Look};
pub use counts::Counts;
pub use events::{Entry, Event, Offer, What};
pub use lanes::{LANES, lane_node, lane_of};
pub use links::{
    CART_TO_STOCK, LINKS, Link, ORDER_TO_CART, ORDER_TO_PAYMENT, ORDER_TO_SELLER,
    PAYMENT_TO_CUSTOMER, PAYMENT_TO_ORDER, PAYMENT_TO_SELLER, PAYMENT_TO_SHIPMENT,
    PAYMENT_TO_STOCK, PRODUCT_TO_CART, PRODUCT_TO_STOCK, SERVICE_LINKS, SHIPMENT_TO_CUSTOMER,
    SHIPMENT_TO_ORDER, SHIPMENT_TO_SELLER, STOCK_TO_CART, STOCK_TO_ORDER, asking_link, link_at,
    link_index, receiver_of, sender_of, service_of, telling_link,
};
pub use name_lists::NameList;
pub use nodes::{NODES, Node};
pub use outs::{MOST_OUTS, Outs};
pub use replies::{EntryRow, OrderStatus, Reply, Rule, UndoneRule};
pub use requests::{Ask, Request};
pub use roles::{Role, SERVICES};
pub use service::{Service, Tabled};
