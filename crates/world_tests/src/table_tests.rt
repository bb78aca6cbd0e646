//! Small schedules on a world, with the tables before and after it is settled; the values are worked out by
//! hand.

use crate::schedule_tests::{
    Case, SEVEN_TO_CART, answer, expect_answer, expect_cells, give, offer, play, reply_of,
    request_of, settle,
};
use market_amounts::RequestId;
use market_events::{CART_TO_STOCK, LANES, Link, Offer, Role};
use market_history::Give;
use market_world::World;
use std::process::Abort;

// The link on which the lane of caller 8 asks the cart.
const EIGHT_TO_CART: Link = Link::Asked((8 % LANES) as u8, Role::Cart as u8);

// A request of caller 7, or of caller 8.
fn of_seven(number: u32) -> RequestId {
    RequestId { caller: 7, number }
}

fn of_eight(number: u32) -> RequestId {
    RequestId { caller: 8, number }
}

// Three pieces of a product, and a line of two of them in the cart of a customer whose card has this limit.
fn set_a_line(rt: &impl Abort, world: &mut World, card: &[u8]) {
    answer(rt, world, b"7.1 create 5 10 1000 50");
    answer(rt, world, b"7.2 stock 5 10 3");
    answer(rt, world, card);
    answer(rt, world, b"7.4 line 7 5 10 2 100");
}

#[test]
fn over_the_limit(rt: HostRuntime) {
    play(&rt, Case::OverTheLimit);
}

// A checkout that its customer's card does not pay for: its pieces are held, and then free again.
pub fn check_over_the_limit(rt: &(impl Abort + AllocGlobal), world: &mut World) {
    let checkout = request_of(rt, b"7.5 checkout 7");
    let undone = reply_of(rt, b"undone over_limit");
    set_a_line(rt, world, b"7.3 card 7 1949");
    give(rt, world, &checkout, Give::Asked);
    offer(rt, world, SEVEN_TO_CART, 2, Offer::Take);
    offer(rt, world, CART_TO_STOCK, 1, Offer::Take);
    expect_cells(
        rt,
        world,
        Role::Stock,
        b"copy 5:10 live 1 1000 50\nheld 7.5 5:10:2\nstock 5:10 3 2\n",
    );
    settle(rt, world);
    expect_answer(rt, world, of_seven(5), &undone);
    expect_cancelled(rt, world);
}

fn expect_cancelled(rt: &impl Abort, world: &World) {
    expect_cells(rt, world, Role::Cart, b"copy 5:10 live 1 1000 50\n");
    expect_cells(
        rt,
        world,
        Role::Stock,
        b"copy 5:10 live 1 1000 50\nstock 5:10 3 0\n",
    );
    expect_cells(rt, world, Role::Order, b"order 7.5 cancelled 1950 1\n");
    expect_cells(rt, world, Role::Payment, b"account 7 1949 0\n");
    expect_cells(rt, world, Role::Shipment, b"");
    expect_cells(rt, world, Role::Customer, b"customer 7 0 1 0\n");
    expect_cells(
        rt,
        world,
        Role::Seller,
        b"change 5:1 1 invoiced\nchange 5:2 1 cancelled\nentry 5:1 7.5:10:2:1950\n",
    );
}

#[test]
fn all_lines_or_none(rt: HostRuntime) {
    play(&rt, Case::AllLinesOrNone);
}

// A checkout of two products, one of which is short: no piece of the other one is held either.
pub fn check_all_lines_or_none(rt: &(impl Abort + AllocGlobal), world: &mut World) {
    let checkout = request_of(rt, b"7.8 checkout 7");
    let short = reply_of(rt, b"undone short 5 11");
    set_two_lines(rt, world);
    give(rt, world, &checkout, Give::Asked);
    offer(rt, world, SEVEN_TO_CART, 3, Offer::Take);
    offer(rt, world, CART_TO_STOCK, 1, Offer::Take);
    expect_none_held(rt, world);
    settle(rt, world);
    expect_answer(rt, world, of_seven(8), &short);
    expect_none_held(rt, world);
    expect_cells(rt, world, Role::Order, b"");
    expect_cells(rt, world, Role::Seller, b"");
}

fn set_two_lines(rt: &impl Abort, world: &mut World) {
    answer(rt, world, b"7.1 create 5 10 1000 50");
    answer(rt, world, b"7.2 create 5 11 500 0");
    answer(rt, world, b"7.3 stock 5 10 3");
    answer(rt, world, b"7.4 stock 5 11 1");
    answer(rt, world, b"7.5 card 7 100000");
    answer(rt, world, b"7.6 line 7 5 10 2 0");
    answer(rt, world, b"7.7 line 7 5 11 2 0");
}

fn expect_none_held(rt: &impl Abort, world: &World) {
    expect_cells(
        rt,
        world,
        Role::Stock,
        b"copy 5:10 live 1 1000 50\ncopy 5:11 live 1 500 0\nstock 5:10 3 0\nstock 5:11 1 0\n",
    );
}

#[test]
fn deleted_before_the_checkout(rt: HostRuntime) {
    play(&rt, Case::DeletedBefore);
}

// A checkout of a product that was deleted: it is stopped at the cart, and the basket stays.
pub fn check_deleted_before(rt: &(impl Abort + AllocGlobal), world: &mut World) {
    let gone = reply_of(rt, b"undone gone 5 10");
    set_a_line(rt, world, b"7.3 card 7 10000");
    answer(rt, world, b"7.5 delete 5 10");
    answer(rt, world, b"7.6 checkout 7");
    expect_answer(rt, world, of_seven(6), &gone);
    expect_cells(
        rt,
        world,
        Role::Cart,
        b"basket 7:5:10 2 100\ncopy 5:10 gone 2\n",
    );
    expect_cells(
        rt,
        world,
        Role::Stock,
        b"copy 5:10 gone 2\nstock 5:10 3 0\n",
    );
    expect_cells(rt, world, Role::Order, b"");
}

#[test]
fn a_delivery_between_two_checkouts(rt: HostRuntime) {
    play(&rt, Case::DeliveryBetween);
}

// A delivery between two checkouts: the first package is closed, and the second one open.
pub fn check_delivery_between(rt: &(impl Abort + AllocGlobal), world: &mut World) {
    let delivered = reply_of(rt, b"delivered 1 1");
    let whole = reply_of(rt, b"whole 1050");
    set_a_line(rt, world, b"7.3 card 7 10000");
    answer(rt, world, b"7.5 checkout 7");
    answer(rt, world, b"7.6 deliver");
    answer(rt, world, b"7.7 line 7 5 10 1 0");
    answer(rt, world, b"7.8 checkout 7");
    expect_answer(rt, world, of_seven(6), &delivered);
    expect_answer(rt, world, of_seven(8), &whole);
    expect_delivered(rt, world);
}

fn expect_delivered(rt: &impl Abort, world: &World) {
    expect_cells(
        rt,
        world,
        Role::Stock,
        b"copy 5:10 live 1 1000 50\nstock 5:10 0 0\n",
    );
    expect_cells(
        rt,
        world,
        Role::Order,
        b"order 7.5 delivered 1950 0\norder 7.8 shipped 1050 1\n",
    );
    expect_cells(rt, world, Role::Payment, b"account 7 10000 3000\n");
    expect_cells(
        rt,
        world,
        Role::Shipment,
        b"package 1 7.5:7:5:10 closed\npackage 2 7.8:7:5:10 open\n",
    );
    expect_cells(rt, world, Role::Customer, b"customer 7 2 0 1\n");
    expect_cells(
        rt,
        world,
        Role::Seller,
        b"change 5:1 1 invoiced\nchange 5:2 1 paid\nchange 5:3 1 shipped\nchange 5:4 1 delivered\n\
            change 5:5 2 invoiced\nchange 5:6 2 paid\nchange 5:7 2 shipped\n\
            entry 5:1 7.5:10:2:1950\nentry 5:2 7.8:10:1:1050\n",
    );
}

// A product with one piece, and a line of it in the carts of two customers with cards.
fn stock_one_piece(rt: &impl Abort, world: &mut World) {
    answer(rt, world, b"7.1 create 5 10 1000 50");
    answer(rt, world, b"7.2 stock 5 10 1");
    answer(rt, world, b"7.3 card 7 10000");
    answer(rt, world, b"7.4 card 8 10000");
    answer(rt, world, b"7.5 line 7 5 10 1 0");
    answer(rt, world, b"7.6 line 8 5 10 1 0");
}

// Both customers check out.
fn check_out(rt: &impl Abort, world: &mut World) {
    let seven = request_of(rt, b"7.7 checkout 7");
    let eight = request_of(rt, b"8.1 checkout 8");
    give(rt, world, &seven, Give::Asked);
    give(rt, world, &eight, Give::Asked);
}

// Stock takes both checkouts in the order in which they came to the cart, and holds this for the first one.
fn reserve(rt: &impl Abort, world: &mut World, held: &[u8]) {
    offer(rt, world, CART_TO_STOCK, 1, Offer::Take);
    offer(rt, world, CART_TO_STOCK, 2, Offer::Take);
    expect_cells(rt, world, Role::Stock, held);
    settle(rt, world);
    expect_cells(
        rt,
        world,
        Role::Stock,
        b"copy 5:10 live 1 1000 50\nstock 5:10 0 0\n",
    );
}

// The first of these checkouts is whole, and the second one short.
fn expect_first(
    rt: &(impl Abort + AllocGlobal),
    world: &World,
    first: RequestId,
    second: RequestId,
) {
    expect_answer(rt, world, first, &reply_of(rt, b"whole 1050"));
    expect_answer(rt, world, second, &reply_of(rt, b"undone short 5 10"));
}

#[test]
fn the_last_piece_goes_to_eight(rt: HostRuntime) {
    play(&rt, Case::LastPieceToEight);
}

// Two checkouts want the last piece: the one whose request comes to the cart first gets it.
pub fn check_last_piece_to_eight(rt: &(impl Abort + AllocGlobal), world: &mut World) {
    stock_one_piece(rt, world);
    check_out(rt, world);
    offer(rt, world, EIGHT_TO_CART, 1, Offer::Take);
    offer(rt, world, SEVEN_TO_CART, 3, Offer::Take);
    let held = b"copy 5:10 live 1 1000 50\nheld 8.1 5:10:1\nstock 5:10 1 1\n";
    reserve(rt, world, held);
    expect_first(rt, world, of_eight(1), of_seven(7));
}

#[test]
fn the_last_piece_goes_to_seven(rt: HostRuntime) {
    play(&rt, Case::LastPieceToSeven);
}

pub fn check_last_piece_to_seven(rt: &(impl Abort + AllocGlobal), world: &mut World) {
    stock_one_piece(rt, world);
    check_out(rt, world);
    offer(rt, world, SEVEN_TO_CART, 3, Offer::Take);
    offer(rt, world, EIGHT_TO_CART, 1, Offer::Take);
    let held = b"copy 5:10 live 1 1000 50\nheld 7.7 5:10:1\nstock 5:10 1 1\n";
    reserve(rt, world, held);
    expect_first(rt, world, of_seven(7), of_eight(1));
}
