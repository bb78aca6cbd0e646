//! Schedules on a world, step by step; the values are worked out by hand.

ghost use Rattle.std.specs.Prelude.{◌<◌};
ghost use Rattle.market_events.specs.Links.{IsLink};
ghost use Rattle.market_events.specs.WellFormed.{IsRequest};
ghost use Rattle.market_history.specs.Schedule.{IsPlayable};

use crate::table_tests;
use market_amounts::RequestId;
use market_events::{
    CART_TO_STOCK, LANES, LINKS, Link, Node, Offer, PRODUCT_TO_CART, PRODUCT_TO_STOCK, Reply,
    Request, Role, STOCK_TO_CART, What, lane_node, lane_of, link_at,
};
use market_history::{Give, Outcome, Step};
use market_texts::{read_reply, read_request};
use market_world::{World, oldest, run_schedule, settled};
use std::alloc::AllocError;
use std::process::Abort;

// The lane of caller 7, and the links on which it asks the cart and the products, and is told.
const SEVEN: u8 = (7 % LANES) as u8;

pub const SEVEN_TO_CART: Link = Link::Asked(SEVEN, Role::Cart as u8);

const CART_TO_SEVEN: Link = Link::Told(Role::Cart as u8, SEVEN);

const SEVEN_TO_PRODUCT: Link = Link::Asked(SEVEN, Role::Product as u8);

const PRODUCT_TO_SEVEN: Link = Link::Told(Role::Product as u8, SEVEN);

// What is played on a new world.
#[derive(Clone, Copy)]
pub enum Case {
    LineWaits,
    AnyOrder,
    OverTheLimit,
    AllLinesOrNone,
    DeletedBefore,
    DeliveryBetween,
    LastPieceToEight,
    LastPieceToSeven,
}

// Plays a case on a world in which nothing happened.
pub fn play(rt: &(impl Abort + AllocGlobal), case: Case) {
    let mut world = World::new(rt.alloc()).expect(rt, "memory");
    check(rt, &mut world, case);
}

fn check(rt: &(impl Abort + AllocGlobal), world: &mut World, case: Case) {
    match case {
        Case::LineWaits => check_line_waits(rt, world),
        Case::AnyOrder => check_any_order(rt, world),
        Case::OverTheLimit => table_tests::check_over_the_limit(rt, world),
        Case::AllLinesOrNone => table_tests::check_all_lines_or_none(rt, world),
        Case::DeletedBefore => table_tests::check_deleted_before(rt, world),
        Case::DeliveryBetween => table_tests::check_delivery_between(rt, world),
        Case::LastPieceToEight => table_tests::check_last_piece_to_eight(rt, world),
        Case::LastPieceToSeven => table_tests::check_last_piece_to_seven(rt, world),
    }
}

// The request and the reply of a text.
pub fn request_of(rt: &impl Abort, text: &[u8]) -> Request
    ensures { IsRequest result }
{
    read_request(text).expect(rt, "a request")
}

pub fn reply_of(rt: &(impl Abort + AllocGlobal), text: &[u8]) -> Reply {
    read_reply(rt.alloc(), text).expect(rt, "a reply")
}

// What comes of a step.
fn outcome(rt: &impl Abort, world: &mut World, step: Step) -> Option<Outcome>
    requires { IsPlayable step }
{
    let seen = run_schedule(world, [step].as_slice()).expect(rt, "memory");
    seen.first().copied()
}

// A request is given to its lane, which does this with it.
pub fn give(rt: &impl Abort, world: &mut World, request: &Request, expected: Give)
    requires { IsRequest request.now }
{
    let seen = outcome(rt, world, Step::Give(*request));
    assert_eq!(rt; seen, Some(Outcome::Gave(expected)));
}

// An event is offered to the receiver of its link, and this becomes of it.
pub fn offer(rt: &impl Abort, world: &mut World, link: Link, number: u32, expected: Offer)
    requires { IsLink link }
{
    let seen = outcome(rt, world, Step::Offer(link, number));
    assert_eq!(rt; seen, Some(Outcome::Offered(expected)));
}

// The oldest event is offered and taken until none is outstanding. There are at most a hundred.
pub fn settle(rt: &impl Abort, world: &mut World) {
    for _ in 0..100u32 {
        let Some((link, number)) = oldest(world) else {
            break;
        };
        offer(rt, world, link, number, Offer::Take);
    }
    assert!(rt; settled(world));
}

// The request of this text is asked, and answered.
pub fn answer(rt: &impl Abort, world: &mut World, text: &[u8]) {
    let request = request_of(rt, text);
    give(rt, world, &request, Give::Asked);
    settle(rt, world);
}

// Its lane answered the request so.
pub fn expect_answer(rt: &impl Abort, world: &World, id: RequestId, reply: &Reply) {
    assert!(rt; is_answered(world, lane_node(lane_of(id)), id, reply));
}

fn is_answered(world: &World, lane: Node, id: RequestId, reply: &Reply) -> bool {
    world
        .journal(lane)
        .entries()
        .iter()
        .any(|entry| match &entry.what {
            What::Answered(answered, told) => *answered == id && told == reply,
            _ => false,
        })
}

// A line that rests on a product which the cart has not heard of yet.
fn set_a_line_early(rt: &impl Abort, world: &mut World) {
    let create = request_of(rt, b"7.1 create 5 10 1000 50");
    let line = request_of(rt, b"7.2 line 7 5 10 1 0");
    give(rt, world, &create, Give::Asked);
    offer(rt, world, SEVEN_TO_PRODUCT, 1, Offer::Take);
    offer(rt, world, PRODUCT_TO_SEVEN, 1, Offer::Take);
    give(rt, world, &line, Give::Asked);
    offer(rt, world, SEVEN_TO_CART, 1, Offer::NotReady);
    offer(rt, world, PRODUCT_TO_CART, 1, Offer::Take);
    offer(rt, world, SEVEN_TO_CART, 1, Offer::Take);
    offer(rt, world, CART_TO_SEVEN, 1, Offer::Take);
}

// A checkout of it that is short, which stock takes no sooner than the product.
fn check_out_early(rt: &impl Abort, world: &mut World) {
    let checkout = request_of(rt, b"7.3 checkout 7");
    give(rt, world, &checkout, Give::Asked);
    offer(rt, world, SEVEN_TO_CART, 2, Offer::Take);
    offer(rt, world, CART_TO_STOCK, 1, Offer::NotReady);
    offer(rt, world, PRODUCT_TO_STOCK, 1, Offer::Take);
    offer(rt, world, CART_TO_STOCK, 1, Offer::Take);
    offer(rt, world, CART_TO_STOCK, 1, Offer::Old);
    let never_made = outcome(rt, world, Step::Offer(CART_TO_STOCK, 2));
    assert_eq!(rt; never_made, Some(Outcome::NeverMade));
    let acked = outcome(rt, world, Step::Ack(CART_TO_STOCK, 1));
    assert_eq!(rt; acked, Some(Outcome::Acked));
}

#[test]
fn a_line_waits_for_its_product(rt: HostRuntime) {
    play(&rt, Case::LineWaits);
}

fn check_line_waits(rt: &(impl Abort + AllocGlobal), world: &mut World) {
    let short = reply_of(rt, b"undone short 5 10");
    set_a_line_early(rt, world);
    check_out_early(rt, world);
    assert!(rt; !settled(world));
    assert_eq!(rt; oldest(world), Some((STOCK_TO_CART, 1)));
    offer(rt, world, STOCK_TO_CART, 1, Offer::Take);
    offer(rt, world, CART_TO_SEVEN, 2, Offer::Take);
    assert!(rt; settled(world));
    let id = RequestId {
        caller: 7,
        number: 3,
    };
    expect_answer(rt, world, id, &short);
}

// Offers the first events of all links, each three times, in an order that begins at this link and goes on by
// leaps.
fn offer_all(rt: &impl Abort, world: &mut World, begin: u32)
    requires { begin < LINKS }
{
    for leap in 0..LINKS {
        let link = link_at((begin + 101 * leap) % LINKS);
        for number in 1..4u32 {
            offer_thrice(rt, world, link, number);
        }
    }
}

fn offer_thrice(rt: &impl Abort, world: &mut World, link: Link, number: u32)
    requires { IsLink link }
{
    for _ in 0..3u32 {
        outcome(rt, world, Step::Offer(link, number));
    }
}

// The request of this text is asked, and all events are offered until none is outstanding.
fn answer_by_leaps(rt: &impl Abort, world: &mut World, text: &[u8]) {
    let request = request_of(rt, text);
    give(rt, world, &request, Give::Asked);
    for round in 0..12u32 {
        offer_all(rt, world, 17 * round);
    }
    assert!(rt; settled(world));
    give(rt, world, &request, Give::Kept);
}

// The cells of a node, each in a line of its table, its key and its value.
fn cells_text(world: &World, node: Node) -> Result<Vec<u8>, AllocError> {
    let mut text = Vec::new(world.alloc());
    for cell in &world.cells(node)? {
        text.extend_from_slice(cell.name.table.as_slice())?;
        text.push(b' ')?;
        text.extend_from_slice(cell.name.key.as_slice())?;
        text.push(b' ')?;
        text.extend_from_slice(cell.value.as_slice())?;
        text.push(b'\n')?;
    }
    Ok(text)
}

// The tables of this service.
pub fn expect_cells(rt: &impl Abort, world: &World, service: Role, expected: &[u8]) {
    let text = cells_text(world, service.node()).expect(rt, "memory");
    assert_eq!(rt; text.as_slice(), expected);
}

// The tables after two pieces were bought.
fn expect_tables(rt: &impl Abort, world: &World) {
    expect_cells(rt, world, Role::Cart, b"copy 5:10 live 1 1000 50\n");
    expect_cells(rt, world, Role::Product, b"product 5:10 live 1 1000 50\n");
    expect_cells(
        rt,
        world,
        Role::Stock,
        b"copy 5:10 live 1 1000 50\nstock 5:10 1 0\n",
    );
    expect_cells(rt, world, Role::Order, b"order 7.5 shipped 1950 1\n");
    expect_cells(rt, world, Role::Payment, b"account 7 10000 1950\n");
    expect_cells(rt, world, Role::Shipment, b"package 1 7.5:7:5:10 open\n");
    expect_cells(rt, world, Role::Customer, b"customer 7 1 0 0\n");
    expect_cells(
        rt,
        world,
        Role::Seller,
        b"change 5:1 1 invoiced\nchange 5:2 1 paid\nchange 5:3 1 shipped\nentry 5:1 7.5:10:2:1950\n",
    );
    let lane = cells_text(world, lane_node(SEVEN)).expect(rt, "memory");
    assert!(rt; lane.is_empty());
}

#[test]
fn a_checkout_is_whole_in_any_order(rt: HostRuntime) {
    play(&rt, Case::AnyOrder);
}

// A checkout that is whole, each event of which is offered three times and far out of order.
fn check_any_order(rt: &(impl Abort + AllocGlobal), world: &mut World) {
    let whole = reply_of(rt, b"whole 1950");
    let lane = lane_node(SEVEN);
    answer_by_leaps(rt, world, b"7.1 create 5 10 1000 50");
    answer_by_leaps(rt, world, b"7.2 stock 5 10 3");
    answer_by_leaps(rt, world, b"7.3 card 7 10000");
    answer_by_leaps(rt, world, b"7.4 line 7 5 10 2 100");
    answer_by_leaps(rt, world, b"7.5 checkout 7");
    let id = RequestId {
        caller: 7,
        number: 5,
    };
    expect_answer(rt, world, id, &whole);
    expect_tables(rt, world);
    let histories = world.histories().expect(rt, "memory");
    assert_eq!(rt; histories.journal(lane).entries().len(), 20);
}
