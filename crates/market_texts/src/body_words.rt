//! Reading bodies word by word.

ghost use Rattle.std.specs.Prelude.{◌≡◌, ◌≤◌, ◌+◌};
ghost use Rattle.market_texts.specs.Reading.{word, give, ◌then◌, this_total, items_read, lines_read};
ghost use Rattle.market_words.specs.Words.{id_of};
ghost use Rattle.market_texts.specs.Readers.{body_reader, body_named, change_word_of, change_by};
ghost use Rattle.market_texts.specs.Readers.{ending_word_of, ending_by, request_reader, reply_reader, inside};
ghost use Rattle.market_texts.specs.Readers.{kind_fault, number};
ghost use Rattle.market_events.specs.WellFormed.{total_of};
ghost use Rattle.market_texts.specs.Cutting.{outcome, Tells};

use crate::faults::{BodyError, BodyFault, fault_of_word};
use crate::lists::{items, lines};
use crate::reply_words::reply;
use crate::request_words::request;
use crate::words::Words;
use market_amounts::{List, line_amount};
use market_events::{Body, Change, Ending, Item, PricedLine, Reply, Request};
use std::alloc::Global;

// KIND and what it tells.
pub(crate) fn body(alloc: Global, words: &mut Words) -> Result<Body, BodyFault>
    requires { words.old.place + 57 ≤ u32.MAX }
    ensures { Tells result words.new (body_reader words.old) }
{
    let (_, kind) = words.take()?;
    body_of_kind(alloc, kind, words)
}

// What a kind of body tells.
fn body_of_kind(alloc: Global, kind: &[u8], words: &mut Words) -> Result<Body, BodyFault>
    requires { words.old.place + 56 ≤ u32.MAX }
    ensures { Tells result words.new (body_named kind.now words.old) }
{
    if kind == b"changed".as_slice() {
        Ok(Body::Changed(words.key()?, words.number()?, change(words)?))
    } else if kind == b"reserve".as_slice() {
        Ok(Body::Reserve(words.id()?, words.number()?, line_list(alloc, words)?))
    } else if kind == b"reserve_failed".as_slice() {
        Ok(Body::ReserveFailed(words.id()?, words.key()?, words.stock_rule()?))
    } else if kind == b"stock_confirmed".as_slice() {
        Ok(Body::StockConfirmed(words.id()?, words.number()?, line_list(alloc, words)?))
    } else if kind == b"invoice".as_slice() {
        invoice(alloc, words)
    } else if kind == b"confirmed".as_slice() {
        confirmed(alloc, words)
    } else if kind == b"ended".as_slice() {
        Ok(Body::Ended(words.id()?, ending(words)?))
    } else if kind == b"failed".as_slice() {
        Ok(Body::Failed(words.id()?, words.number()?, words.pay_rule()?))
    } else if kind == b"shipped".as_slice() {
        Ok(Body::Shipped(words.id()?))
    } else if kind == b"delivered".as_slice() {
        Ok(Body::Delivered(item_list(alloc, words)?))
    } else if kind == b"asked".as_slice() {
        Ok(Body::Asked(inner_request(words)?))
    } else if kind == b"told".as_slice() {
        Ok(Body::Told(words.id()?, inner_reply(alloc, words)?))
    } else {
        Err(BodyFault::Bad(BodyError::Kind))
    }
}

// What a checkout costs, with its total.
fn invoice(alloc: Global, words: &mut Words) -> Result<Body, BodyFault>
    requires { words.old.place + 4 ≤ u32.MAX }
    ensures { Tells result words.new
        ((word id_of then λ c. number then λ n. word lines_read then λ ls. word (this_total (total_of ls))
        then λ t. give (Body.Invoice c n ls t)) words.old) }
{
    let (checkout, customer) = (words.id()?, words.number()?);
    let lines = line_list(alloc, words)?;
    let total = words.this_total(total_of(lines.as_slice()))?;
    Ok(Body::Invoice(checkout, customer, lines, total))
}

// What a paid checkout costs, with its total.
fn confirmed(alloc: Global, words: &mut Words) -> Result<Body, BodyFault>
    requires { words.old.place + 4 ≤ u32.MAX }
    ensures { Tells result words.new
        ((word id_of then λ c. number then λ n. word lines_read then λ ls. word (this_total (total_of ls))
        then λ t. give (Body.Confirmed c n ls t)) words.old) }
{
    let (checkout, customer) = (words.id()?, words.number()?);
    let lines = line_list(alloc, words)?;
    let total = words.this_total(total_of(lines.as_slice()))?;
    Ok(Body::Confirmed(checkout, customer, lines, total))
}

// A change of a product.
fn change(words: &mut Words) -> Result<Change, BodyError>
    requires { words.old.place + 3 ≤ u32.MAX }
    ensures { outcome result words.new ≡ (word change_word_of then change_by) words.old }
{
    let (place, text) = words.take()?;
    if text == b"created".as_slice() {
        Ok(Change::Created(words.cents()?, words.cents()?))
    } else if text == b"priced".as_slice() {
        Ok(Change::Priced(words.cents()?))
    } else if text == b"deleted".as_slice() {
        Ok(Change::Deleted)
    } else {
        Err(BodyError::Field(place))
    }
}

// How a checkout ended.
fn ending(words: &mut Words) -> Result<Ending, BodyError>
    requires { words.old.place + 2 ≤ u32.MAX }
    ensures { outcome result words.new ≡ (word ending_word_of then ending_by) words.old }
{
    let (place, text) = words.take()?;
    if text == b"whole".as_slice() {
        Ok(Ending::Whole(words.total()?))
    } else if text == b"undone".as_slice() {
        Ok(Ending::Undone(words.pay_rule()?))
    } else {
        Err(BodyError::Field(place))
    }
}

// Lines in one word.
fn line_list(alloc: Global, words: &mut Words) -> Result<List<PricedLine>, BodyFault>
    requires { words.old.place + 1 ≤ u32.MAX }
    ensures reads { Tells result words.new (word lines_read words.old) }
    ensures one_further { words.new.place ≤ words.old.place + 1 }
{
    let (place, text) = words.take()?;
    match lines(alloc, text)? {
        Ok(lines) => Ok(lines),
        Err(fault) => Err(BodyFault::Bad(fault_of_word(fault, place))),
    }
}

// Items in one word.
fn item_list(alloc: Global, words: &mut Words) -> Result<List<Item>, BodyFault>
    requires { words.old.place + 1 ≤ u32.MAX }
    ensures { Tells result words.new (word items_read words.old) }
{
    let (place, text) = words.take()?;
    match items(alloc, text)? {
        Ok(items) => Ok(items),
        Err(fault) => Err(BodyFault::Bad(fault_of_word(fault, place))),
    }
}

// What lines cost together. No sum of amounts of 64 bits, which are fewer than 2^64, goes over 128 bits.
fn total_of(lines: &[PricedLine]) -> u128
    ensures { result ≡ total_of lines.now }
{
    let mut total = 0;
    for line in lines {
        let amount = line_amount(line.price, line.quantity, line.freight, line.voucher);
        total += u128::from(amount);
    }
    total
}

// A request inside a body, whose kind is word 2.
fn inner_request(words: &mut Words) -> Result<Request, BodyError>
    requires { words.old.place + 7 ≤ u32.MAX }
    ensures { outcome result words.new ≡ inside request_reader words.old }
{
    match request(words) {
        Ok(request) => Ok(request),
        Err(error) => Err(inner_fault(error)),
    }
}

// A reply inside a body, whose kind is word 2.
fn inner_reply(alloc: Global, words: &mut Words) -> Result<Reply, BodyFault>
    requires { words.old.place + 55 ≤ u32.MAX }
    ensures { Tells result words.new (inside reply_reader words.old) }
{
    match reply(alloc, words) {
        Err(BodyFault::Bad(error)) => Err(BodyFault::Bad(inner_fault(error))),
        other => other,
    }
}

// The fault of such a text: a kind that there is none of is a fault of word 2.
fn inner_fault(error: BodyError) -> BodyError
    ensures { result ≡ kind_fault error }
{
    match error {
        BodyError::Kind => BodyError::Field(2),
        other => other,
    }
}
