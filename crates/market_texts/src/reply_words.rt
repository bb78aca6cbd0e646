//! Reading replies word by word.

ghost use Rattle.std.specs.Prelude.{◌≡◌, ◌≤◌, ◌+◌, codes};
ghost use Rattle.market_texts.specs.Reading.{word, give, ◌then◌, rows};
ghost use Rattle.market_words.specs.Words.{number_up_to};
ghost use Rattle.market_texts.specs.Readers.{reply_reader, reply_named, undone_word_of, undone_by, number};
ghost use Rattle.market_events.specs.WellFormed.{amount_max};
ghost use Rattle.market_texts.specs.Cutting.{outcome, Tells};

use crate::faults::{BodyError, BodyFault, fault_of_word};
use crate::forms::row;
use crate::words::Words;
use market_amounts::List;
use market_events::{EntryRow, Reply, UndoneRule};
use std::alloc::Global;

// The greatest number of rows.
const MOST_ROWS: usize = 50;

// KIND and what it says.
pub(crate) fn reply(alloc: Global, words: &mut Words) -> Result<Reply, BodyFault>
    requires { words.old.place + 55 ≤ u32.MAX }
    ensures { Tells result words.new (reply_reader words.old) }
{
    let (_, kind) = words.take()?;
    reply_of_kind(alloc, kind, words)
}

// What a kind of reply says.
fn reply_of_kind(alloc: Global, kind: &[u8], words: &mut Words) -> Result<Reply, BodyFault>
    requires { words.old.place + 54 ≤ u32.MAX }
    ensures { Tells result words.new (reply_named kind.now words.old) }
{
    if kind == b"created".as_slice() {
        Ok(Reply::Created(words.number()?))
    } else if kind == b"priced".as_slice() {
        Ok(Reply::Priced(words.number()?))
    } else if kind == b"deleted".as_slice() {
        Ok(Reply::Deleted(words.number()?))
    } else if kind == b"view".as_slice() {
        Ok(Reply::View(words.number()?, words.cents()?, words.cents()?))
    } else if kind == b"line".as_slice() {
        Ok(Reply::Line(words.quantity()?))
    } else if kind == b"removed".as_slice() {
        Ok(Reply::Removed)
    } else if kind == b"whole".as_slice() {
        Ok(Reply::Whole(words.total()?))
    } else if kind == b"undone".as_slice() {
        Ok(undone(words)?)
    } else if kind == b"stocked".as_slice() {
        Ok(Reply::Stocked(words.pieces()?))
    } else if kind == b"level".as_slice() {
        Ok(Reply::Level(words.pieces()?, words.pieces()?))
    } else if kind == b"order".as_slice() {
        Ok(Reply::OrderState(words.status()?, words.total()?))
    } else if kind == b"card".as_slice() {
        Ok(Reply::Card(words.limit()?))
    } else if kind == b"delivered".as_slice() {
        Ok(Reply::Delivered(words.number()?, words.number()?))
    } else if kind == b"customer".as_slice() {
        Ok(Reply::Customer(words.number()?, words.number()?, words.number()?))
    } else if kind == b"dashboard".as_slice() {
        dashboard(alloc, words)
    } else if kind == b"refused".as_slice() {
        Ok(Reply::Refused(words.rule()?))
    } else {
        Err(BodyFault::Bad(BodyError::Kind))
    }
}

// Why a checkout was undone.
fn undone(words: &mut Words) -> Result<Reply, BodyError>
    requires { words.old.place + 3 ≤ u32.MAX }
    ensures { outcome result words.new
        ≡ (word undone_word_of then λ w. undone_by w then λ r. give (Reply.Undone r)) words.old }
{
    let (place, text) = words.take()?;
    if text == b"cart_empty".as_slice() {
        Ok(Reply::Undone(UndoneRule::CartEmpty))
    } else if text == b"gone".as_slice() {
        Ok(Reply::Undone(UndoneRule::Gone(words.seller_product()?)))
    } else if text == b"short".as_slice() {
        Ok(Reply::Undone(UndoneRule::Short(words.seller_product()?)))
    } else if text == b"no_card".as_slice() {
        Ok(Reply::Undone(UndoneRule::NoCard))
    } else if text == b"over_limit".as_slice() {
        Ok(Reply::Undone(UndoneRule::OverLimit))
    } else {
        Err(BodyError::Field(place))
    }
}

// The entries in progress of a seller, with their number and amount.
fn dashboard(alloc: Global, words: &mut Words) -> Result<Reply, BodyFault>
    requires { words.old.place + 54 ≤ u32.MAX }
    ensures { Tells result words.new
        ((number then λ p. number then λ n. word (number_up_to amount_max) then λ a. rows then λ rs. give
        (Reply.Dashboard p n a rs)) words.old) }
{
    let point = words.number()?;
    let entries = words.number()?;
    let amount = words.amount()?;
    let rows = rows(alloc, words)?;
    Ok(Reply::Dashboard(point, entries, amount, rows))
}

// The rows of a dashboard, to the last word.
fn rows(alloc: Global, words: &mut Words) -> Result<List<EntryRow>, BodyFault>
    requires { words.old.place + 51 ≤ u32.MAX }
    ensures { Tells result words.new (rows words.old) }
{
    let mut rows = Vec::new(alloc);
    while let Some((place, text)) = words.next() {
        match row(text) {
            Ok(row) if rows.len() < MOST_ROWS => rows.push(row)?,
            Ok(_) => return Err(BodyFault::Bad(BodyError::Field(place))),
            Err(fault) => return Err(BodyFault::Bad(fault_of_word(fault, place))),
        }
    }
    Ok(List::from_vec(rows))
}
